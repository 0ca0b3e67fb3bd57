//! What a search leaves.
ghost use Rattle.std.specs.Prelude.{◌≡◌, ◌≢◌, None};
ghost use Rattle.search_book.specs.Ended.{Shows};
ghost use Rattle.search_book.specs.Events.{settlements};
ghost use Rattle.search_pool.specs.Finding.{IsFinding};

use search_book::{Book, End};

/// What a search leaves: its book and a number of settlements. In every finding that a call here answers the book is
/// over and sound, and `settled` is the number of settlements in its history.
#[derive(Drop)]
pub struct Finding {
    pub book: Book,
    pub settled: u64,
}

impl Finding {
    /// The finding of a book that is over, of its own problem: this book, its settlements counted.
    pub fn of(book: Book) -> Finding
        requires { book.end ≢ None }
        ensures book { result.book ≡ book }
        ensures finding { IsFinding book.problem result }
        ensures shows { (end : End) → book.end ≡ Some end → Shows book end }
    {
        let settled = book.settles();
        Finding { book, settled }
    }

    /// The finding of a book that is over, whose settlements are counted already.
    pub(crate) fn counted(book: Book, settled: u64) -> Finding
        requires over { book.end ≢ None }
        requires settled { settled ≡ settlements book.history }
        ensures finding { IsFinding book.problem result }
        ensures shows { (end : End) → result.book.end ≡ Some end → Shows result.book end }
    {
        let _problem = book.problem();
        Finding { book, settled }
    }
}
