//! The offers of a task that a worker has in hand.
ghost use Rattle.search_book.specs.Answers.{AnswersSettle};
ghost use Rattle.search_book.specs.Sound.{IsSound};
ghost use Rattle.search_pool.specs.Task.{AllowsOffers};

use crate::hints::HintTable;
use crate::locked::Task;
use next_moves::{MAX_OFFERS, Offers};
use search_book::{Book, NO_HINT, Settled};

/// The offers of a task, with the ids at which their keys may be in the book, where these were looked up.
#[derive(Drop)]
pub struct TaskOffers {
    offers: Offers,
    ids: [u32; MAX_OFFERS],
    is_hinted: bool,
}

impl TaskOffers {
    /// Finds the offers of another task, in the place of these.
    fn renew(&mut self, task: &Task)
        requires { AllowsOffers task.now }
    {
        self.offers.renew(&task.form, task.cap);
        self.is_hinted = false;
    }

    /// Looks up ids for the keys of the offers.
    pub fn look(&mut self, table: &HintTable) {
        let TaskOffers {
            offers,
            ids,
            is_hinted,
        } = self;
        table.look(offers.offers(), ids.as_mut_slice());
        *is_hinted = true;
    }

    /// Notes the ids that the last settlement left, if they were looked up.
    pub fn note(&self, table: &mut HintTable) {
        if self.is_hinted {
            table.note(self.offers.offers(), self.ids.as_slice());
        }
    }

    /// One settlement of the book: of the entry with this id, with these offers, and with the ids as hints, if they were looked up.
    pub fn settle(&mut self, book: &mut Book, worker: u32, id: u32) -> Settled
        ensures answer { AnswersSettle book.old worker id self.old.offers result book.new }
        ensures sound { IsSound book.new }
    {
        let TaskOffers {
            offers,
            ids,
            is_hinted,
        } = self;
        if *is_hinted {
            book.settle_hinted(worker, id, offers, ids.as_mut_slice())
        } else {
            book.settle(worker, id, offers)
        }
    }
}

/// Finds the offers of a task in a room for one list, in the place of those that are there.
pub fn find_in(room: &mut Vec<TaskOffers>, task: &Task)
    requires { AllowsOffers task.now }
{
    match room.get_mut(0) {
        Some(found) => found.renew(task),
        None => find_first(room, task),
    }
}

/// Finds the offers of a first task, where there is room for them. This stands out of line: a function that is called for each task would
/// clear its frame, which holds the list.
#[inline(never)]
fn find_first(room: &mut Vec<TaskOffers>, task: &Task)
    requires { AllowsOffers task.now }
{
    if room.len() < room.capacity() {
        room.push_reserved(TaskOffers {
            offers: Offers::of(&task.form, task.cap),
            ids: [NO_HINT; MAX_OFFERS],
            is_hinted: false,
        });
    }
}
