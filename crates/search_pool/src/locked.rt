//! What lies under the lock of a shared book.
ghost use Rattle.std.specs.Prelude.{◌≡◌, ◌≢◌, ◌<◌, ◌≤◌, ◌+◌, [], None, true, vec_len};
ghost use Rattle.search_book.specs.Events.{settlements};
ghost use Rattle.search_pool.specs.Holding.{IsHolding};
ghost use Rattle.search_pool.specs.Seats.{SeatState, all_made, how_many_saw_end};
ghost use Rattle.search_pool.specs.Task.{AllowsOffers, IsTaskAnswer, Counts};

use crate::seat::Seat;
use crate::shared_problem::OfProblem;
use crate::task_offers::TaskOffers;
use grid_keys::LeastForm;
use search_book::{Book, Claim, Settled, Ticket};
use std::marker::PhantomData;
use std::sync::ledger::{Book as Tally, Ledger, Share};

/// How many entries that are not settled are plenty: more than all workers have in hand at once, so that none goes without one
/// where another claims several.
const PLENTY: u64 = 4096;

/// Whether with this budget there can be plenty of entries that are not settled.
pub fn allows_plenty(budget: u32) -> bool {
    u64::from(budget) >= PLENTY
}

/// An entry that a worker has claimed, with all that its offers need: its diagram, and the cap of the book. And whether there
/// is plenty of entries that are not settled.
#[derive(Drop)]
pub struct Task {
    pub id: u32,
    pub form: LeastForm,
    pub cap: u8,
    pub plenty: bool,
}

/// The answer to a worker that asks for a task.
#[derive(Drop)]
pub enum TaskAnswer {
    /// A task to work at.
    Work(Task),
    /// Nothing now: each entry is claimed, and the book is not over.
    Later,
    /// Nothing more: the book is over.
    Over,
}

/// Whom a settlement wakes.
#[derive(Clone, Copy, PartialEq, Eq)]
pub enum Waking {
    /// So many of those that wait.
    Count(u32),
    /// All of them: the book is over.
    All,
}

impl Waking {
    /// Whom two settlements wake.
    pub fn and(self, other: Waking) -> Waking {
        match (self, other) {
            (Waking::Count(one), Waking::Count(more)) => Waking::Count(one.saturating_add(more)),
            _ => Waking::All,
        }
    }
}

/// The book, which is of the problem that the type K stands for, the totals of its two ledgers, what is left of their parts beside the
/// seats, which is nothing, and how many workers wait for a task. The total of the ledger of settlements is the number of settlements
/// in the history of the book, and that of the ledger of ends is above 0 only where the book is over.
#[derive(Drop)]
pub struct Locked<L: Ledger, M: Ledger, K: OfProblem> {
    book: Book,
    made_ledger: Tally<L>,
    end_ledger: Tally<M>,
    made_share: Share<L>,
    end_share: Share<M>,
    waiting: u32,
    of: PhantomData<K>,
    ghost made_share_is_empty: { (made_share.parts ≡ 0) × (made_share.amount ≡ 0) },
    ghost end_share_is_empty: { (end_share.parts ≡ 0) × (end_share.amount ≡ 0) },
    ghost sums: { made_ledger.total ≡ settlements book.history },
    ghost ended: { 0 < end_ledger.total → book.end ≢ None },
    ghost of_problem: { book.problem ≡ K.problem },
}

impl<L: Ledger, M: Ledger, K: OfProblem> Locked<L, M, K> {
    /// A book at its beginning, with two ledgers in which nothing is counted, and all of whose parts the seats hold.
    pub fn new(
        book: Book,
        made_ledger: Tally<L>,
        end_ledger: Tally<M>,
        made_share: Share<L>,
        end_share: Share<M>,
    ) -> Locked<L, M, K>
        requires fresh { book.history ≡ [] }
        requires of_problem { book.problem ≡ K.problem }
        requires made_ledger { made_ledger.total ≡ 0 }
        requires end_ledger { end_ledger.total ≡ 0 }
        requires made_share { (made_share.parts ≡ 0) × (made_share.amount ≡ 0) }
        requires end_share { (end_share.parts ≡ 0) × (end_share.amount ≡ 0) }
        ensures { result.book ≡ book }
    {
        Locked {
            book,
            made_ledger,
            end_ledger,
            made_share,
            end_share,
            waiting: 0,
            of: PhantomData,
        }
    }

    /// One claim of the book. The seat notes the end, and a worker that finds nothing is
    /// counted as waiting.
    #[tactic(auto, using(crate::proofs::Holdings::claim_holds, crate::proofs::Holdings::claim_stays, search_book::proofs::Recorded::claim_keeps_settlements,))]
    pub fn claim(&mut self, seat: &mut Seat<L, M>) -> TaskAnswer
        ensures book { IsHolding seat.old.worker self.old.book self.new.book }
        ensures answer { IsTaskAnswer self.old.book seat.old.worker result self.new.book }
        ensures work { (task : Task) → result ≡ TaskAnswer.Work task → AllowsOffers task }
        ensures over { result ≡ TaskAnswer.Over → seat.new.saw_end ≡ true }
        ensures worker { seat.new.worker ≡ seat.old.worker }
        ensures made { seat.new.made ≡ seat.old.made }
    {
        let cap = self.book.problem().cap;
        match self.book.claim(seat.worker()) {
            Claim::Work(ticket) => TaskAnswer::Work(task_of(&self.book, ticket, cap)),
            Claim::Later => later(&mut self.waiting),
            Claim::Over(_) => {
                seat.note_end(&mut self.end_ledger);
                TaskAnswer::Over
            }
        }
    }

    /// Counts one worker less as waiting. No call of the book.
    pub fn woken(&mut self)
        ensures { self.new.book ≡ self.old.book }
    {
        self.waiting = self.waiting.saturating_sub(1);
    }

    /// One settlement of the book, counted by the seat where the offers were taken. Answers whom it wakes: for each entry that was admitted
    /// one of those that wait, and all where the book is over.
    pub fn settle(&mut self, seat: &mut Seat<L, M>, id: u32, found: &mut TaskOffers) -> Waking
        ensures book { IsHolding seat.old.worker self.old.book self.new.book }
        ensures counts { Counts self.old.book seat.old.worker id found.old.offers self.new.book seat.old.made seat.new.made }
        ensures worker { seat.new.worker ≡ seat.old.worker }
        ensures made { seat.old.made ≤ seat.new.made }
        ensures saw_end { seat.new.saw_end ≡ seat.old.saw_end }
    {
        let before = self.book.len();
        settle_counted(&mut self.book, &mut self.made_ledger, seat, id, found);
        if self.book.end().is_some() {
            Waking::All
        } else {
            Waking::Count(self.book.len().saturating_sub(before).min(self.waiting))
        }
    }

    /// Takes all its seats back: the book, and how many settlements their workers made. The book's problem is the one that K stands for.
    pub fn close(self, seats: Vec<Seat<L, M>>) -> (Book, u64)
        requires all_made_shares { vec_len seats ≡ L.parts }
        requires all_end_shares { vec_len seats ≡ M.parts }
        ensures made { result.1 ≡ all_made seats.items }
        ensures settled { result.1 ≡ settlements result.0.history }
        ensures over { 0 < how_many_saw_end seats.items → result.0.end ≢ None }
        ensures problem { result.0.problem ≡ K.problem }
    {
        let book = self.book;
        let (mut made_ledger, mut made_share) = (self.made_ledger, self.made_share);
        let (mut end_ledger, mut end_share) = (self.end_ledger, self.end_share);
        give_all_back(seats, &mut made_share, &mut end_share);
        made_ledger.audit(&mut made_share);
        end_ledger.audit(&mut end_share);
        let settled = book.settles();
        (book, settled)
    }
}

/// The task of a ticket.
fn task_of(book: &Book, ticket: Ticket, cap: u8) -> Task
    ensures id { result.id ≡ ticket.id }
    ensures form { result.form ≡ ticket.form }
    ensures cap { result.cap ≡ cap }
{
    Task {
        id: ticket.id,
        form: ticket.form,
        cap,
        plenty: is_plenty(book),
    }
}

/// Counts one worker more as waiting, and answers that there is nothing now.
fn later(waiting: &mut u32) -> TaskAnswer
    ensures { result ≡ TaskAnswer.Later }
{
    *waiting = waiting.saturating_add(1);
    TaskAnswer::Later
}

/// Whether there is plenty of entries that are not settled.
fn is_plenty(book: &Book) -> bool {
    u64::from(book.len()).saturating_sub(book.settles()) >= PLENTY
}

/// One settlement of the book, which the seat and the ledger of settlements count where the offers were taken.
#[tactic(auto, using(crate::proofs::Holdings::settle_holds, crate::proofs::Holdings::settle_stays))]
fn settle_counted<L: Ledger, M: Ledger>(
    book: &mut Book,
    made_ledger: &mut Tally<L>,
    seat: &mut Seat<L, M>,
    id: u32,
    found: &mut TaskOffers,
)
    requires { made_ledger.old.total ≡ settlements book.old.history }
    ensures book { IsHolding seat.old.worker book.old book.new }
    ensures counts { Counts book.old seat.old.worker id found.old.offers book.new seat.old.made seat.new.made }
    ensures sums { made_ledger.new.total ≡ settlements book.new.history }
    ensures over { book.old.end ≢ None → book.new.end ≢ None }
    ensures problem { book.new.problem ≡ book.old.problem }
    ensures worker { seat.new.worker ≡ seat.old.worker }
    ensures made { seat.old.made ≤ seat.new.made }
    ensures saw_end { seat.new.saw_end ≡ seat.old.saw_end }
{
    if found.settle(book, seat.worker(), id) == Settled::Done {
        seat.count(made_ledger);
    }
}

/// Gives the parts of all these seats back to two shares without a part.
fn give_all_back<L: Ledger, M: Ledger>(
    seats: Vec<Seat<L, M>>,
    made_share: &mut Share<L>,
    end_share: &mut Share<M>,
)
    requires made_share { (made_share.old.parts ≡ 0) × (made_share.old.amount ≡ 0) }
    requires end_share { (end_share.old.parts ≡ 0) × (end_share.old.amount ≡ 0) }
    ensures made_parts { made_share.new.parts ≡ vec_len seats }
    ensures made { made_share.new.amount ≡ all_made seats.items }
    ensures end_parts { end_share.new.parts ≡ vec_len seats }
    ensures saw_end { end_share.new.amount ≡ how_many_saw_end seats.items }
{
    for seat in seats {
        seat.give_back(made_share, end_share);
    }
}
