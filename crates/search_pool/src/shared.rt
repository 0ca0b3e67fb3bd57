//! A book that many workers share.
ghost use Rattle.std.specs.Prelude.{◌≡◌, ◌≢◌, ◌<◌, ◌≤◌, ◌+◌, [], None, vec_len, IfOk, IfSome, IfNone, true, false};
ghost use Rattle.search_pool.specs.declared.many.TheConstants.{MAX_WORKERS};
ghost use Rattle.search_book.specs.Events.{settlements};
ghost use Rattle.search_pool.specs.Blanks.{IsBlankFor};
ghost use Rattle.search_pool.specs.Seats.{SeatState, fresh_seats, all_made, how_many_saw_end};
ghost use Rattle.search_pool.specs.Task.{AllowsOffers};

use crate::gate::Gate;
use crate::hand::{Hand, TaskPlace};
use crate::hints::Hints;
use crate::holding::{BookLock, TurnLock};
use crate::locked::{Locked, Task, TaskAnswer, Waking, allows_plenty};
use crate::many::MAX_WORKERS;
use crate::seat::Seat;
use crate::shared_problem::OfProblem;
use crate::task_offers::TaskOffers;
use memory_core::OutOfMemory;
use search_book::Book;
use std::alloc::Global;
use std::sync::ledger::{Blank, Ledger, Share};
use std::sync::{Condvar, Wait};

/// A book under a lock, for workers in threads of their own. It is of the problem that the type K stands for. Whenever the lock is free
/// the book is sound and replays its own history. Each holding of the lock makes at most one event, as is proved: its call, a claim or a
/// settlement, uses it up, and what lies under the lock is reached by a holding alone. Offers are found without the lock, and so are hints
/// of where their keys are, under a lock of their own. Two ledgers tie the book to its seats: one counts settlements, and the other the
/// workers that saw the end.
#[derive(Drop)]
pub struct SharedBook<L: Ledger, M: Ledger, K: OfProblem> {
    lock: BookLock<L, M, K>,
    turn: TurnLock,
    changed: Condvar,
    hints: Hints,
}

impl<L: Ledger, M: Ledger, K: OfProblem> SharedBook<L, M, K> {
    /// A book to share, whose history is still empty, with one seat for each of 1 to `MAX_WORKERS` workers, by their
    /// numbers from 0. The two blanks are of the ledger of settlements and of that of ends, which have as many parts as
    /// there are workers. Memory is taken for the seats and for one list of offers a worker; that it ran out is the only error, and the book
    /// is dropped. Where the budget allows plenty of entries more lists and hints are taken; refused memory for these costs time alone.
    pub fn new(
        alloc: Global,
        book: Book,
        workers: u32,
        made_blank: Blank,
        end_blank: Blank,
    ) -> Result<(SharedBook<L, M, K>, Vec<Seat<L, M>>), OutOfMemory>
        requires fresh { book.history ≡ [] }
        requires of_problem { book.problem ≡ K.problem }
        requires some { 1 ≤ workers }
        requires most { workers ≤ MAX_WORKERS }
        requires made_blank { IsBlankFor L.Ledger made_blank workers }
        requires end_blank { IsBlankFor M.Ledger end_blank workers }
        ensures seats { IfOk result (λ shared. shared.1.items ≡ fresh_seats workers) }
    {
        let (made_ledger, mut made_share) = made_blank.open::<L>();
        let (end_ledger, mut end_share) = end_blank.open::<M>();
        let mut seats = first_seats(alloc, workers, &mut made_share, &mut end_share)?;
        reserve_others(alloc, book.problem().budget, seats.as_mut_slice());
        let hints = Hints::new(alloc, book.problem());
        let locked = Locked::new(book, made_ledger, end_ledger, made_share, end_share);
        Ok((SharedBook::of(locked, hints), seats))
    }

    /// A book to share, with hints, whose locks are free.
    fn of(locked: Locked<L, M, K>, hints: Hints) -> SharedBook<L, M, K> {
        SharedBook {
            lock: BookLock::new(locked),
            turn: TurnLock::new(),
            changed: Condvar::new(),
            hints,
        }
    }

    /// Works at the book until its end is seen: settles what it has in hand, claims the next entry, and further ones where there is plenty of
    /// them, passes the gate and finds the offers for each, again and again. Where each entry is claimed and the book is not over it waits
    /// for others. Each settlement that it makes is counted in its seat. What is proved holds if it returns. That it takes no memory is not
    /// proved; as the code is written it doesn't: of all that it calls only the index of the book has an allocator, with room for
    /// the whole budget, and the seat has room for the offers.
    pub fn work<R: Wait, G: Gate>(&self, rt: &R, seat: &mut Seat<L, M>, gate: &G)
        ensures worker { seat.new.worker ≡ seat.old.worker }
        ensures made { seat.old.made ≤ seat.new.made }
        ensures saw_end { seat.new.saw_end ≡ true }
    {
        let mut hand = Hand::empty();
        seat.swap_hand(&mut hand);
        for _ in rt.forever() {
            if !self.next_hand(rt, seat, &mut hand) {
                seat.swap_hand(&mut hand);
                return;
            }
            self.find_offers(rt, seat.worker(), &mut hand, gate);
        }
        unreachable!()
    }

    /// Passes the gate for each task in hand and finds its offers; where there is plenty, with hints.
    fn find_offers<R: Wait, G: Gate>(&self, rt: &R, worker: u32, hand: &mut Hand, gate: &G)
        ensures { hand.new ≡ hand.old }
    {
        if hand.has_plenty() {
            self.hints.note(rt, hand);
            hand.find_offers(worker, gate);
            self.hints.look(rt, hand);
        } else {
            hand.find_offers(worker, gate);
        }
    }

    /// Settles what is in hand and claims the next task, for which it may wait; where there was plenty it takes a turn for that, and only
    /// waits after it. False where the worker saw the end.
    fn next_hand<R: Wait>(&self, rt: &R, seat: &mut Seat<L, M>, hand: &mut Hand) -> bool
        ensures over { result ≡ false → seat.new.saw_end ≡ true }
        ensures worker { seat.new.worker ≡ seat.old.worker }
        ensures made { seat.old.made ≤ seat.new.made }
    {
        if hand.has_plenty() {
            if self.take_turn(rt, seat, hand) {
                return true;
            }
        } else {
            let waking = self.settle_all(rt, seat, hand);
            self.wake(waking);
        }
        self.claim_first(rt, seat, hand)
    }

    /// Settles what is in hand and claims the next tasks, in one turn, and wakes others after it; false where there was no task.
    fn take_turn<R: Wait>(&self, rt: &R, seat: &mut Seat<L, M>, hand: &mut Hand) -> bool
        ensures worker { seat.new.worker ≡ seat.old.worker }
        ensures made { seat.old.made ≤ seat.new.made }
    {
        let turn = self.turn.hold(rt);
        let waking = self.settle_all(rt, seat, hand);
        let has_claimed = self.claim_all(rt, seat, hand);
        drop(turn);
        self.wake(waking);
        has_claimed
    }

    /// Claims the next task, and further ones where there is plenty and room, each in a holding of its own; false where there was none.
    fn claim_all<R: Wait>(&self, rt: &R, seat: &mut Seat<L, M>, hand: &mut Hand) -> bool
        ensures worker { seat.new.worker ≡ seat.old.worker }
        ensures made { seat.new.made ≡ seat.old.made }
    {
        let Some(task) = self.try_claim(rt, seat) else {
            return false;
        };
        let plenty = task.plenty;
        hand.first.put(task);
        if plenty {
            self.claim_others(rt, seat, hand.others.as_mut_slice());
        }
        true
    }

    /// Claims a task for each further place, each in a holding of its own, as long as there is plenty of them, and room.
    fn claim_others<R: Wait>(&self, rt: &R, seat: &mut Seat<L, M>, others: &mut [TaskPlace])
        ensures worker { seat.new.worker ≡ seat.old.worker }
        ensures made { seat.new.made ≡ seat.old.made }
    {
        for place in others.iter_mut() {
            if !self.claim_at(rt, seat, place) {
                break;
            }
        }
    }

    /// Claims a task for a place with room, and answers whether there was plenty of them; false where there was no room or no task.
    fn claim_at<R: Wait>(&self, rt: &R, seat: &mut Seat<L, M>, place: &mut TaskPlace) -> bool
        ensures worker { seat.new.worker ≡ seat.old.worker }
        ensures made { seat.new.made ≡ seat.old.made }
    {
        if !place.has_room() {
            return false;
        }
        let Some(task) = self.try_claim(rt, seat) else {
            return false;
        };
        let plenty = task.plenty;
        place.put(task);
        plenty
    }

    /// Claims a task for the first place, for which it may wait; false where the worker saw the end.
    fn claim_first<R: Wait>(&self, rt: &R, seat: &mut Seat<L, M>, hand: &mut Hand) -> bool
        ensures over { result ≡ false → seat.new.saw_end ≡ true }
        ensures worker { seat.new.worker ≡ seat.old.worker }
        ensures made { seat.new.made ≡ seat.old.made }
    {
        match self.claim_or_wait(rt, seat) {
            Some(task) => {
                hand.first.put(task);
                true
            }
            None => false,
        }
    }

    /// Settles each task in hand, in a holding of its own, and answers whom that wakes.
    fn settle_all<R: Wait>(&self, rt: &R, seat: &mut Seat<L, M>, hand: &mut Hand) -> Waking
        ensures worker { seat.new.worker ≡ seat.old.worker }
        ensures made { seat.old.made ≤ seat.new.made }
    {
        let mut waking = hand.first.settle(rt, self, seat);
        for place in hand.others.iter_mut() {
            waking = waking.and(place.settle(rt, self, seat));
        }
        waking
    }

    /// Claims a task, without waiting for it. None where each entry is claimed, and where the worker saw the end.
    fn try_claim<R: Wait>(&self, rt: &R, seat: &mut Seat<L, M>) -> Option<Task>
        ensures some { IfSome result (λ task. AllowsOffers task) }
        ensures worker { seat.new.worker ≡ seat.old.worker }
        ensures made { seat.new.made ≡ seat.old.made }
    {
        let (answer, called) = self.lock.hold(rt).claim(seat);
        match answer {
            TaskAnswer::Work(task) => Some(task),
            TaskAnswer::Over => None,
            TaskAnswer::Later => {
                called.go_on();
                None
            }
        }
    }

    /// Claims a task; None where the worker saw the end. Where there is none yet it goes to wait out of the holding in
    /// which it asked, so that no waking is lost, and asks again in the one in which it wakes.
    fn claim_or_wait<R: Wait>(&self, rt: &R, seat: &mut Seat<L, M>) -> Option<Task>
        ensures some { IfSome result (λ task. AllowsOffers task) }
        ensures none { IfNone result (seat.new.saw_end ≡ true) }
        ensures worker { seat.new.worker ≡ seat.old.worker }
        ensures made { seat.new.made ≡ seat.old.made }
    {
        let mut holding = self.lock.hold(rt);
        for _ in rt.forever() {
            let (answer, called) = holding.claim(seat);
            match answer {
                TaskAnswer::Work(task) => return Some(task),
                TaskAnswer::Over => return None,
                TaskAnswer::Later => holding = called.wait(rt, &self.changed),
            }
        }
        unreachable!()
    }

    /// Settles the entry of a task, by its id, with the offers that were found, and answers whom that wakes.
    pub(crate) fn settle<R: Wait>(
        &self,
        rt: &R,
        seat: &mut Seat<L, M>,
        id: u32,
        found: &mut TaskOffers,
    ) -> Waking
        ensures worker { seat.new.worker ≡ seat.old.worker }
        ensures made { seat.old.made ≤ seat.new.made }
    {
        let (waking, called) = self.lock.hold(rt).settle(seat, id, found);
        drop(called);
        waking
    }

    /// Wakes workers that wait for a task.
    fn wake(&self, waking: Waking) {
        match waking {
            Waking::All => self.changed.notify_all(),
            Waking::Count(count) => {
                for _ in 0..count.min(MAX_WORKERS) {
                    self.changed.notify_one();
                }
            }
        }
    }

    /// Takes the book back, with all its seats: as many as its ledgers have parts, of which each seat holds one. The
    /// number is what their workers made, and the book has as many settlements. Where one of them saw the end the book
    /// is over. It is of the problem of the book that was shared.
    pub fn close(self, seats: Vec<Seat<L, M>>) -> (Book, u64)
        requires all_made_shares { vec_len seats ≡ L.parts }
        requires all_end_shares { vec_len seats ≡ M.parts }
        ensures made { result.1 ≡ all_made seats.items }
        ensures settled { result.1 ≡ settlements result.0.history }
        ensures over { 0 < how_many_saw_end seats.items → result.0.end ≢ None }
        ensures problem { result.0.problem ≡ K.problem }
    {
        let SharedBook { lock, .. } = self;
        lock.into_inner().close(seats)
    }
}

/// One seat for each of `workers` workers, by their numbers from 0, with one part of each ledger and room for one list of offers. It fails only
/// if memory runs out.
fn first_seats<L: Ledger, M: Ledger>(
    alloc: Global,
    workers: u32,
    made_share: &mut Share<L>,
    end_share: &mut Share<M>,
) -> Result<Vec<Seat<L, M>>, OutOfMemory>
    requires made_share { (made_share.old.parts ≡ workers) × (made_share.old.amount ≡ 0) }
    requires end_share { (end_share.old.parts ≡ workers) × (end_share.old.amount ≡ 0) }
    ensures seats { IfOk result (λ seats. seats.items ≡ fresh_seats workers) }
    ensures made_share { IfOk result (λ seats. (made_share.new.parts ≡ 0) × (made_share.new.amount ≡ 0)) }
    ensures end_share { IfOk result (λ seats. (end_share.new.parts ≡ 0) × (end_share.new.amount ≡ 0)) }
{
    let mut seats = Vec::with_capacity(alloc, workers as usize)?;
    for worker in 0..workers {
        let hand = Hand::with_first(alloc)?;
        let made = made_share.split_off(1, 0);
        let ends = end_share.split_off(1, 0);
        seats.push_reserved(Seat::fresh(worker, made, ends, hand));
    }
    Ok(seats)
}

/// Takes room for the further tasks of each worker, where with this budget there can be plenty and as far as memory can be had.
fn reserve_others<L: Ledger, M: Ledger>(alloc: Global, budget: u32, seats: &mut [Seat<L, M>])
    ensures { seats.new ≡ seats.old }
{
    if allows_plenty(budget) {
        for seat in seats.iter_mut() {
            seat.reserve_others(alloc);
        }
    }
}
