//! Holdings of the lock of a shared book. Each makes at most one call of the book.
ghost use Rattle.std.specs.Prelude.{◌≡◌, ◌≤◌, true};
ghost use Rattle.std.specs.Sync.Mutex.{mutex_guard_value};
ghost use Rattle.search_pool.specs.Holding.{IsHolding};
ghost use Rattle.search_pool.specs.Seats.{SeatState};
ghost use Rattle.search_pool.specs.Task.{AllowsOffers, IsTaskAnswer, Counts};

use crate::locked::{Locked, Task, TaskAnswer, Waking};
use crate::seat::Seat;
use crate::shared_problem::OfProblem;
use crate::task_offers::TaskOffers;
use std::hint::spin_loop;
use std::sync::ledger::Ledger;
use std::sync::{Condvar, Mutex, MutexGuard, Wait};

/// How often a worker tries for the lock before it sleeps until the lock is free.
const TRIES: u32 = 200;

/// The most pauses between two tries.
const MOST_PAUSES: u32 = 16;

/// The lock of a shared book. What lies under it is reached by a holding alone.
#[derive(Drop)]
pub struct BookLock<L: Ledger, M: Ledger, K: OfProblem> {
    lock: Mutex<Locked<L, M, K>>,
}

/// The lock, held, before the call of the holding, which uses the holding up.
#[derive(Drop)]
pub struct Holding<'a, L: Ledger, M: Ledger, K: OfProblem> {
    guard: MutexGuard<'a, Locked<L, M, K>>,
}

/// The lock, still held, after the call of its holding.
#[derive(Drop)]
pub struct Called<'a, L: Ledger, M: Ledger, K: OfProblem> {
    guard: MutexGuard<'a, Locked<L, M, K>>,
}

/// Room for eight words, as many as a line of memory has.
type CacheLine = [u64; 8];

/// A lock with nothing under it. Who has it makes all holdings of a hand, and meets others at the lock of the book only where they had no plenty
/// of entries or wait for a task: so the book, and its lock, mostly stay in one processor's cache. The lines beside this lock keep it apart from
/// them, since those who wait for it write to its line.
#[derive(Drop)]
pub struct TurnLock {
    ahead: CacheLine,
    lock: Mutex<Turn>,
    behind: CacheLine,
}

/// What lies under the lock of turns: nothing.
#[derive(Drop)]
pub struct Turn;

impl TurnLock {
    /// A free lock.
    pub fn new() -> TurnLock {
        TurnLock {
            ahead: [0; 8],
            lock: Mutex::new(Turn),
            behind: [0; 8],
        }
    }

    /// Takes the lock.
    pub fn hold<R: Wait>(&self, rt: &R) -> MutexGuard<'_, Turn> {
        taken(&self.lock, rt)
    }
}

/// Takes a lock. That of the book is held for a microsecond and the other two for up to some tens, and to be woken takes longer, so a worker
/// that finds one taken tries again for a while: after one pause, and then after twice as many each time, up to the most.
pub fn taken<'a, T, R: Wait>(lock: &'a Mutex<T>, rt: &R) -> MutexGuard<'a, T> {
    let mut pauses = 1u32;
    for _ in 0..TRIES {
        if let Some(guard) = lock.try_lock() {
            return guard;
        }
        pause(pauses);
        pauses = pauses.saturating_add(pauses).min(MOST_PAUSES);
    }
    lock.lock(rt)
}

/// Pauses so many times.
fn pause(times: u32) {
    for _ in 0..times {
        spin_loop();
    }
}

impl<L: Ledger, M: Ledger, K: OfProblem> BookLock<L, M, K> {
    /// A free lock.
    pub fn new(locked: Locked<L, M, K>) -> BookLock<L, M, K> {
        BookLock {
            lock: Mutex::new(locked),
        }
    }

    /// Takes the lock.
    pub fn hold<R: Wait>(&self, rt: &R) -> Holding<'_, L, M, K> {
        Holding {
            guard: taken(&self.lock, rt),
        }
    }

    /// What lies under the lock, which nobody holds.
    pub fn into_inner(self) -> Locked<L, M, K> {
        let BookLock { lock } = self;
        lock.into_inner()
    }
}

impl<'a, L: Ledger, M: Ledger, K: OfProblem> Holding<'a, L, M, K> {
    /// One claim of the book, as `Locked::claim` has it.
    pub fn claim(self, seat: &mut Seat<L, M>) -> (TaskAnswer, Called<'a, L, M, K>)
        ensures book { IsHolding seat.old.worker (mutex_guard_value self.entry.guard).book (mutex_guard_value result.1.guard).book }
        ensures answer { IsTaskAnswer (mutex_guard_value self.entry.guard).book seat.old.worker result.0
            (mutex_guard_value result.1.guard).book }
        ensures work { (task : Task) → result.0 ≡ TaskAnswer.Work task → AllowsOffers task }
        ensures over { result.0 ≡ TaskAnswer.Over → seat.new.saw_end ≡ true }
        ensures worker { seat.new.worker ≡ seat.old.worker }
        ensures made { seat.new.made ≡ seat.old.made }
    {
        let Holding { mut guard } = self;
        let answer = guard.claim(seat);
        (answer, Called { guard })
    }

    /// One settlement of the book, as `Locked::settle` has it.
    pub fn settle(
        self,
        seat: &mut Seat<L, M>,
        id: u32,
        found: &mut TaskOffers,
    ) -> (Waking, Called<'a, L, M, K>)
        ensures book { IsHolding seat.old.worker (mutex_guard_value self.entry.guard).book (mutex_guard_value result.1.guard).book }
        ensures counts { Counts (mutex_guard_value self.entry.guard).book seat.old.worker id found.old.offers
            (mutex_guard_value result.1.guard).book seat.old.made seat.new.made }
        ensures worker { seat.new.worker ≡ seat.old.worker }
        ensures made { seat.old.made ≤ seat.new.made }
        ensures saw_end { seat.new.saw_end ≡ seat.old.saw_end }
    {
        let Holding { mut guard } = self;
        let waking = guard.settle(seat, id, found);
        (waking, Called { guard })
    }
}

impl<'a, L: Ledger, M: Ledger, K: OfProblem> Called<'a, L, M, K> {
    /// Lets the lock go until something changes, and takes it again: another holding.
    pub fn wait<R: Wait>(self, rt: &R, changed: &Condvar) -> Holding<'a, L, M, K> {
        let Called { guard } = self;
        let mut guard = changed.wait(rt, guard);
        guard.woken();
        Holding { guard }
    }

    /// Lets the lock go where the worker would wait, but has others to settle.
    pub fn go_on(self) {
        let Called { mut guard } = self;
        guard.woken();
    }
}
