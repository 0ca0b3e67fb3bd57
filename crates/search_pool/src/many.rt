//! Many workers on one book.
ghost use Rattle.std.specs.Prelude.{◌≡◌, ◌≢◌, ◌≤◌, ◌<◌, IfOk, None, Some, All, true};
ghost use Rattle.search_book.specs.Bounded.{IsBounded};
ghost use Rattle.search_book.specs.Ended.{Shows};
ghost use Rattle.search_book.specs.Sound.{IsProblem};
ghost use Rattle.search_book.specs.Events.{settlements};
ghost use Rattle.search_pool.specs.Blanks.{IsBlankFor};
ghost use Rattle.search_pool.specs.Finding.{IsFinding};
ghost use Rattle.search_pool.specs.Seats.{SeatState};

use crate::finding::Finding;
use crate::gate::Gate;
use crate::seat::Seat;
use crate::shared::SharedBook;
use crate::shared_problem::OfProblem;
use memory_core::OutOfMemory;
use search_book::{Book, End, Problem};
use std::alloc::Global;
use std::marker::Brand;
use std::sync::Wait;
use std::sync::ledger::{Blank, Ledger};
use std::thread;
use std::thread::{Builder, Threads};

/// The greatest number of workers.
pub const MAX_WORKERS: u32 = 64;

/// How many bytes the stack of a worker's thread has: several times what the deepest call takes, most of which is for a list of offers.
const STACK: usize = 4_194_304;

/// Searches with 1 to `MAX_WORKERS` workers at one book, until each of them has seen its end. Each has a thread of
/// its own; those for which none can be started work in the calling thread, one after the other, once the threads have
/// ended. The problem must be as for `alone`. The only error is that there is no memory for the book or the seats.
pub fn pool<R: Threads + Wait + Sync, G: Gate + Sync>(
    rt: &R,
    alloc: Global,
    problem: Problem,
    workers: u32,
    gate: &G,
) -> Result<Finding, OutOfMemory>
    requires bounded { IsBounded problem }
    requires some { 1 ≤ workers }
    requires workers { workers ≤ MAX_WORKERS }
    ensures finding { IfOk result (λ f. IsFinding problem f) }
    ensures shows { IfOk result (λ f. (end : End) → f.book.end ≡ Some end → Shows f.book end) }
{
    let blanks = Blanks::of(workers);
    let (book, settled) = run_workers::<Brand, Brand, Brand, R, G>(
        rt, alloc, problem, gate, blanks,
    )?;
    Ok(Finding::counted(book, settled))
}

/// Blanks for so many workers: that of the ledger of settlements, and that of the ledger of ends.
#[derive(Drop)]
struct Blanks {
    workers: u32,
    made: Blank,
    ends: Blank,
}

impl Blanks {
    /// New blanks for so many workers, with a part for each.
    fn of(workers: u32) -> Blanks
        ensures workers { result.workers ≡ workers }
        ensures made { result.made.parts ≡ workers }
        ensures ends { result.ends.parts ≡ workers }
    {
        let parts = u64::from(workers);
        Blanks {
            workers,
            made: Blank::new(parts),
            ends: Blank::new(parts),
        }
    }
}

/// Begins the book, lets the workers work at it, and closes it: what comes back is of the problem and over, with the number of
/// settlements that the seats of the workers add up to.
fn run_workers<
    L: Ledger + Send + Sync,
    M: Ledger + Send + Sync,
    K: OfProblem + Send + Sync,
    R: Threads + Wait + Sync,
    G: Gate + Sync,
>(
    rt: &R,
    alloc: Global,
    problem: Problem,
    gate: &G,
    blanks: Blanks,
) -> Result<(Book, u64), OutOfMemory>
    requires bounded { IsBounded problem }
    requires of_problem { problem ≡ K.problem }
    requires some { 1 ≤ blanks.workers }
    requires workers { blanks.workers ≤ MAX_WORKERS }
    requires made_blank { IsBlankFor L.Ledger blanks.made blanks.workers }
    requires end_blank { IsBlankFor M.Ledger blanks.ends blanks.workers }
    ensures problem { IfOk result (λ closed. closed.0.problem ≡ problem) }
    ensures over { IfOk result (λ closed. closed.0.end ≢ None) }
    ensures settled { IfOk result (λ closed. closed.1 ≡ settlements closed.0.history) }
{
    let book = Book::begin(alloc, problem)?;
    let (shared, mut seats): (SharedBook<L, M, K>, Vec<Seat<L, M>>) = SharedBook::new(
        alloc,
        book,
        blanks.workers,
        blanks.made,
        blanks.ends,
    )?;
    work_all(rt, &shared, seats.as_mut_slice(), gate);
    Ok(shared.close(seats))
}

/// Each seat's worker works until it has seen the end.
fn work_all<
    L: Ledger + Send + Sync,
    M: Ledger + Send + Sync,
    K: OfProblem + Send + Sync,
    R: Threads + Wait + Sync,
    G: Gate + Sync,
>(rt: &R, shared: &SharedBook<L, M, K>, seats: &mut [Seat<L, M>], gate: &G)
    ensures { All (λ s. s.saw_end ≡ true) seats.new }
{
    work_in_threads(rt, shared, seats, gate);
    for seat in seats.iter_mut() {
        see_end(rt, shared, seat, gate);
    }
}

/// Each seat's worker works in a thread of its own, if one can be started; the calling thread waits for them. It is not proved what a
/// thread makes of a seat.
fn work_in_threads<
    L: Ledger + Send + Sync,
    M: Ledger + Send + Sync,
    K: OfProblem + Send + Sync,
    R: Threads + Wait + Sync,
    G: Gate + Sync,
>(rt: &R, shared: &SharedBook<L, M, K>, seats: &mut [Seat<L, M>], gate: &G) {
    thread::scope(thread::scope_env(), rt, |scope| {
        for seat in seats.iter_mut() {
            let _thread = Builder::new()
                .stack_size(STACK)
                .spawn_scoped(scope, move || shared.work(rt, seat, gate));
        }
    })
}

/// The seat's worker works until it has seen the end, unless it has.
fn see_end<L: Ledger, M: Ledger, K: OfProblem, R: Wait, G: Gate>(
    rt: &R,
    shared: &SharedBook<L, M, K>,
    seat: &mut Seat<L, M>,
    gate: &G,
)
    ensures { seat.new.saw_end ≡ true }
{
    if !seat.saw_end() {
        shared.work(rt, seat, gate);
    }
}
