//! The search from end to end.
ghost use Rattle.std.specs.Prelude.{IfOk};
ghost use Rattle.grid_moves.specs.Joining.{Joins};
ghost use Rattle.meeting_walks.specs.Answered.{JoinsIfFound, FindsTranslates};
ghost use Rattle.meeting_walks.specs.ShiftsTo.{AreShiftsTo};

use crate::crew::{Crew, Found};
use crate::plan::Plan;
use crate::shifts::shifts_to;
use crate::spelling::spelled;
use crate::watch::Watch;
use grid_core::Grid;
use grid_keys::push_shifts;
use grid_moves::Move;
use memory_core::OutOfMemory;
use std::alloc::Global;
use std::thread::Threads;
use torus_grids::shortened;

/// A list of moves that joins the first diagram to the second: each is legal where it is made, and the last one leads to the second
/// diagram. Or None where the search ends without one; or the only error, that memory ran out.
///
/// Translates are joined by their shifts, within any bounds. For other diagrams the list is sought at random, and need not be the shortest.
/// None says only that the diagrams aren't translates of each other. It comes if the walks end without meeting, and
/// would also come if a path that they found couldn't be written as moves, which has happened in no test.
///
/// The workers of a plan search, in as many threads as can be started. The list is that of the worker that makes the fewest steps until its
/// walks meet, the first of those with as few: so it doesn't depend on the order in which the threads run. If memory runs out in one worker,
/// this is the error, whatever the others have found. The watch sees the progress of the first worker.
pub fn find_joining_by<R: Threads + Sync, W: Watch>(
    rt: &R,
    alloc: Global,
    first: &Grid,
    second: &Grid,
    plan: Plan,
    watch: &mut W,
) -> Result<Option<Vec<Move>>, OutOfMemory>
    ensures joins { IfOk result (λ found. JoinsIfFound first.now second.now found) }
    ensures translates { IfOk result (λ found. FindsTranslates first.now second.now found) }
{
    match shifts_to(first, second) {
        Some(shifts) => {
            let moves = joined_by_shifts(alloc, first, second, shifts.0, shifts.1)?;
            Ok(Some(moves))
        }
        None => sought_by(rt, alloc, first, second, plan, watch),
    }
}

/// The shifts that lead from the first diagram to the second, as moves.
fn joined_by_shifts(
    alloc: Global,
    first: &Grid,
    second: &Grid,
    columns: u8,
    rows: u8,
) -> Result<Vec<Move>, OutOfMemory>
    requires shifts { AreShiftsTo first.now second.now columns rows }
    ensures { IfOk result (λ moves. Joins first.now moves.items second.now) }
{
    let _size = first.size();
    let mut moves = Vec::new(alloc);
    push_shifts(&mut moves, columns, rows)?;
    Ok(moves)
}

/// A list of moves that some workers find.
fn sought_by<R: Threads + Sync, W: Watch>(
    rt: &R,
    alloc: Global,
    first: &Grid,
    second: &Grid,
    plan: Plan,
    watch: &mut W,
) -> Result<Option<Vec<Move>>, OutOfMemory>
    ensures { IfOk result (λ found. JoinsIfFound first.now second.now found) }
{
    let mut crew = Crew::new(alloc, first, second, plan)?;
    crew.work_by(rt, alloc, watch);
    let found = crew.found(alloc)?;
    joining(alloc, first, second, found)
}

/// The moves along a path that was found, made shorter.
fn joining(
    alloc: Global,
    first: &Grid,
    second: &Grid,
    found: Option<Found>,
) -> Result<Option<Vec<Move>>, OutOfMemory>
    ensures { IfOk result (λ found. JoinsIfFound first.now second.now found) }
{
    let Some(Found { path, seed }) = found else {
        return Ok(None);
    };
    let path = shortened(alloc, path, seed)?;
    spelled(alloc, first, second, path.as_slice())
}
