//! Lists of moves, undone.
ghost use Rattle.std.specs.Prelude.{◌≡◌, ◌<◌, ◌++◌, List, length, reverse, IfOk, OnErr};
ghost use Rattle.grid_core.specs.Diagram.{Diagram};
ghost use Rattle.grid_moves.specs.Joining.{Joins};
ghost use Rattle.grid_moves.specs.Undoing.{Undone};
ghost use Rattle.grid_moves.specs.PutsPart.{PutsPart};

use crate::applying::{apply, inverse};
use crate::step::Move;
use grid_core::Grid;
use std::alloc::{AllocError, Global};

/// Puts at the end what undoes moves that can be made from a grid: their inverses, from the last move to the first.
/// If there is no memory for all of them, the list may have got the first few, and nothing else.
pub fn push_undone(
    alloc: Global,
    list: &mut Vec<Move>,
    grid: &Grid,
    moves: &[Move],
) -> Result<(), AllocError>
    requires { (e : Diagram) × Joins grid.now moves.now e }
    ensures list { IfOk result (λ _. (e : Diagram)
        → Joins grid.now moves.now e
        → (back : List Move)
        × (Undone grid.now moves.now e back × (list.new.items ≡ list.old.items ++ back))) }
    ensures part { OnErr result ((e : Diagram)
        → Joins grid.now moves.now e
        → (back : List Move)
        × (Undone grid.now moves.now e back × PutsPart list.old.items list.new.items back)) }
{
    let mut inverses = inverses(alloc, grid, moves)?;
    while let Some(step) = inverses.pop() {
        list.push(step)?;
    }
    Ok(())
}

/// The inverses of moves that can be made from a grid, from the first move to the last.
fn inverses(alloc: Global, grid: &Grid, moves: &[Move]) -> Result<Vec<Move>, AllocError>
    requires { (e : Diagram) × Joins grid.now moves.now e }
    ensures undone { IfOk result
        (λ list. (e : Diagram) → Joins grid.now moves.now e → Undone grid.now moves.now e (reverse list.items)) }
    ensures some { OnErr result (0 < length moves.now) }
{
    let mut list = Vec::new(alloc);
    let mut here = grid.copy();
    for step in moves {
        match apply(&here, *step) {
            Ok(next) => {
                list.push(inverse(&here, *step))?;
                here = next;
            }
            Err(_) => unreachable!(),
        }
    }
    Ok(list)
}
