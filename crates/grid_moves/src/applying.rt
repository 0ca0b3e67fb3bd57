//! Moves applied one by one, and undone.
ghost use Rattle.std.specs.Prelude.{◌≡◌, ◌<◌, IfOk, IfErr, OnOk, OnErr, Ok, None};
ghost use Rattle.std.specs.Result.{result_err};
ghost use Rattle.grid_core.specs.Diagram.{Diagram};
ghost use Rattle.grid_moves.specs.Inverse.{inverse_of};
ghost use Rattle.grid_moves.specs.Step.{Step};
ghost use Rattle.grid_moves.specs.Joining.{Joins, StopsAt};
ghost use Rattle.grid_moves.specs.MoveFault.{first_move_fault};

use crate::destabilisation::{block_corner, block_kind, destabilise};
use crate::exchange::{exchange_columns, exchange_rows};
use crate::shift::{shift_columns, shift_rows};
use crate::slide::{slide_columns, slide_rows};
use crate::stabilisation::stabilise;
use crate::step::{Move, MoveFault};
use grid_core::Grid;

/// The grid after one move, or the first reason why the move is not legal, in the order of `MoveFault`.
/// Takes no memory, and time in proportion to the size.
pub fn apply(grid: &Grid, step: Move) -> Result<Grid, MoveFault>
    ensures fault { result_err result ≡ first_move_fault grid.now step }
    ensures moved { IfOk result (λ e. Step grid.now step e) }
    ensures complete { (e : Diagram) → Step grid.now step e → result ≡ Ok e }
{
    let mut next = grid.copy();
    apply_in_place(&mut next, step)?;
    Ok(next)
}

/// Makes the grid the one after a move, or answers the first reason why the move is not legal, as `apply` does, and leaves the grid as it
/// is. Takes no memory, and time in proportion to the size.
pub fn apply_in_place(grid: &mut Grid, step: Move) -> Result<(), MoveFault>
    ensures fault { result_err result ≡ first_move_fault grid.old step }
    ensures moved { OnOk result (Step grid.old step grid.new) }
    ensures complete { (e : Diagram) → Step grid.old step e → grid.new ≡ e }
    ensures kept { OnErr result (grid.new ≡ grid.old) }
{
    match step {
        Move::ShiftColumns(k) => shift_columns(grid, k),
        Move::ShiftRows(k) => shift_rows(grid, k),
        Move::ExchangeColumns(c) => exchange_columns(grid, c),
        Move::ExchangeRows(r) => exchange_rows(grid, r),
        Move::SlideColumns(c) => slide_columns(grid, c),
        Move::SlideRows(r) => slide_rows(grid, r),
        Move::Stabilise {
            column,
            kind,
            corner,
        } => stabilise(grid, column, kind, corner),
        Move::Destabilise { column, row } => destabilise(grid, column, row),
    }
}

/// The move that leads from the result of a legal move back to the grid.
pub fn inverse(grid: &Grid, step: Move) -> Move
    requires { first_move_fault grid.now step ≡ None }
    ensures back { (e : Diagram) → Step grid.now step e → Step e result grid.now }
    ensures is { result ≡ inverse_of grid.now step }
{
    let size = grid.size();
    match step {
        Move::ShiftColumns(k) => Move::ShiftColumns(size - k),
        Move::ShiftRows(k) => Move::ShiftRows(size - k),
        Move::ExchangeColumns(c) => Move::ExchangeColumns(c),
        Move::ExchangeRows(r) => Move::ExchangeRows(r),
        Move::SlideColumns(c) => Move::SlideColumns(c),
        Move::SlideRows(r) => Move::SlideRows(r),
        Move::Stabilise {
            column,
            kind,
            corner,
        } => Move::Destabilise {
            column,
            row: grid.row_of(kind, column),
        },
        Move::Destabilise { column, row } => Move::Stabilise {
            column,
            kind: block_kind(grid, column, row),
            corner: block_corner(grid, column, row),
        },
    }
}

/// The grid after all moves, one by one, or the place of the first illegal one, counted from 0, and its fault there.
/// An empty list leads from a grid to itself. Takes no memory.
pub fn apply_all(grid: &Grid, steps: &[Move]) -> Result<Grid, (usize, MoveFault)>
    ensures joined { IfOk result (λ e. Joins grid.now steps.now e) }
    ensures stopped { IfErr result (λ f. StopsAt grid.now steps.now f.0 f.1) }
    ensures complete { (e : Diagram) → Joins grid.now steps.now e → result ≡ Ok e }
{
    let mut here = grid.copy();
    for (place, step) in steps.iter().enumerate() {
        if let Err(fault) = apply_in_place(&mut here, *step) {
            return Err((place, fault));
        }
    }
    Ok(here)
}
