//! Slides of neighbouring columns and rows.
ghost use Rattle.std.specs.Prelude.{◌≡◌, OnOk, OnErr};
ghost use Rattle.std.specs.Result.{result_err};
ghost use Rattle.grid_moves.specs.Step.{Step};
ghost use Rattle.grid_moves.specs.MoveFault.{first_move_fault, slide_fault};

use crate::exchange::{exchanged_rows, swapped_columns};
use crate::step::{Move, MoveFault};
use grid_core::{Grid, Kind, Span};

/// Puts columns c and c + 1, which share one row, in each other's place.
pub(crate) fn slide_columns(grid: &mut Grid, c: u8) -> Result<(), MoveFault>
    ensures fault { result_err result ≡ first_move_fault grid.old (Move.SlideColumns c) }
    ensures moved { OnOk result (Step grid.old (Move.SlideColumns c) grid.new) }
    ensures kept { OnErr result (grid.new ≡ grid.old) }
{
    if c >= grid.size() - 1 {
        return Err(MoveFault::Range);
    }
    slide_fault(grid.column_span(c), grid.column_span(c + 1))?;
    let crosses = swapped_columns(grid, Kind::Cross, c);
    let rings = swapped_columns(grid, Kind::Ring, c);
    grid.set_rows(crosses, rings);
    Ok(())
}

/// Puts rows r and r + 1, which share one column, in each other's place.
pub(crate) fn slide_rows(grid: &mut Grid, r: u8) -> Result<(), MoveFault>
    ensures fault { result_err result ≡ first_move_fault grid.old (Move.SlideRows r) }
    ensures moved { OnOk result (Step grid.old (Move.SlideRows r) grid.new) }
    ensures kept { OnErr result (grid.new ≡ grid.old) }
{
    if r >= grid.size() - 1 {
        return Err(MoveFault::Range);
    }
    slide_fault(grid.row_span(r), grid.row_span(r + 1))?;
    let crosses = exchanged_rows(grid, Kind::Cross, r);
    let rings = exchanged_rows(grid, Kind::Ring, r);
    grid.set_rows(crosses, rings);
    Ok(())
}

/// The first fault of two neighbours.
fn slide_fault(near: Span, far: Span) -> Result<(), MoveFault>
    ensures { result_err result ≡ slide_fault near far }
{
    if near.touches_twice(far) {
        Err(MoveFault::Touching)
    } else if near.touches(far) {
        Ok(())
    } else {
        Err(MoveFault::Apart)
    }
}
