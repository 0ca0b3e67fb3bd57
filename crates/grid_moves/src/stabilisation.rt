//! Stabilisation: one row and, for the marks of each kind, one column are put in.
ghost use Rattle.std.specs.Prelude.{◌≡◌, ◌<◌, ◌≤◌, ◌+◌, ◌++◌, OnOk, OnErr, map, length};
ghost use Rattle.std.specs.List.{All, insert};
ghost use Rattle.std.specs.Result.{result_err};
ghost use Rattle.grid_core.specs.declared.grid.TheConstants.{MAX_SIZE};
ghost use Rattle.grid_core.specs.Diagram.{size, rows_of};
ghost use Rattle.grid_core.specs.Places.{lifted};
ghost use Rattle.grid_moves.specs.DoubleRows.{column_in_new_row};
ghost use Rattle.grid_moves.specs.Step.{Step};
ghost use Rattle.grid_moves.specs.Widening.{widened};
ghost use Rattle.grid_moves.specs.MoveFault.{first_move_fault};

use crate::step::{Move, MoveFault};
use arrayvec::ArrayVec;
use grid_core::{Corner, Grid, Kind, MAX_SIZE, Rows};

/// Puts a block of three marks in the place of the mark of a kind in a column.
pub(crate) fn stabilise(
    grid: &mut Grid,
    column: u8,
    kind: Kind,
    corner: Corner,
) -> Result<(), MoveFault>
    ensures fault { result_err result ≡ first_move_fault grid.old (Move.Stabilise column kind corner) }
    ensures moved { OnOk result (Step grid.old (Move.Stabilise column kind corner) grid.new) }
    ensures kept { OnErr result (grid.new ≡ grid.old) }
{
    let size = grid.size();
    if column >= size {
        return Err(MoveFault::Range);
    }
    if size as usize >= MAX_SIZE {
        return Err(MoveFault::Full);
    }
    let widening = widening_of(grid, column, kind, corner);
    let crosses = widened(grid, Kind::Cross, widening.crosses, widening.row);
    let rings = widened(grid, Kind::Ring, widening.rings, widening.row);
    grid.set_rows(crosses, rings);
    Ok(())
}

/// What a stabilisation puts into a grid of size n: one row, and for the marks of each kind one column, whose mark is in that row.
#[derive(Clone, Copy, PartialEq, Eq)]
pub struct Widening {
    /// The new row, from 0 to n.
    pub row: u8,
    /// The new column of the Xs, from 0 to n.
    pub crosses: u8,
    /// The new column of the Os, from 0 to n.
    pub rings: u8,
}

/// What a stabilisation, which must be legal, puts in: `apply` checks that.
pub fn widening_of(grid: &Grid, column: u8, kind: Kind, corner: Corner) -> Widening
    requires column { column < size grid.now }
    requires room { size grid.now < MAX_SIZE }
    ensures step { Step grid.now (Move.Stabilise column kind corner) (widened result grid.now) }
    ensures row { result.row ≤ size grid.now }
    ensures crosses { result.crosses ≤ size grid.now }
    ensures rings { result.rings ≤ size grid.now }
{
    let _size = grid.size();
    Widening {
        row: grid.row_of(kind, column) + corner.row(),
        crosses: column_in_new_row(column, kind, corner, Kind::Cross),
        rings: column_in_new_row(column, kind, corner, Kind::Ring),
    }
}

/// The column of the mark of a kind in the new row.
fn column_in_new_row(column: u8, kind: Kind, corner: Corner, of: Kind) -> u8
    requires { column < 255 }
    ensures place { result ≡ column_in_new_row column kind corner of }
    ensures near { result ≤ column + 1 }
{
    if kind == of {
        column + 1 - corner.column()
    } else {
        column + corner.column()
    }
}

/// The rows of a kind, with a new column at a place, whose mark is in the new row.
fn widened(grid: &Grid, kind: Kind, place: u8, row: u8) -> Rows
    requires room { size grid.now < MAX_SIZE }
    requires inside { place ≤ size grid.now }
    ensures { result.items ≡ insert (map (lifted row) (rows_of kind grid.now)) place row }
{
    let _size = grid.size();
    let (left, right) = grid.rows(kind).split_at(place as usize);
    let mut rows = ArrayVec::new();
    push_lifted(&mut rows, left, row);
    rows.push(row);
    push_lifted(&mut rows, right, row);
    rows
}

/// Appends some rows, those at or above a place one higher.
fn push_lifted(rows: &mut Rows, more: &[u8], row: u8)
    requires room { length rows.old.items + length more.now ≤ MAX_SIZE }
    requires inside { All (λ r. r < MAX_SIZE) more.now }
    ensures { rows.new.items ≡ rows.old.items ++ map (lifted row) more.now }
{
    for r in more {
        rows.push(if *r < row { *r } else { *r + 1 });
    }
}
