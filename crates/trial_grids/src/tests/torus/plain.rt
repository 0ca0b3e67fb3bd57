//! The moves on the torus by those of grids alone: one that goes round the circle is made on the translate by one.
ghost use Rattle.std.specs.Prelude.{◌<◌};
ghost use Rattle.grid_core.specs.Diagram.{size};

use grid_core::Grid;
use grid_keys::translate;
use grid_moves::{Move, apply};
use torus_grids::mark_and_corner;

/// A translate of the grid after the exchange of a column and the next one, or None where it isn't legal.
pub(super) fn columns_exchanged(grid: &Grid, column: u8) -> Option<Grid>
    requires { column < size grid.now }
{
    let last = grid.size() - 1;
    if column < last {
        apply(grid, Move::ExchangeColumns(column)).ok()
    } else {
        apply(&translate(grid, 1, 0), Move::ExchangeColumns(last - 1)).ok()
    }
}

/// A translate of the grid after the exchange of a row and the next one, or None where it isn't legal.
pub(super) fn rows_exchanged(grid: &Grid, row: u8) -> Option<Grid>
    requires { row < size grid.now }
{
    let last = grid.size() - 1;
    if row < last {
        apply(grid, Move::ExchangeRows(row)).ok()
    } else {
        apply(&translate(grid, 0, 1), Move::ExchangeRows(last - 1)).ok()
    }
}

/// The grid after the stabilisation of a column at the mark and the corner of a place among eight, or None where there is no room.
pub(super) fn stabilised(grid: &Grid, column: u8, place: u8) -> Option<Grid> {
    let (kind, corner) = mark_and_corner(place);
    let step = Move::Stabilise {
        column,
        kind,
        corner,
    };
    apply(grid, step).ok()
}

/// A translate of the grid after the destabilisation of the block of a column and the next one and a row and the next one, or None where
/// that hasn't three marks.
pub(super) fn destabilised(grid: &Grid, column: u8, row: u8) -> Option<Grid>
    requires column { column < size grid.now }
    requires row { row < size grid.now }
{
    let last = grid.size() - 1;
    let columns = u8::from(column == last);
    let rows = u8::from(row == last);
    let step = Move::Destabilise {
        column: column - columns,
        row: row - rows,
    };
    apply(&translate(grid, columns, rows), step).ok()
}
