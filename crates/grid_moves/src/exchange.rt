//! Exchanges of neighbouring columns and rows.
ghost use Rattle.std.specs.Prelude.{◌≡◌, ◌<◌, ◌+◌, OnOk, OnErr, map};
ghost use Rattle.std.specs.List.{swap};
ghost use Rattle.std.specs.Result.{result_err};
ghost use Rattle.grid_core.specs.Diagram.{size, rows_of};
ghost use Rattle.grid_moves.specs.Exchange.{exchanged};
ghost use Rattle.grid_moves.specs.Step.{Step};
ghost use Rattle.grid_moves.specs.MoveFault.{first_move_fault, exchange_fault};

use crate::step::{Move, MoveFault};
use arrayvec::ArrayVec;
use grid_core::{Grid, Kind, Rows, Span};

/// Puts columns c and c + 1 in each other's place.
pub(crate) fn exchange_columns(grid: &mut Grid, c: u8) -> Result<(), MoveFault>
    ensures fault { result_err result ≡ first_move_fault grid.old (Move.ExchangeColumns c) }
    ensures moved { OnOk result (Step grid.old (Move.ExchangeColumns c) grid.new) }
    ensures kept { OnErr result (grid.new ≡ grid.old) }
{
    if c >= grid.size() - 1 {
        return Err(MoveFault::Range);
    }
    exchange_fault(grid.column_span(c), grid.column_span(c + 1))?;
    let crosses = swapped_columns(grid, Kind::Cross, c);
    let rings = swapped_columns(grid, Kind::Ring, c);
    grid.set_rows(crosses, rings);
    Ok(())
}

/// Puts rows r and r + 1 in each other's place.
pub(crate) fn exchange_rows(grid: &mut Grid, r: u8) -> Result<(), MoveFault>
    ensures fault { result_err result ≡ first_move_fault grid.old (Move.ExchangeRows r) }
    ensures moved { OnOk result (Step grid.old (Move.ExchangeRows r) grid.new) }
    ensures kept { OnErr result (grid.new ≡ grid.old) }
{
    if r >= grid.size() - 1 {
        return Err(MoveFault::Range);
    }
    exchange_fault(grid.row_span(r), grid.row_span(r + 1))?;
    let crosses = exchanged_rows(grid, Kind::Cross, r);
    let rings = exchanged_rows(grid, Kind::Ring, r);
    grid.set_rows(crosses, rings);
    Ok(())
}

/// The first fault of two neighbours.
fn exchange_fault(near: Span, far: Span) -> Result<(), MoveFault>
    ensures { result_err result ≡ exchange_fault near far }
{
    if near.touches(far) {
        Err(MoveFault::Touching)
    } else if near.is_clear_of(far) {
        Ok(())
    } else {
        Err(MoveFault::Interleaved)
    }
}

/// The rows of a kind, with columns c and c + 1 in each other's place.
pub(crate) fn swapped_columns(grid: &Grid, kind: Kind, c: u8) -> Rows
    requires { c + 1 < size grid.now }
    ensures { result.items ≡ swap (rows_of kind grid.now) c (c + 1) }
{
    let _size = grid.size();
    let mut rows = ArrayVec::new();
    rows.try_extend_from_slice(grid.rows(kind)).unwrap();
    rows.as_mut_slice().swap(c as usize, c as usize + 1);
    rows
}

/// The rows of a kind, with rows r and r + 1 in each other's place.
pub(crate) fn exchanged_rows(grid: &Grid, kind: Kind, r: u8) -> Rows
    requires { r + 1 < size grid.now }
    ensures { result.items ≡ map (exchanged r) (rows_of kind grid.now) }
{
    let _size = grid.size();
    let mut rows = ArrayVec::new();
    rows.try_extend_from_slice(grid.rows(kind)).unwrap();
    exchange_all(rows.as_mut_slice(), r);
    rows
}

/// Gives each of some rows its number after r and r + 1 exchanged theirs: in their places, of which the compiler makes code that
/// changes many at once.
fn exchange_all(rows: &mut [u8], r: u8)
    requires { r < 255 }
    ensures { rows.new ≡ map (exchanged r) rows.old }
{
    for place in 0..rows.len() {
        rows[place] = exchanged(rows[place], r);
    }
}

/// The number of a row after r and r + 1 exchanged theirs.
fn exchanged(row: u8, r: u8) -> u8
    requires { r < 255 }
    ensures { result ≡ exchanged r row }
{
    if row == r {
        r + 1
    } else if row == r + 1 {
        r
    } else {
        row
    }
}
