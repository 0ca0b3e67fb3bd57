//! Cyclic shifts of columns and rows.
ghost use Rattle.std.specs.Prelude.{◌≡◌, ◌<◌, ◌++◌, OnOk, OnErr, map, take, drop};
ghost use Rattle.std.specs.Result.{result_err};
ghost use Rattle.grid_core.specs.Diagram.{size, rows_of};
ghost use Rattle.grid_moves.specs.Shift.{shifted};
ghost use Rattle.grid_moves.specs.Step.{Step};
ghost use Rattle.grid_moves.specs.MoveFault.{first_move_fault};

use crate::step::{Move, MoveFault};
use arrayvec::ArrayVec;
use grid_core::{Grid, Kind, Rows};

/// Puts the k leftmost columns, in order, at the right end.
pub(crate) fn shift_columns(grid: &mut Grid, k: u8) -> Result<(), MoveFault>
    ensures fault { result_err result ≡ first_move_fault grid.old (Move.ShiftColumns k) }
    ensures moved { OnOk result (Step grid.old (Move.ShiftColumns k) grid.new) }
    ensures kept { OnErr result (grid.new ≡ grid.old) }
{
    if k == 0 || k >= grid.size() {
        return Err(MoveFault::Range);
    }
    let crosses = rotated(grid, Kind::Cross, k);
    let rings = rotated(grid, Kind::Ring, k);
    grid.set_rows(crosses, rings);
    Ok(())
}

/// Puts the k lowest rows, in order, at the top.
pub(crate) fn shift_rows(grid: &mut Grid, k: u8) -> Result<(), MoveFault>
    ensures fault { result_err result ≡ first_move_fault grid.old (Move.ShiftRows k) }
    ensures moved { OnOk result (Step grid.old (Move.ShiftRows k) grid.new) }
    ensures kept { OnErr result (grid.new ≡ grid.old) }
{
    if k == 0 || k >= grid.size() {
        return Err(MoveFault::Range);
    }
    let crosses = shifted_rows(grid, Kind::Cross, k);
    let rings = shifted_rows(grid, Kind::Ring, k);
    grid.set_rows(crosses, rings);
    Ok(())
}

/// The rows of a kind, with those of the k leftmost columns at the end.
fn rotated(grid: &Grid, kind: Kind, k: u8) -> Rows
    requires { k < size grid.now }
    ensures { result.items ≡ drop k (rows_of kind grid.now) ++ take k (rows_of kind grid.now) }
{
    let _size = grid.size();
    let (left, right) = grid.rows(kind).split_at(k as usize);
    let mut rows = ArrayVec::new();
    rows.try_extend_from_slice(right).unwrap();
    rows.try_extend_from_slice(left).unwrap();
    rows
}

/// The rows of a kind, each k lower, round the circle.
fn shifted_rows(grid: &Grid, kind: Kind, k: u8) -> Rows
    requires { k < size grid.now }
    ensures { result.items ≡ map (shifted (size grid.now) k) (rows_of kind grid.now) }
{
    let size = grid.size();
    let mut rows = ArrayVec::new();
    for row in grid.rows(kind) {
        rows.push(number_after_shift(*row, k, size));
    }
    rows
}

/// The new number of a row, of as many as the size, when the k lowest go to the top; and of a column, when the k leftmost go to the right end.
pub fn number_after_shift(number: u8, k: u8, size: u8) -> u8
    requires most { k < size }
    requires inside { number < size }
    ensures { result ≡ shifted size k number }
{
    if number < k {
        number + (size - k)
    } else {
        number - k
    }
}
