//! Translates.
ghost use Rattle.std.specs.Prelude.{◌≡◌, ◌<◌, ◌≤◌, ◌+◌, ◌++◌, length, map};
ghost use Rattle.std.specs.List.{All};
ghost use Rattle.grid_core.specs.declared.grid.TheConstants.{MAX_SIZE};
ghost use Rattle.grid_core.specs.Diagram.{size};
ghost use Rattle.grid_moves.specs.Shift.{shifted};
ghost use Rattle.grid_keys.specs.Translation.{translated_rows, translate};

use arrayvec::ArrayVec;
use grid_core::{Grid, Kind, Rows};
use grid_moves::number_after_shift;

/// The grid after the shift of columns by `columns` and the shift of rows by `rows`, each from 0 to n - 1, where 0 means none.
/// Takes no memory.
pub fn translate(grid: &Grid, columns: u8, rows: u8) -> Grid
    requires of_columns { columns < size grid.now }
    requires of_rows { rows < size grid.now }
    ensures { result ≡ translate grid.now columns rows }
{
    let size = grid.size();
    Grid::of_rows(
        pushed_rows(grid.rows(Kind::Cross), columns, rows, size),
        pushed_rows(grid.rows(Kind::Ring), columns, rows, size),
    )
}

/// The rows of a kind after both shifts.
fn pushed_rows(list: &[u8], columns: u8, rows: u8, size: u8) -> Rows
    requires size { size ≤ MAX_SIZE }
    requires list { length list.now ≡ size }
    requires inside { All (λ r. r < size) list.now }
    requires of_columns { columns < size }
    requires of_rows { rows < size }
    ensures { result.items ≡ translated_rows size columns rows list.now }
{
    let (left, right) = list.split_at(columns as usize);
    let mut rows_after = ArrayVec::new();
    push_lowered(&mut rows_after, right, rows, size);
    push_lowered(&mut rows_after, left, rows, size);
    rows_after
}

/// Appends some rows, each lower by a number, round the circle of as many as the size.
fn push_lowered(list: &mut Rows, rows: &[u8], by: u8, size: u8)
    requires room { length list.old.items + length rows.now ≤ MAX_SIZE }
    requires by { by < size }
    requires inside { All (λ r. r < size) rows.now }
    ensures { list.new.items ≡ list.old.items ++ map (shifted size by) rows.now }
{
    for row in rows {
        list.push(number_after_shift(*row, by, size));
    }
}

/// The rows of a kind after both shifts, in a form for many columns: they are copied, and then lowered in
/// their places, of which the compiler makes code that lowers many at once.
pub(crate) fn translated_rows(list: &[u8], columns: u8, rows: u8, size: u8) -> Rows
    requires size { size ≤ MAX_SIZE }
    requires list { length list.now ≡ size }
    requires inside { All (λ r. r < size) list.now }
    requires of_columns { columns < size }
    requires of_rows { rows < size }
    ensures { result.items ≡ translated_rows size columns rows list.now }
{
    let (front, back) = list.split_at(columns as usize);
    let mut rows_after = ArrayVec::new();
    rows_after.try_extend_from_slice(back).unwrap();
    rows_after.try_extend_from_slice(front).unwrap();
    lower_all(rows_after.as_mut_slice(), rows, size);
    rows_after
}

/// Makes each of some rows lower by a number, round the circle of as many as the size.
fn lower_all(rows: &mut [u8], by: u8, size: u8)
    requires by { by < size }
    requires inside { All (λ r. r < size) rows.old }
    ensures { rows.new ≡ map (shifted size by) rows.old }
{
    for place in 0..rows.len() {
        rows[place] = number_after_shift(rows[place], by, size);
    }
}
