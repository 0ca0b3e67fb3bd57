//! The least translate.
ghost use Rattle.std.specs.Prelude.{◌≡◌, ◌<◌, ◌≤◌, ◌+◌, ◌%◌, ℕ, length, slice_index};
ghost use Rattle.std.specs.List.{All};
ghost use Rattle.std.specs.Ordering.{nat_cmp};
ghost use Rattle.std.specs.Cmp.Lexicographic.{slice_cmp};
ghost use Rattle.grid_core.specs.declared.mark.Kind.TheVariants.{Cross};
ghost use Rattle.grid_core.specs.declared.grid.TheConstants.{MAX_SIZE};
ghost use Rattle.grid_core.specs.Diagram.{IsGrid, row_of};
ghost use Rattle.grid_moves.specs.Shift.{shifted};
ghost use Rattle.grid_keys.specs.Translation.{translated_rows};
ghost use Rattle.grid_keys.specs.Order.{compare};
ghost use Rattle.grid_keys.specs.CanonicalForm.{IsCanonical, IsLeastForm, IsLeastKey};
ghost use Rattle.grid_keys.specs.Cornered.{cornered, IsFirstLeast};

use crate::digits::MAX_SHORT_SIZE;
use crate::short_grid::ShortGrid;
use grid_core::{Grid, Kind};
use grid_keys::{LeastForm, LeastKey, translate, translated_key};
use std::cmp::Ordering;

/// The canonical form of a grid: the least of its n² translates, with the least pair of shifts that reaches it.
///
/// The least translate has an X in its lower left cell, so only the n translates with one there are compared.
/// Takes no memory.
pub fn canonical(grid: &Grid) -> LeastForm
    ensures form { IsLeastForm grid.now result }
    ensures own { IsCanonical result.grid }
{
    let _size = grid.size();
    let columns = least_column(grid.rows(Kind::Cross), grid.rows(Kind::Ring)) as u8;
    let rows = grid.row_of(Kind::Cross, columns);
    LeastForm {
        grid: translate(grid, columns, rows),
        columns,
        rows,
    }
}

/// The key of the canonical form of a grid with its least shifts, without building the form. Takes no memory.
pub fn canonical_key(grid: &Grid) -> LeastKey
    ensures { IsLeastKey grid.now result }
{
    if grid.size() as usize <= MAX_SHORT_SIZE {
        ShortGrid::of(grid).canonical_key()
    } else {
        long_key(grid.rows(Kind::Cross), grid.rows(Kind::Ring))
    }
}

/// The key of the canonical form of a grid of any size, by the rows of its Xs and of its Os. Kept out of `canonical_key`, where a short
/// grid so needs no room for its lists.
#[inline(never)]
fn long_key(x: &[u8], o: &[u8]) -> LeastKey
    requires { IsGrid (record { x = x.now; o = o.now }) }
    ensures { IsLeastKey (record { x = x.now; o = o.now }) result }
{
    let columns = least_column(x, o);
    let rows = x[columns];
    LeastKey {
        key: translated_key(x, o, columns, rows),
        columns: columns as u8,
        rows,
    }
}

/// The first column that gives the least translate with an X in its lower left cell.
///
/// The Xs of the second columns mostly differ, and then decide.
fn least_column(x: &[u8], o: &[u8]) -> usize
    requires { IsGrid (record { x = x.now; o = o.now }) }
    ensures { IsFirstLeast (record { x = x.now; o = o.now }) (length x.now) result }
{
    let last = x.len() - 1;
    let mut best = 0;
    let mut best_step = second_row(x, 0, 1);
    for column in 1..last {
        let step = second_row(x, column, column + 1);
        if step <= best_step {
            best = first_of(x, o, column, step, best, best_step);
            best_step = step;
        }
    }
    let step = second_row(x, last, 0);
    if step <= best_step {
        first_of(x, o, last, step, best, best_step)
    } else {
        best
    }
}

/// The row of the X of the second column in the translate with the X of a column in its lower left cell, by the next column.
fn second_row(x: &[u8], column: usize, next: usize) -> u64
    requires least { 2 ≤ length x.now }
    requires most { length x.now ≤ MAX_SIZE }
    requires inside { All (λ r. r < length x.now) x.now }
    requires column { column < length x.now }
    requires next { next ≡ (1 + column) % length x.now }
    ensures { result ≡ slice_index (translated_rows (length x.now) column (slice_index x.now column) x.now) 1 }
{
    lowered_wide(u64::from(x[next]), u64::from(x[column]), x.len() as u64)
}

/// The first column that gives the least translate when one more, `near`, is compared with `far`, the first that gave it so far, where
/// the X of its second column isn't higher.
fn first_of(x: &[u8], o: &[u8], near: usize, near_step: u64, far: usize, far_step: u64) -> usize
    requires grid { IsGrid (record { x = x.now; o = o.now }) }
    requires near { near < length x.now }
    requires far { IsFirstLeast (record { x = x.now; o = o.now }) near far }
    requires near_step { near_step ≡ row_of Cross (cornered (record { x = x.now; o = o.now }) near) 1 }
    requires far_step { far_step ≡ row_of Cross (cornered (record { x = x.now; o = o.now }) far) 1 }
    requires not_higher { near_step ≤ far_step }
    ensures first { IsFirstLeast (record { x = x.now; o = o.now }) (near + 1) result }
    ensures step { near_step ≡ row_of Cross (cornered (record { x = x.now; o = o.now }) result) 1 }
{
    if near_step < far_step {
        near
    } else if compare_cornered(x, o, near, far) == Ordering::Less {
        near
    } else {
        far
    }
}

/// The order of the two translates that have the Xs of two columns in their lower left cells, where the Xs of their second columns
/// are in one row. It is seldom called: kept out of the loop over the columns.
#[inline(never)]
fn compare_cornered(x: &[u8], o: &[u8], near: usize, far: usize) -> Ordering
    requires grid { IsGrid (record { x = x.now; o = o.now }) }
    requires near { near < length x.now }
    requires far { far < length x.now }
    requires second { row_of Cross (cornered (record { x = x.now; o = o.now }) near) 1 ≡ row_of Cross (cornered (record { x = x.now; o = o.now }) far) 1 }
    ensures { result ≡ compare (cornered (record { x = x.now; o = o.now }) near) (cornered (record { x = x.now; o = o.now }) far) }
{
    let near_by = u64::from(x[near]);
    let far_by = u64::from(x[far]);
    match compare_translated(x, 2, near, near_by, far, far_by) {
        Ordering::Equal => compare_translated(o, 0, near, near_by, far, far_by),
        order => order,
    }
}

/// The order of the rows of a kind in two translates, which agree in the first columns.
fn compare_translated(
    rows: &[u8],
    from: usize,
    near: usize,
    near_by: u64,
    far: usize,
    far_by: u64,
) -> Ordering
    requires most { length rows.now ≤ MAX_SIZE }
    requires inside { All (λ r. r < length rows.now) rows.now }
    requires from { from ≤ length rows.now }
    requires near { near < length rows.now }
    requires far { far < length rows.now }
    requires near_by { near_by < length rows.now }
    requires far_by { far_by < length rows.now }
    requires agree { (c : ℕ) → c < from → slice_index (translated_rows (length rows.now) near near_by rows.now) c ≡ slice_index (translated_rows (length rows.now) far far_by rows.now) c }
    ensures { result ≡ slice_cmp nat_cmp (translated_rows (length rows.now) near near_by rows.now) (translated_rows (length rows.now) far far_by rows.now) }
{
    for c in from..rows.len() {
        match translated_row(rows, near, near_by, c).cmp(&translated_row(rows, far, far_by, c)) {
            Ordering::Equal => {}
            order => return order,
        }
    }
    Ordering::Equal
}

/// The row of a column after both shifts.
fn translated_row(rows: &[u8], columns: usize, by: u64, c: usize) -> u64
    requires most { length rows.now ≤ MAX_SIZE }
    requires inside { All (λ r. r < length rows.now) rows.now }
    requires columns { columns < length rows.now }
    requires by { by < length rows.now }
    requires column { c < length rows.now }
    ensures { result ≡ slice_index (translated_rows (length rows.now) columns by rows.now) c }
{
    let size = rows.len();
    let place = columns + c;
    let place = if place < size { place } else { place - size };
    lowered_wide(u64::from(rows[place]), by, size as u64)
}

/// `number_after_shift` of grid_moves for wide numbers, in a form of which the compiler makes short code with no branch: below 0 a number goes round to the
/// greatest ones, so of the difference and the difference one size higher the right one is the less.
fn lowered_wide(row: u64, by: u64, size: u64) -> u64
    requires size { size ≤ MAX_SIZE }
    requires by { by < size }
    requires inside { row < size }
    ensures { result ≡ shifted size by row }
{
    let down = row.wrapping_sub(by);
    down.min(down.wrapping_add(size))
}
