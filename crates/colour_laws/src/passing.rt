//! Colours of columns that pass under a strand: the inner one of an exchange, and those between the ends of a row.
ghost use Rattle.std.specs.Prelude.{◌≡◌, ◌<◌, ◌+◌, length, slice_index, if◌then◌else◌};
ghost use Rattle.grid_core.specs.Diagram.{size};
ghost use Rattle.grid_core.specs.Parts.{ends, is_up};
ghost use Rattle.colour_rows.specs.Walk.{passed_rightward, passed_leftward};
ghost use Rattle.colour_rows.specs.Colouring.{AreColours, IsColouring};
ghost use Rattle.colour_laws.specs.Carried.{is_nested_in, gone_left, gone_right, colours_exchanged, bottom_row_shifted, after_row_shift, rows_shifted};

use crate::blocks::copy_of;
use colour_rows::{Colouring, passed_leftward, passed_rightward};
use grid_core::Grid;
use quandle_core::Quandle;

/// Columns c and c + 1 trade places with their colours, and an inner one passes under the outer one.
pub(crate) fn exchange_columns(
    grid: &Grid,
    quandle: &Quandle,
    colours: &Colouring,
    c: u8,
) -> Colouring
    requires inside { c + 1 < size grid.now }
    requires colours { AreColours (size grid.now) quandle.now.order colours.now.items }
    ensures { result.items ≡ colours_exchanged quandle.now c grid.now colours.now.items }
{
    let mut carried = copy_of(colours);
    trade(grid, quandle, carried.as_mut_slice(), c);
    carried
}

/// Two neighbouring columns trade places with their colours.
fn trade(grid: &Grid, quandle: &Quandle, colours: &mut [u8], c: u8)
    requires inside { c + 1 < size grid.now }
    requires colours { AreColours (size grid.now) quandle.now.order colours.old }
    ensures { colours.new ≡ colours_exchanged quandle.now c grid.now colours.old }
{
    let left = gone_left(grid, quandle, colours, c);
    let right = gone_right(grid, quandle, colours, c);
    colours[c as usize] = left;
    colours[c as usize + 1] = right;
}

/// The colour of column c + 1 after it went to the left of column c.
fn gone_left(grid: &Grid, quandle: &Quandle, colours: &[u8], c: u8) -> u8
    requires inside { c + 1 < size grid.now }
    requires colours { AreColours (size grid.now) quandle.now.order colours.now }
    ensures { result ≡ gone_left quandle.now grid.now colours.now c }
{
    let _size = grid.size();
    let colour = colours[c as usize + 1];
    if is_nested_in(grid, c + 1, c) {
        passed_leftward(quandle, grid.is_up(c), colour, colours[c as usize])
    } else {
        colour
    }
}

/// The colour of column c after it went to the right of column c + 1.
fn gone_right(grid: &Grid, quandle: &Quandle, colours: &[u8], c: u8) -> u8
    requires inside { c + 1 < size grid.now }
    requires colours { AreColours (size grid.now) quandle.now.order colours.now }
    ensures { result ≡ gone_right quandle.now grid.now colours.now c }
{
    let _size = grid.size();
    let colour = colours[c as usize];
    if is_nested_in(grid, c, c + 1) {
        passed_rightward(quandle, grid.is_up(c + 1), colour, colours[c as usize + 1])
    } else {
        colour
    }
}

/// Whether both marks of the inner column lie strictly between those of the outer one.
fn is_nested_in(grid: &Grid, inner: u8, outer: u8) -> bool
    requires { (inner < size grid.now) × (outer < size grid.now) }
    ensures { result ≡ is_nested_in grid.now inner outer }
{
    let inner = grid.column_span(inner);
    let outer = grid.column_span(outer);
    outer.low < inner.low && inner.high < outer.high
}

/// The k lowest rows go to the top, one after the other.
pub(crate) fn shift_rows(grid: &Grid, quandle: &Quandle, colours: &Colouring, k: u8) -> Colouring
    requires most { k < size grid.now }
    requires colouring { IsColouring quandle.now grid.now colours.now.items }
    ensures { result.items ≡ rows_shifted quandle.now k grid.now colours.now.items }
{
    let _size = grid.size();
    let _order = quandle.order();
    let mut carried = copy_of(colours);
    for row in 0..k {
        lift_row(grid, quandle, carried.as_mut_slice(), row);
    }
    carried
}

/// A row, which is the bottom one when all lower ones have gone to the top, follows them: its strand moves over the
/// columns strictly between its ends.
fn lift_row(grid: &Grid, quandle: &Quandle, colours: &mut [u8], row: u8)
    requires row { row < size grid.now }
    requires colours { AreColours (size grid.now) quandle.now.order colours.old }
    ensures { colours.new ≡ bottom_row_shifted quandle.now (after_row_shift row grid.now) colours.old }
{
    let _size = grid.size();
    let _order = quandle.order();
    let (left, right) = grid.ends(row);
    let strand = colours[left as usize];
    let up = is_up_at_bottom(grid, left, row);
    for column in left + 1..right {
        colours[column as usize] = passed_leftward(quandle, up, colours[column as usize], strand);
    }
}

/// Whether the left end of a row is up when all lower rows have gone to the top: where its X is in this row.
#[tactic(auto, using(crate::proofs::Moments::up_at_bottom))]
fn is_up_at_bottom(grid: &Grid, left: u8, row: u8) -> bool
    requires row { row < size grid.now }
    requires left { left ≡ (ends grid.now row).low }
    requires inside { left < size grid.now }
    ensures { result ≡ is_up (after_row_shift row grid.now) left }
{
    let _size = grid.size();
    grid.x_row(left) == row
}
