//! The colours of the strands, found row by row from the feet.
ghost use Rattle.std.specs.Prelude.{◌≡◌, ◌<◌, length, fold, map, reverse, slice_index};
ghost use Rattle.grid_core.specs.Diagram.{size};
ghost use Rattle.quandle_core.specs.Quandle.{over, back};
ghost use Rattle.colour_rows.specs.Colouring.{AreColours};
ghost use Rattle.grid_braid.specs.Strands.{strands_between, down_columns};
ghost use Rattle.grid_braid.specs.Sweep.{laid, moved_colour, swept_row, swept};

use crate::strands::is_strand;
use colour_rows::Colouring;
use grid_core::{Grid, Kind};
use quandle_core::Quandle;

/// By column: the feet at the down columns, and 0 at the others.
pub(crate) fn lay(grid: &Grid, feet: &[u8]) -> Colouring
    requires { length feet.now ≡ length (down_columns grid.now) }
    ensures { result.items ≡ laid grid.now feet.now }
{
    let _size = grid.size();
    let mut colours = Colouring::new();
    let mut next: usize = 0;
    for column in 0..grid.size() {
        if grid.is_up(column) {
            colours.push(0);
        } else {
            colours.push(feet[next]);
            next += 1;
        }
    }
    colours
}

/// Each row from the lowest writes the colour of the strand that it moves into the column of its X.
pub(crate) fn sweep(grid: &Grid, quandle: &Quandle, colours: &mut [u8])
    requires { AreColours (size grid.now) quandle.now.order colours.old }
    ensures swept { colours.new ≡ swept quandle.now grid.now colours.old (size grid.now) }
    ensures colours { AreColours (size grid.now) quandle.now.order colours.new }
{
    let _size = grid.size();
    let _order = quandle.order();
    for row in 0..grid.size() {
        sweep_row(grid, quandle, colours, row);
    }
}

/// A row writes the colour of the strand that it moves into the column of its X.
fn sweep_row(grid: &Grid, quandle: &Quandle, colours: &mut [u8], row: u8)
    requires row { row < size grid.now }
    requires colours { AreColours (size grid.now) quandle.now.order colours.old }
    ensures { colours.new ≡ swept_row quandle.now grid.now colours.old row }
{
    let _size = grid.size();
    let cross = grid.column_of(Kind::Cross, row);
    let ring = grid.column_of(Kind::Ring, row);
    let start = colours[ring as usize];
    let arrived = if grid.is_rightward(row) {
        moved_right(grid, quandle, colours, row, start)
    } else {
        moved_left(grid, quandle, colours, row, start)
    };
    colours[cross as usize] = arrived;
}

/// What a colour becomes on its way to the left under the strands between the ends of a row.
fn moved_left(grid: &Grid, quandle: &Quandle, colours: &[u8], row: u8, start: u8) -> u8
    requires row { row < size grid.now }
    requires colours { AreColours (size grid.now) quandle.now.order colours.now }
    requires start { start < quandle.now.order }
    ensures { result ≡ fold (over quandle.now) start (reverse (map (slice_index colours.now) (strands_between grid.now row))) }
{
    let _order = quandle.order();
    let (left, right) = grid.ends(row);
    let mut colour = start;
    for done in 0..right - left - 1 {
        let column = right - 1 - done;
        if is_strand(grid, row, column) {
            colour = quandle.over(colour, colours[column as usize]);
        }
    }
    colour
}

/// What a colour becomes on its way to the right under the strands between the ends of a row.
fn moved_right(grid: &Grid, quandle: &Quandle, colours: &[u8], row: u8, start: u8) -> u8
    requires row { row < size grid.now }
    requires colours { AreColours (size grid.now) quandle.now.order colours.now }
    requires start { start < quandle.now.order }
    ensures { result ≡ fold (back quandle.now) start (map (slice_index colours.now) (strands_between grid.now row)) }
{
    let _order = quandle.order();
    let (left, right) = grid.ends(row);
    let mut colour = start;
    for column in left + 1..right {
        if is_strand(grid, row, column) {
            colour = quandle.back(colour, colours[column as usize]);
        }
    }
    colour
}
