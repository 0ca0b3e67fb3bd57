//! What a colour becomes under a column, and the walk of a row from its left end to its right end.
ghost use Rattle.std.specs.Prelude.{◌≡◌, ◌<◌};
ghost use Rattle.grid_core.specs.Diagram.{size};
ghost use Rattle.colour_rows.specs.Walk.{passed_rightward, passed_leftward, walk, closes};
ghost use Rattle.colour_rows.specs.Colouring.{AreColours};

use crate::colouring::Colouring;
use crate::equation::Row;
use grid_core::Grid;
use quandle_core::{Operations, Quandle};

/// What a colour becomes under a column, from left to right: `colour ◁ column` where the column is up, and else `colour ▷ column`.
///
/// Both are colours below the order, the second that of the column.
pub fn rightward(quandle: &Operations, up: bool, colour: u8, column: u8) -> u8
    requires { (colour < quandle.now.order) × (column < quandle.now.order) }
    ensures is { result ≡ passed_rightward quandle.now up colour column }
    ensures below { result < quandle.now.order }
{
    let _order = quandle.order();
    if up {
        quandle.back(colour, column)
    } else {
        quandle.over(colour, column)
    }
}

/// What a colour becomes under a column, from left to right, by a quandle, as `rightward` says.
pub fn passed_rightward(quandle: &Quandle, up: bool, colour: u8, column: u8) -> u8
    requires { (colour < quandle.now.order) × (column < quandle.now.order) }
    ensures is { result ≡ passed_rightward quandle.now up colour column }
    ensures below { result < quandle.now.order }
{
    rightward(&quandle.operations(), up, colour, column)
}

/// What a colour becomes under a column, from right to left: what it was before it passed to the right.
///
/// Both are colours below the order, the second that of the column.
#[tactic(auto, using(crate::proofs::Turning::leftward_by_turning))]
pub fn leftward(quandle: &Operations, up: bool, colour: u8, column: u8) -> u8
    requires { (colour < quandle.now.order) × (column < quandle.now.order) }
    ensures is { result ≡ passed_leftward quandle.now up colour column }
    ensures below { result < quandle.now.order }
{
    rightward(quandle, !up, colour, column)
}

/// What a colour becomes under a column, from right to left, by a quandle, as `leftward` says.
pub fn passed_leftward(quandle: &Quandle, up: bool, colour: u8, column: u8) -> u8
    requires { (colour < quandle.now.order) × (column < quandle.now.order) }
    ensures is { result ≡ passed_leftward quandle.now up colour column }
    ensures below { result < quandle.now.order }
{
    leftward(&quandle.operations(), up, colour, column)
}

/// The last colour of the walk of a row, which starts with the colour of the row's left end.
///
/// Under a column of colour y that covers the row strictly between its ends, x becomes `x ▷ y` where the column is down and `x ◁ y` where it is up.
/// There must be a colour below the order for each column, and the row is below the size.
pub fn walk(grid: &Grid, quandle: &Quandle, colours: &Colouring, row: u8) -> u8
    requires row { row < size grid.now }
    requires colours { AreColours (size grid.now) quandle.now.order colours.now.items }
    ensures { result ≡ walk quandle.now grid.now colours.now.items row }
{
    let _size = grid.size();
    Row::of(grid, row).walk(quandle, colours.as_slice())
}

/// Whether the walk of a row ends with the colour of its right end.
pub(crate) fn closes(grid: &Grid, quandle: &Quandle, colours: &Colouring, row: u8) -> bool
    requires row { row < size grid.now }
    requires colours { AreColours (size grid.now) quandle.now.order colours.now.items }
    ensures { result ≡ closes quandle.now grid.now colours.now.items row }
{
    let (_left, right) = grid.ends(row);
    walk(grid, quandle, colours, row) == colours[right as usize]
}
