//! The colouring with given feet.
ghost use Rattle.std.specs.Prelude.{◌≡◌, ◌≢◌, ◌↔◌, ◌<◌, None, IfSome, length, map, slice_index};
ghost use Rattle.std.specs.List.{All};
ghost use Rattle.grid_core.specs.Diagram.{size};
ghost use Rattle.colour_rows.specs.Colouring.{AreColours, IsColouring};
ghost use Rattle.braid_core.specs.Action.{IsTuple, action};
ghost use Rattle.grid_braid.specs.Strands.{down_columns};
ghost use Rattle.grid_braid.specs.Word.{word_of_diagram};
ghost use Rattle.grid_braid.specs.Feet.{at_feet};
ghost use Rattle.grid_braid.specs.Sweep.{laid, swept};
ghost use Rattle.grid_braid.specs.Columns.{passed_back, column_colours};

use crate::feet::{copy_of, down_colours};
use crate::sweep::{lay, sweep};
use colour_rows::Colouring;
use grid_core::Grid;
use quandle_core::Quandle;

/// The one colouring of a grid with these colours at the feet of its word, or None exactly where the word's action does not fix them.
///
/// There must be a colour below the order for each down column, from left to right. Takes no memory.
pub fn colours_of(grid: &Grid, quandle: &Quandle, feet: &[u8]) -> Option<Colouring>
    requires { IsTuple quandle.now (word_of_diagram grid.now).strands feet.now }
    ensures none { (result ≡ None) ↔ (action quandle.now (word_of_diagram grid.now).letters feet.now ≢ feet.now) }
    ensures colouring { IfSome result (λ c. IsColouring quandle.now grid.now c.items) }
    ensures feet { IfSome result (λ c. at_feet quandle.now grid.now c.items ≡ feet.now) }
{
    let _size = grid.size();
    let _order = quandle.order();
    let strands = strands_from(grid, quandle, feet);
    if down_colours(grid, strands.as_slice()).as_slice() != feet {
        return None;
    }
    Some(columns_from(grid, quandle, &strands))
}

/// The colours of the strands above all rows, by column, where these are the feet.
fn strands_from(grid: &Grid, quandle: &Quandle, feet: &[u8]) -> Colouring
    requires { IsTuple quandle.now (word_of_diagram grid.now).strands feet.now }
    ensures strands { result.items ≡ swept quandle.now grid.now (laid grid.now feet.now) (size grid.now) }
    ensures colours { AreColours (size grid.now) quandle.now.order result.items }
{
    let _order = quandle.order();
    let mut strands = lay(grid, feet);
    sweep(grid, quandle, strands.as_mut_slice());
    strands
}

/// The colours of the columns whose strands have these colours.
fn columns_from(grid: &Grid, quandle: &Quandle, strands: &Colouring) -> Colouring
    requires { AreColours (size grid.now) quandle.now.order strands.now.items }
    ensures { result.items ≡ column_colours quandle.now grid.now strands.now.items }
{
    let mut columns = copy_of(strands);
    recolour_back(grid, quandle, columns.as_mut_slice());
    columns
}

/// From the colours of the strands to those of the columns.
fn recolour_back(grid: &Grid, quandle: &Quandle, colours: &mut [u8])
    requires { AreColours (size grid.now) quandle.now.order colours.old }
    ensures { colours.new ≡ column_colours quandle.now grid.now colours.old }
{
    let size = grid.size();
    let _order = quandle.order();
    for done in 0..size {
        let column = size - 1 - done;
        if !grid.is_up(column) {
            pass_back(quandle, colours, column);
        }
    }
}

/// Every column right of a column goes from y to `y ▷ d`, where d is that column's colour.
fn pass_back(quandle: &Quandle, colours: &mut [u8], column: u8)
    requires column { column < length colours.old }
    requires colours { All (λ y. y < quandle.now.order) colours.old }
    ensures { colours.new ≡ passed_back quandle.now colours.old column }
{
    let _order = quandle.order();
    let strand = colours[column as usize];
    for place in column as usize + 1..colours.len() {
        colours[place] = quandle.over(colours[place], strand);
    }
}
