//! Whether a list of colours is a colouring.
ghost use Rattle.std.specs.Prelude.{◌≡◌};
ghost use Rattle.colour_rows.specs.Colouring.{are_colours, is_colouring};

use crate::walking::closes;
use arrayvec::ArrayVec;
use grid_core::{Grid, MAX_SIZE, all_below};
use quandle_core::Quandle;

/// A colour for each column, from the left. Contracts read it as its list of items.
pub type Colouring = ArrayVec<u8, MAX_SIZE>;

/// Whether the list is a colouring: the walk of each row ends with the colour of the row's right end.
///
/// Also false where the number of colours is not the size, or a colour is not below the order.
pub fn is_colouring(grid: &Grid, quandle: &Quandle, colours: &Colouring) -> bool
    ensures { result ≡ is_colouring quandle.now grid.now colours.now.items }
{
    if !are_colours(grid.size(), quandle.order(), colours) {
        return false;
    }
    for row in 0..grid.size() {
        if !closes(grid, quandle, colours, row) {
            return false;
        }
    }
    true
}

/// Whether there are so many colours, each below the order.
fn are_colours(size: u8, order: u8, colours: &Colouring) -> bool
    ensures { result ≡ are_colours size order colours.now.items }
{
    colours.len() == size as usize && all_below(colours.as_slice(), order)
}
