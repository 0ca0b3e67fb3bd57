//! The colours that a move carries.
ghost use Rattle.std.specs.Prelude.{◌≡◌, None};
ghost use Rattle.grid_core.specs.Diagram.{Diagram};
ghost use Rattle.grid_moves.specs.Step.{Step};
ghost use Rattle.grid_moves.specs.MoveFault.{first_move_fault};
ghost use Rattle.colour_rows.specs.Colouring.{IsColouring};
ghost use Rattle.colour_laws.specs.Carried.{carried};

use crate::blocks::{copy_of, destabilise, shift_columns, stabilise};
use crate::passing::{exchange_columns, shift_rows};
use colour_rows::Colouring;
use grid_core::Grid;
use grid_moves::Move;
use quandle_core::Quandle;

/// The colouring of the new diagram that a legal move makes of a colouring of the old one.
///
/// Columns go with their colours, but for two cases in which a colour y becomes `y ▷ a` or `y ◁ a`. Where rows are
/// shifted, the strand of each row that goes from the bottom to the top, of colour a, passes over the columns strictly
/// between its ends. Where nested columns are exchanged, the inner one passes under the outer one, of colour a.
/// A stabilisation doubles its column's colour, and a destabilisation merges the two. The two columns of a slide have
/// one colour, so that the list stays as it is.
///
/// Takes no memory. Each column is touched a bounded number of times; a shift of rows by k does so k times.
pub fn carry(grid: &Grid, step: Move, quandle: &Quandle, colours: &Colouring) -> Colouring
    requires legal { first_move_fault grid.now step ≡ None }
    requires colouring { IsColouring quandle.now grid.now colours.now.items }
    ensures carried { result.items ≡ carried quandle.now grid.now step colours.now.items }
    ensures colouring { (e : Diagram) → Step grid.now step e → IsColouring quandle.now e result.items }
{
    let _order = quandle.order();
    by_kind(grid, step, quandle, colours)
}

/// The colours, by the kind of move.
fn by_kind(grid: &Grid, step: Move, quandle: &Quandle, colours: &Colouring) -> Colouring
    requires legal { first_move_fault grid.now step ≡ None }
    requires colouring { IsColouring quandle.now grid.now colours.now.items }
    ensures { result.items ≡ carried quandle.now grid.now step colours.now.items }
{
    let _size = grid.size();
    let _order = quandle.order();
    match step {
        Move::ShiftColumns(k) => shift_columns(grid, colours, k),
        Move::ShiftRows(k) => shift_rows(grid, quandle, colours, k),
        Move::ExchangeColumns(c) => exchange_columns(grid, quandle, colours, c),
        Move::ExchangeRows(_r) => copy_of(colours),
        Move::SlideColumns(_c) => copy_of(colours),
        Move::SlideRows(_r) => copy_of(colours),
        Move::Stabilise {
            column,
            kind: _,
            corner: _,
        } => stabilise(grid, colours, column),
        Move::Destabilise { column, row: _ } => destabilise(grid, colours, column),
    }
}
