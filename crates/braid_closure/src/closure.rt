//! The closure of a braid.
ghost use Rattle.std.specs.Prelude.{◌≡◌, ◌<◌, ◌≤◌, ◌+◌, ◌*◌, ◌++◌, length, map, unwrap_or};
ghost use Rattle.std.specs.List.{All};
ghost use Rattle.grid_core.specs.Diagram.{IsGrid};
ghost use Rattle.braid_core.specs.Braid.{IsLetter};
ghost use Rattle.braid_closure.specs.Columns.{open_columns, diagram_of};
ghost use Rattle.braid_closure.specs.Closure.{after_letter, after_letters, feet_columns, ended_at_the_top, closing, columns, closure, feet};

use crate::columns::{Column, Columns, begin_left, begin_right, end};
use arrayvec::ArrayVec;
use braid_core::{Braid, MAX_STRANDS};
use grid_core::{Grid, Kind, MAX_SIZE, Rows};

/// The closure of a braid, with the columns of its feet, position 1 first.
#[derive(Drop)]
pub struct Closure {
    /// The grid, of size l + 2m for l letters and m strands.
    pub grid: Grid,
    /// The column that begins at the lowest row, row j - 1, of the strand at position j.
    pub feet: ArrayVec<u8, MAX_STRANDS>,
}

/// The closure of a braid of m strands and l letters as a grid of size l + 2m, built from its lowest row to its highest.
///
/// The foot of position j begins in row j-1. Letter t, counted from 0, has row m+t: there one strand's column ends, and goes on in a new column on
/// the far side of the strand that it passes under.
/// The column of position j ends in the top row of j, row l+2m-j. From there a closing column leads to row j-1. The m closing columns lie right of
/// all others, that of position m first.
/// Takes no memory.
pub fn close(braid: &Braid) -> Closure
    ensures grid { result.grid ≡ closure braid.now }
    ensures feet { result.feet.items ≡ feet braid.now }
{
    let grid = grid_of(&columns_of(braid));
    let mut feet = ArrayVec::new();
    for row in 0..braid.strands() {
        feet.push(grid.column_of(Kind::Cross, row));
    }
    Closure { grid, feet }
}

/// All columns of the closure.
fn columns_of(braid: &Braid) -> Columns
    ensures columns { result.items ≡ columns braid.now }
    ensures grid { IsGrid (diagram_of result.items) }
{
    let strands = braid.strands();
    let size = braid.letters().len() as u8 + 2 * strands;
    let mut columns = feet_columns(strands);
    cross_all(&mut columns, strands, braid.letters());
    end_all(&mut columns, strands, size);
    append_closing(&mut columns, strands, size);
    columns
}

/// The open columns of the feet, position 1 first.
fn feet_columns(strands: u8) -> Columns
    requires { strands ≤ MAX_SIZE }
    ensures columns { result.items ≡ feet_columns strands }
    ensures count { length (open_columns result.items) ≡ strands }
    ensures size { length result.items ≡ strands }
{
    let mut columns = Columns::new();
    for row in 0..strands {
        columns.push(Column { x: row, o: None });
    }
    columns
}

/// Adds the rows of all letters, of which the first has the number of strands as its row.
fn cross_all(columns: &mut Columns, strands: u8, letters: &[i8])
    requires count { length (open_columns columns.old.items) ≡ strands }
    requires letters { All (IsLetter strands) letters.now }
    requires room { length columns.old.items + length letters.now ≤ MAX_SIZE }
    ensures columns { columns.new.items ≡ after_letters strands columns.old.items letters.now }
    ensures count { length (open_columns columns.new.items) ≡ strands }
    ensures size { length columns.new.items ≡ length columns.old.items + length letters.now }
{
    for place in 0..letters.len() {
        cross(columns, letters[place], strands + place as u8);
    }
}

/// Adds the row of a letter.
fn cross(columns: &mut Columns, letter: i8, row: u8)
    requires letter { IsLetter (length (open_columns columns.old.items)) letter }
    requires room { length columns.old.items < MAX_SIZE }
    ensures columns { columns.new.items ≡ after_letter letter row columns.old.items }
    ensures count { length (open_columns columns.new.items) ≡ length (open_columns columns.old.items) }
    ensures size { length columns.new.items ≡ length columns.old.items + 1 }
{
    let k = letter.unsigned_abs();
    if letter > 0 {
        end(columns, k + 1, row);
        begin_left(columns, k, row);
    } else {
        begin_right(columns, k + 1, row);
        end(columns, k, row);
    }
}

/// Ends the columns of all positions in their top rows, from the last position to the first.
fn end_all(columns: &mut Columns, strands: u8, size: u8)
    requires count { length (open_columns columns.old.items) ≡ strands }
    requires size { strands ≤ size }
    ensures columns { columns.new.items ≡ ended_at_the_top size strands columns.old.items }
    ensures size { length columns.new.items ≡ length columns.old.items }
{
    for done in 0..strands {
        let position = strands - done;
        end(columns, position, size - position);
    }
}

/// Appends the closing columns of all positions, from the last position to the first.
fn append_closing(columns: &mut Columns, strands: u8, size: u8)
    requires size { strands ≤ size }
    requires room { length columns.old.items + strands ≤ MAX_SIZE }
    ensures columns { columns.new.items ≡ columns.old.items ++ closing size strands }
{
    for done in 0..strands {
        let position = strands - done;
        columns.push(Column {
            x: size - position,
            o: Some(position - 1),
        });
    }
}

/// The grid of columns that have all ended.
fn grid_of(columns: &Columns) -> Grid
    requires { IsGrid (diagram_of columns.now.items) }
    ensures { result ≡ diagram_of columns.now.items }
{
    let mut x = Rows::new();
    let mut o = Rows::new();
    for column in columns.as_slice() {
        x.push(column.x);
        o.push(column.o.unwrap_or(0));
    }
    Grid::of_rows(x, o)
}
