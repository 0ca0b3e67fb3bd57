//! The lists of colours that a sweep holds between two rows.
ghost use Rattle.std.specs.Prelude.{◌≡◌, ◌<◌, ◌++◌, ◌==◌, length, map, filter, take, slice_index, slice_set, OnOk, IfOk};
ghost use Rattle.std.specs.List.{All, flat_map};
ghost use Rattle.grid_core.specs.declared.grid.TheConstants.{MAX_SIZE};
ghost use Rattle.colour_rows.specs.Colouring.{AreColours};
ghost use Rattle.colour_rows.specs.Equation.{walk_of};
ghost use Rattle.colour_list.specs.Listing.{lists_of};
ghost use Rattle.colour_list.specs.Level.{with_right, with_left, with_both};

use colour_rows::{Colouring, Row};
use grid_core::MAX_SIZE;
use quandle_core::Quandle;
use std::alloc::{AllocError, Global};
use std::slice;

/// A list of colours in the making, 0 in each column that no row so far has reached.
pub(crate) type Colours = [u8; MAX_SIZE];

/// Gives the right end the walk's last colour.
fn close_right(colours: &mut Colours, row: &Row, quandle: &Quandle)
    requires within { row.now.right_end < MAX_SIZE }
    requires colours { AreColours MAX_SIZE quandle.now.order colours.old }
    ensures { colours.new ≡ with_right quandle.now row.now colours.old }
{
    let last = row.walk(quandle, colours);
    colours[row.right() as usize] = last;
}

/// Gives the left end the last colour of the walk taken backwards.
fn close_left(colours: &mut Colours, row: &Row, quandle: &Quandle)
    requires within { (row.now.left_end < row.now.right_end) × (row.now.right_end < MAX_SIZE) }
    requires colours { AreColours MAX_SIZE quandle.now.order colours.old }
    ensures { colours.new ≡ with_left quandle.now row.now colours.old }
{
    let last = row.walk_back(quandle, colours);
    colours[row.left() as usize] = last;
}

/// Gives the left end a colour, and the right end the walk's last colour.
fn open(colours: &mut Colours, row: &Row, quandle: &Quandle, colour: u8)
    requires within { (row.now.left_end < row.now.right_end) × (row.now.right_end < MAX_SIZE) }
    requires colours { AreColours MAX_SIZE quandle.now.order colours.old }
    requires below { colour < quandle.now.order }
    ensures { colours.new ≡ with_right quandle.now row.now (slice_set colours.old row.now.left_end colour) }
{
    colours[row.left() as usize] = colour;
    close_right(colours, row, quandle);
}

/// Puts the list with each colour in turn at the left end after others.
fn push_each(
    next: &mut Vec<Colours>,
    colours: &Colours,
    row: &Row,
    quandle: &Quandle,
) -> Result<(), AllocError>
    requires within { (row.now.left_end < row.now.right_end) × (row.now.right_end < MAX_SIZE) }
    requires colours { AreColours MAX_SIZE quandle.now.order colours.now }
    ensures { OnOk result (next.new.items ≡ next.old.items ++ with_both quandle.now row.now colours.now) }
{
    for colour in 0..quandle.order() {
        let mut begun = *colours;
        open(&mut begun, row, quandle, colour);
        next.extend_from_slice(slice::from_ref(&begun))?;
    }
    Ok(())
}

/// Gives the left end of a bottom each colour in turn, in each list.
pub(crate) fn open_bottom(
    alloc: Global,
    level: &[Colours],
    row: &Row,
    quandle: &Quandle,
) -> Result<Vec<Colours>, AllocError>
    requires within { (row.now.left_end < row.now.right_end) × (row.now.right_end < MAX_SIZE) }
    requires colours { All (AreColours MAX_SIZE quandle.now.order) level.now }
    ensures lists { IfOk result (λ v. v.items ≡ flat_map (with_both quandle.now row.now) level.now) }
{
    let choices = level.len().saturating_mul(quandle.order() as usize);
    let mut next = Vec::with_capacity(alloc, choices)?;
    for colours in level {
        push_each(&mut next, colours, row, quandle)?;
    }
    Ok(next)
}

/// Gives the right end of each list the walk's last colour.
pub(crate) fn solve_right(level: &mut Vec<Colours>, row: &Row, quandle: &Quandle)
    requires within { row.now.right_end < MAX_SIZE }
    requires colours { All (AreColours MAX_SIZE quandle.now.order) level.old.items }
    ensures { level.new.items ≡ map (with_right quandle.now row.now) level.old.items }
{
    for i in 0..level.len() {
        close_right(&mut level[i], row, quandle);
    }
}

/// Gives the left end of each list the last colour of the walk taken backwards.
pub(crate) fn solve_left(level: &mut Vec<Colours>, row: &Row, quandle: &Quandle)
    requires within { (row.now.left_end < row.now.right_end) × (row.now.right_end < MAX_SIZE) }
    requires colours { All (AreColours MAX_SIZE quandle.now.order) level.old.items }
    ensures { level.new.items ≡ map (with_left quandle.now row.now) level.old.items }
{
    for i in 0..level.len() {
        close_left(&mut level[i], row, quandle);
    }
}

/// Whether the walk ends with the colour of the right end.
fn closes(colours: &Colours, row: &Row, quandle: &Quandle) -> bool
    requires within { row.now.right_end < MAX_SIZE }
    requires colours { AreColours MAX_SIZE quandle.now.order colours.now }
    ensures { result ≡ (walk_of quandle.now row.now colours.now == slice_index colours.now row.now.right_end) }
{
    row.walk(quandle, colours) == colours[row.right() as usize]
}

/// Keeps the lists on which the row closes, in their order.
pub(crate) fn keep_closed(level: &mut Vec<Colours>, row: &Row, quandle: &Quandle)
    requires within { row.now.right_end < MAX_SIZE }
    requires colours { All (AreColours MAX_SIZE quandle.now.order) level.old.items }
    ensures { level.new.items ≡ filter (λ f. walk_of quandle.now row.now f == slice_index f row.now.right_end) level.old.items }
{
    let mut kept = 0;
    for i in 0..level.len() {
        if closes(&level[i], row, quandle) {
            if kept < i {
                level[kept] = level[i];
            }
            kept += 1;
        }
    }
    level.truncate(kept);
}

/// The colours of the first columns of each list.
pub(crate) fn colourings_of(
    alloc: Global,
    level: &[Colours],
    size: u8,
) -> Result<Vec<Colouring>, AllocError>
    ensures lists { IfOk result (λ v. lists_of v.items ≡ map (take size) level.now) }
{
    let mut list = Vec::with_capacity(alloc, level.len())?;
    for colours in level {
        let mut colouring = Colouring::from(*colours);
        colouring.truncate(size as usize);
        list.push(colouring)?;
    }
    Ok(list)
}
