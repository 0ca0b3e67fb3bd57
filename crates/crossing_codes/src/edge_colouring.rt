//! The colours of edges and loops that a colouring of the columns gives.
ghost use Rattle.std.specs.Prelude.{◌≡◌, ◌<◌, ◌≤◌, ◌++◌, false, length, IfOk, OnOk};
ghost use Rattle.std.specs.List.{All};
ghost use Rattle.grid_core.specs.Diagram.{size};
ghost use Rattle.colour_rows.specs.Colouring.{IsColouring};
ghost use Rattle.crossing_codes.specs.EdgeColouring.{edge_colours};
ghost use Rattle.crossing_codes.specs.OnTheWay.{LiesIn, passing, on_the_way};

use crate::components::{Columns, starts};
use crate::layout::Layout;
use crate::passages::{Passage, push_round};
use colour_rows::Colouring;
use grid_core::Grid;
use memory_core::OutOfMemory;
use quandle_core::Quandle;
use std::alloc::{AllocError, Global};

/// The colours of edges 1, 2, .. of the grid's code, and then of its loops, that a colouring of the grid gives.
///
/// An edge that has a part of a column has the column's colour, one that lies wholly in a row has the colour of the row's walk at that place, and a
/// loop has the colour of its columns.
/// The colours must be a colouring of the grid.
pub fn edge_colours(
    alloc: Global,
    grid: &Grid,
    quandle: &Quandle,
    colours: &Colouring,
) -> Result<Vec<u8>, OutOfMemory>
    requires { IsColouring quandle.now grid.now colours.now.items }
    ensures { IfOk result (λ v. v.items ≡ edge_colours quandle.now grid.now colours.now.items) }
{
    let layout = Layout::of(grid);
    let _size = layout.size();
    let _order = quandle.order();
    let colours = colours.as_slice();
    let mut found = Vec::new(alloc);
    let mut round = Vec::new(alloc);
    let mut loops = Columns::new();
    let starts = starts(&layout);
    for start in starts.as_slice() {
        round.clear();
        push_round(&mut round, &layout, *start)?;
        let colour = colours[*start as usize];
        if round.is_empty() {
            loops.push(colour);
        }
        push_edges(
            &mut found,
            &layout,
            quandle,
            colours,
            colour,
            round.as_slice(),
        )?;
    }
    found.extend_from_slice(loops.as_slice())?;
    Ok(found)
}

/// Appends the colours with which a strand, at first of this colour, comes to each passage of a component.
fn push_edges(
    out: &mut Vec<u8>,
    layout: &Layout,
    quandle: &Quandle,
    colours: &[u8],
    colour: u8,
    round: &[Passage],
) -> Result<(), AllocError>
    requires colours { All (λ y. y < quandle.now.order) colours.now }
    requires long { size layout.now ≤ length colours.now }
    requires colour { colour < quandle.now.order }
    requires round { All (LiesIn layout.now) round.now }
    ensures { OnOk result (out.new.items ≡ out.old.items ++ on_the_way quandle.now layout.now colours.now colour round.now) }
{
    let mut colour = colour;
    for passage in round {
        out.push(colour)?;
        if !passage.over {
            colour = passed_under(layout, quandle, colours, *passage, colour);
        }
    }
    Ok(())
}

/// What a colour becomes where its strand passes under, in the direction of the row.
fn passed_under(
    layout: &Layout,
    quandle: &Quandle,
    colours: &[u8],
    passage: Passage,
    colour: u8,
) -> u8
    requires under { passage.over ≡ false }
    requires passage { LiesIn layout.now passage }
    requires colours { All (λ y. y < quandle.now.order) colours.now }
    requires long { size layout.now ≤ length colours.now }
    requires colour { colour < quandle.now.order }
    ensures is { result ≡ passing quandle.now layout.now colours.now colour passage }
    ensures below { result < quandle.now.order }
{
    let _order = quandle.order();
    let column = colours[passage.column as usize];
    if layout.is_up(passage.column) == layout.is_rightward(passage.row) {
        quandle.back(colour, column)
    } else {
        quandle.over(colour, column)
    }
}
