//! Planar diagram codes.
ghost use Rattle.std.specs.Prelude.{◌≡◌, ◌<◌, ◌++◌, length, map, true, OnOk, IfOk};
ghost use Rattle.grid_core.specs.Diagram.{size};
ghost use Rattle.grid_core.specs.Span.{lies_within};
ghost use Rattle.grid_core.specs.Parts.{covers, ends};
ghost use Rattle.grid_core.specs.Crossing.{is_positive};
ghost use Rattle.colour_rows.specs.Walk.{passed};
ghost use Rattle.crossing_codes.specs.Passages.{passages, crossings};
ghost use Rattle.crossing_codes.specs.Edges.{edges_after};
ghost use Rattle.crossing_codes.specs.Layout.{HasNumbers};
ghost use Rattle.quandle_core.specs.Quandle.{Table, IsQuandle};
ghost use Rattle.quandle_core.specs.Bijection.{IsBijection};
ghost use Rattle.colour_rows.specs.Colouring.{IsColouring};
ghost use Rattle.crossing_codes.specs.Code.{crossing, code};
ghost use Rattle.crossing_codes.specs.CodeColouring.{is_code_colouring};
ghost use Rattle.crossing_codes.specs.EdgeColouring.{edge_colours};

use crate::crossing::{Code, Crossing};
use crate::edges::{MAX_SLOTS, Route, numbers_of, slot};
use crate::layout::Layout;
use crate::passages::Passage;
use grid_core::Grid;
use memory_core::{Items, OutOfMemory};
use std::alloc::{AllocError, Global};

/// The code of a grid: its crossings by row from the lowest, and in a row by column from the left, and how many edges and
/// loops it has; or `OutOfMemory`. For every quandle the edge colours of each colouring of the grid are a colouring of the
/// code, and each colouring of the code is the edge colours of exactly one colouring of the grid.
pub fn code_of(alloc: Global, grid: &Grid) -> Result<Code, OutOfMemory>
    ensures code { IfOk result (λ c. c ≡ code grid.now) }
    ensures colourings { IfOk result (λ c. (t : Table) → IsQuandle t
        → IsBijection (IsColouring t grid.now) (λ edges. is_code_colouring t c edges ≡ true) (edge_colours t grid.now)) }
{
    let layout = Layout::of(grid);
    let size = layout.size();
    let route = Route::of(alloc, &layout)?;
    let numbers = numbers_of(route.passages.as_slice());
    let mut found = Vec::with_capacity(alloc, route.passages.len() / 2)?;
    for row in 0..size {
        push_crossings(&mut found, &layout, route.after.as_slice(), &numbers, row)?;
    }
    Ok(Code {
        crossings: Items::from_vec(found),
        edges: route.passages.len() as u32,
        loops: route.loops,
    })
}

/// Appends the crossings of a row.
fn push_crossings(
    out: &mut Vec<Crossing>,
    layout: &Layout,
    after: &[u32],
    numbers: &[u16; MAX_SLOTS],
    row: u8,
) -> Result<(), AllocError>
    requires row { row < size layout.now }
    requires after { after.now ≡ edges_after layout.now }
    requires numbers { HasNumbers (passages layout.now) numbers.now }
    ensures { OnOk result (out.new.items ≡ out.old.items ++ map (λ c. crossing layout.now (record { column = c; row = row })) (passed layout.now row)) }
{
    let span = layout.row_span(row);
    for column in span.low + 1..span.high {
        if layout.covers(column, row) {
            out.push(crossing(layout, after, numbers, column, row))?;
        }
    }
    Ok(())
}

/// The crossing of a column with a row that it passes over.
fn crossing(
    layout: &Layout,
    after: &[u32],
    numbers: &[u16; MAX_SLOTS],
    column: u8,
    row: u8,
) -> Crossing
    requires row { row < size layout.now }
    requires across { lies_within (ends layout.now row) column ≡ true }
    requires covers { covers layout.now column row ≡ true }
    requires after { after.now ≡ edges_after layout.now }
    requires numbers { HasNumbers (passages layout.now) numbers.now }
    ensures { result ≡ crossing layout.now (record { column = column; row = row }) }
{
    let _size = layout.size();
    let over = numbers[slot(Passage {
        over: true,
        column,
        row,
    })];
    let under = numbers[slot(Passage {
        over: false,
        column,
        row,
    })];
    let (over_from, over_to) = (u32::from(over) + 1, after[over as usize]);
    let positive = is_positive(layout, column, row);
    let (second, fourth) = if positive {
        (over_to, over_from)
    } else {
        (over_from, over_to)
    };
    Crossing {
        first: u32::from(under) + 1,
        second,
        third: after[under as usize],
        fourth,
        positive,
    }
}

/// Whether the sign of a crossing is positive: the column runs up and the row to the left, or down and to the right.
pub(crate) fn is_positive(layout: &Layout, column: u8, row: u8) -> bool
    requires { (column < size layout.now) × (row < size layout.now) }
    ensures { result ≡ is_positive layout.now column row }
{
    layout.is_up(column) != layout.is_rightward(row)
}
