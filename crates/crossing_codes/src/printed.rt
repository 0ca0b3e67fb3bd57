//! The texts of codes.
ghost use Rattle.std.specs.Prelude.{◌≡◌, ◌<◌, ◌≤◌, ◌+◌, ◌*◌, ◌++◌, codes, decimal, flat_map, length, IfOk, OnOk};
ghost use Rattle.std.specs.List.{All};
ghost use Rattle.grid_core.specs.Diagram.{size};
ghost use Rattle.grid_core.specs.declared.grid.TheConstants.{MAX_SIZE};
ghost use Rattle.crossing_codes.specs.Passages.{crossings};
ghost use Rattle.crossing_codes.specs.OnTheWay.{LiesIn};
ghost use Rattle.crossing_codes.specs.Layout.{crossings_below, IsNumbered, HasCrossingNumber};
ghost use Rattle.crossing_codes.specs.Printed.{crossing_line, crossing_number, passage_token, gauss_line, pd_text, gauss_text};

use crate::code::is_positive;
use crate::components::starts;
use crate::crossing::{Code, Crossing};
use crate::layout::{Layout, MAX_CELLS, cell};
use crate::passages::{Passage, push_round};
use grid_core::Grid;
use memory_core::OutOfMemory;
use std::alloc::{AllocError, Global};
use text_lines::{push_counted, push_number};

/// The text of a code: the line `crossings` with their number, a line `X[i,j,k,l]` for each, and the line `loops` with their number.
pub fn pd_text(alloc: Global, code: &Code) -> Result<Vec<u8>, OutOfMemory>
    ensures { IfOk result (λ v. v.items ≡ pd_text code.now) }
{
    let crossings = code.crossings.as_slice();
    let mut out = Vec::new(alloc);
    push_counted(&mut out, b"crossings ", crossings.len() as u64)?;
    for crossing in crossings {
        push_crossing(&mut out, crossing)?;
    }
    push_counted(&mut out, b"loops ", u64::from(code.loops))?;
    Ok(out)
}

/// The signed Gauss code of a grid: for each component with passages a line `gauss` with its passages in order,
/// each as `O` for over or `U` for under, the number of the crossing, and `+` or `-` for its sign.
pub fn gauss_text(alloc: Global, grid: &Grid) -> Result<Vec<u8>, OutOfMemory>
    ensures { IfOk result (λ v. v.items ≡ gauss_text grid.now) }
{
    let layout = Layout::of(grid);
    let _size = layout.size();
    let numbers = crossing_numbers(&layout);
    let mut out = Vec::new(alloc);
    let mut round = Vec::new(alloc);
    let starts = starts(&layout);
    for start in starts.as_slice() {
        round.clear();
        push_round(&mut round, &layout, *start)?;
        if !round.is_empty() {
            push_gauss_line(&mut out, &layout, &numbers, round.as_slice())?;
        }
    }
    Ok(out)
}

/// A table of the crossings' numbers by cell.
fn crossing_numbers(layout: &Layout) -> [u16; MAX_CELLS]
    ensures { IsNumbered (crossings layout.now) result }
{
    let mut numbers = [0; MAX_CELLS];
    let mut last = 0;
    for row in 0..layout.size() {
        last = number_row(&mut numbers, layout, row, last);
    }
    numbers
}

/// Numbers the crossings of a row, where those of the rows below have the numbers up to the last one; answers the new last number.
fn number_row(numbers: &mut [u16; MAX_CELLS], layout: &Layout, row: u8, last: u16) -> u16
    requires row { row < size layout.now }
    requires last { last ≡ length (crossings_below layout.now row) }
    requires few { last ≤ row * MAX_SIZE }
    requires numbers { IsNumbered (crossings_below layout.now row) numbers.old }
    ensures last { result ≡ length (crossings_below layout.now (row + 1)) }
    ensures few { result ≤ (row + 1) * MAX_SIZE }
    ensures numbers { IsNumbered (crossings_below layout.now (row + 1)) numbers.new }
{
    let _size = layout.size();
    let span = layout.row_span(row);
    let mut number = last;
    for column in span.low + 1..span.high {
        if layout.covers(column, row) {
            number += 1;
            numbers[cell(column, row)] = number;
        }
    }
    number
}

/// Appends the line of a component's passages.
fn push_gauss_line(
    out: &mut Vec<u8>,
    layout: &Layout,
    numbers: &[u16; MAX_CELLS],
    round: &[Passage],
) -> Result<(), AllocError>
    requires inside { All (LiesIn layout.now) round.now }
    requires numbers { All (HasCrossingNumber layout.now numbers.now) round.now }
    ensures { OnOk result (out.new.items ≡ out.old.items ++ gauss_line layout.now round.now) }
{
    out.extend_from_slice(b"gauss")?;
    for passage in round {
        push_passage(out, layout, numbers, *passage)?;
    }
    out.extend_from_slice(b"\n")
}

/// Appends a space and a passage.
fn push_passage(
    out: &mut Vec<u8>,
    layout: &Layout,
    numbers: &[u16; MAX_CELLS],
    passage: Passage,
) -> Result<(), AllocError>
    requires inside { LiesIn layout.now passage }
    requires number { HasCrossingNumber layout.now numbers.now passage }
    ensures { OnOk result (out.new.items ≡ out.old.items ++ (codes " " ++ passage_token layout.now passage)) }
{
    let _size = layout.size();
    out.extend_from_slice(if passage.over { b" O" } else { b" U" })?;
    let number = numbers[cell(passage.column, passage.row)];
    push_number(out, u64::from(number))?;
    let positive = is_positive(layout, passage.column, passage.row);
    out.push(if positive { b'+' } else { b'-' })?;
    Ok(())
}

/// Appends the line of a crossing.
fn push_crossing(out: &mut Vec<u8>, crossing: &Crossing) -> Result<(), AllocError>
    ensures { OnOk result (out.new.items ≡ out.old.items ++ crossing_line crossing.now) }
{
    out.extend_from_slice(b"X[")?;
    push_edge(out, crossing.first, b",")?;
    push_edge(out, crossing.second, b",")?;
    push_edge(out, crossing.third, b",")?;
    push_edge(out, crossing.fourth, b"]\n")
}

/// Appends an edge and what follows it.
fn push_edge(out: &mut Vec<u8>, edge: u32, behind: &[u8]) -> Result<(), AllocError>
    ensures { OnOk result (out.new.items ≡ out.old.items ++ (decimal edge ++ behind.now)) }
{
    push_number(out, u64::from(edge))?;
    out.extend_from_slice(behind)
}
