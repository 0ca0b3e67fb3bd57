//! Drafts of grid diagrams.
ghost use Rattle.std.specs.Prelude.{◌≡◌, ◌<◌, ◌≤◌, ◌+◌, ◌*◌, ◌/◌, IfOk, OnOk};
ghost use Rattle.code_drafts.specs.Drawn.{IsDrawn, IsBlank, HasMore};

use crate::bends::bends_of;
use crate::lines::DrawnLines;
use crate::order::places;
use crate::rectangles::LinePairs;
use crate::sphere::{Sphere, turned};
use crate::tables::at;
use crossing_codes::Code;
use memory_core::OutOfMemory;
use std::alloc::{AllocError, Global};

/// What may be the rows of a grid diagram, and where in it the crossings of the code may lie.
#[derive(Drop)]
pub struct Draft {
    /// The rows of the Xs by column.
    pub x: Vec<u8>,
    /// The rows of the Os by column.
    pub o: Vec<u8>,
    /// The column and the row of each crossing.
    pub crossings: Vec<(u8, u8)>,
    /// How many columns the diagram needs; where they are more than `most`, it is not drawn.
    pub columns: usize,
}

impl Draft {
    /// So many columns, of which none has a mark yet.
    fn without(alloc: Global, columns: usize) -> Draft
        ensures blank { IsBlank result }
        ensures columns { result.columns ≡ columns }
    {
        Draft {
            x: Vec::new(alloc),
            o: Vec::new(alloc),
            crossings: Vec::new(alloc),
            columns,
        }
    }
}

/// A draft of a diagram of a code, of at most `most` columns; of one with more only the number of columns is given.
///
/// The code must have no fault (`first_fault` of code_rows): of another one, the draft may be one of no diagram, or of that of
/// another code. It fails only if memory runs out.
pub fn draft_of(alloc: Global, code: &Code, most: usize) -> Result<Draft, OutOfMemory>
    ensures drawn { IfOk result (λ draft. draft.columns ≤ most → IsDrawn code.now draft) }
    ensures blank { IfOk result (λ draft. most < draft.columns → IsBlank draft) }
{
    let sphere = Sphere::of(alloc, code)?;
    let bends = bends_of(&sphere)?;
    let lines = DrawnLines::of(&sphere, &bends)?;
    let columns = lines.count / 2 + 2 * (code.loops as usize);
    let draft = Draft::without(alloc, columns);
    if columns > most {
        return Ok(draft);
    }
    draw(draft, &lines, code)
}

/// Draws these lines, the components without a crossing, and the crossings.
fn draw(draft: Draft, lines: &DrawnLines, code: &Code) -> Result<Draft, OutOfMemory>
    requires blank { IsBlank draft }
    requires columns { draft.columns ≡ lines.now.count / 2 + 2 * code.now.loops }
    ensures drawn { IfOk result (λ drawn. IsDrawn code.now drawn) }
    ensures columns { IfOk result (λ drawn. drawn.columns ≡ draft.columns) }
{
    let mut draft = draft;
    let layout = layout_of(lines)?;
    push_marks(&mut draft, lines, &layout)?;
    push_loops(&mut draft, code.loops as usize)?;
    push_crossings(&mut draft, lines, &layout, code.crossings.as_slice().len())?;
    Ok(draft)
}

/// The columns of the vertical lines and the rows of the others, by line.
#[derive(Drop)]
struct LinePlaces {
    columns: Vec<usize>,
    rows: Vec<usize>,
}

/// Where the lines are.
fn layout_of(lines: &DrawnLines) -> Result<LinePlaces, OutOfMemory> {
    let alloc = lines.sphere.alloc;
    let pairs = LinePairs::of(lines)?;
    let fences = lines.sphere.roots.len().saturating_add(1);
    let upright = lines.upright.as_slice();
    let flat: Vec<bool> = upright.iter().map(|upright| !*upright).collect(alloc)?;
    let columns = places(alloc, pairs.across.as_slice(), flat.as_slice(), fences)?;
    let rows = places(alloc, pairs.upward.as_slice(), upright, fences)?;
    Ok(LinePlaces { columns, rows })
}

/// Puts the marks of the lines, of which each second one is vertical, into their columns.
fn push_marks(draft: &mut Draft, lines: &DrawnLines, layout: &LinePlaces) -> Result<(), AllocError>
    ensures { OnOk result (HasMore (lines.entry.now.count / 2) 0 draft.old draft.new) }
{
    for column in 0..lines.count / 2 {
        let line = line_in(lines, layout, column);
        push_column(draft, lines, layout, line)?;
    }
    Ok(())
}

/// The vertical line in a column, or line 0 where there is none.
fn line_in(lines: &DrawnLines, layout: &LinePlaces, column: usize) -> usize {
    let (upright, columns) = (lines.upright.as_slice(), layout.columns.as_slice());
    (0..lines.count)
        .find(|line| at(upright, *line) && at(columns, *line) == column)
        .unwrap_or(0)
}

/// Puts the marks of a vertical line into the next column: its X on the line before and its O on the line after.
fn push_column(
    draft: &mut Draft,
    lines: &DrawnLines,
    layout: &LinePlaces,
    line: usize,
) -> Result<(), AllocError>
    ensures { OnOk result (HasMore 1 0 draft.old draft.new) }
{
    let rows = layout.rows.as_slice();
    let x = at(rows, at(lines.before.as_slice(), line));
    let o = at(rows, at(lines.after.as_slice(), line));
    draft.x.push(small(x))?;
    draft.o.push(small(o))?;
    Ok(())
}

/// Puts the components without a crossing after the others, each of two columns and rows.
fn push_loops(draft: &mut Draft, loops: usize) -> Result<(), AllocError>
    ensures { OnOk result (HasMore (2 * loops) 0 draft.old draft.new) }
{
    for _ in 0..loops {
        let next = draft.x.len();
        draft.x.push(small(next))?;
        draft.x.push(small(next.saturating_add(1)))?;
        draft.o.push(small(next.saturating_add(1)))?;
        draft.o.push(small(next))?;
    }
    Ok(())
}

/// Puts so many crossings, each where its vertical strand over meets the other one.
fn push_crossings(
    draft: &mut Draft,
    lines: &DrawnLines,
    layout: &LinePlaces,
    count: usize,
) -> Result<(), AllocError>
    ensures { OnOk result (HasMore 0 count draft.old draft.new) }
{
    for v in 0..count {
        let place = place_of(lines, layout, v.wrapping_mul(4));
        draft.crossings.push(place)?;
    }
    Ok(())
}

/// The column and the row of the crossing whose first dart this is.
fn place_of(lines: &DrawnLines, layout: &LinePlaces, root: usize) -> (u8, u8) {
    let leaves = lines.sphere.leaves(turned(root, 1));
    let over = turned(root, if leaves { 1 } else { 3 });
    let column = at(layout.columns.as_slice(), lines.behind(over, 0));
    let row = at(layout.rows.as_slice(), lines.behind(turned(root, 2), 0));
    (small(column), small(row))
}

/// A number that is to be below 256; else 255.
fn small(number: usize) -> u8 {
    if number < 256 { number as u8 } else { 255 }
}
