//! Rows of a table, and pairs of its classes that are left open.
ghost use Rattle.std.specs.Prelude.{◌≡◌, ◌<◌, IfOk};
ghost use Rattle.std.specs.List.{All};
ghost use Rattle.text_items.specs.Reading.{Gives, in_turn};
ghost use Rattle.table_check.specs.Tables.{pair_at, pair_item, left_item, class_at, row_item, knot_rows_item};

use crate::heads::how_many;
use grid_moves::Move;
use memory_core::Items;
use std::alloc::Global;
use text_items::TextFault;
use text_items::reading::{MAX_NUMBER, at_most, last_count, last_number, next_line, number, word};
use text_lines::{Line, Lines};
use verdict_core::Diagram;
use verdict_text::{diagram_item, moves_item};

/// Two classes that are left open: whether they are the same isn't said. They are counted from 0, and the first is the lesser.
#[derive(Clone, Copy, PartialEq, Eq)]
pub struct OpenPair {
    pub first: u32,
    pub second: u32,
}

/// A row of a table: a diagram, its class, counted from 0, and moves to the diagram that represents the class.
#[derive(Drop)]
pub struct KnotRow {
    pub diagram: Diagram,
    pub class: u32,
    pub moves: Items<Move>,
}

/// The word `classes`, and two different numbers of classes, the lesser first.
#[tactic(auto, unfolding(crate::specs::Tables::pair_at))]
fn pair_at(classes: usize, line: &mut Line) -> Result<OpenPair, TextFault>
    ensures { Gives (λ p. p) result (pair_at classes line.old) }
{
    let at = line.number();
    word(line, b"classes")?;
    let first = number(line)?;
    let second = last_number(line)?;
    let low = at_most(MAX_NUMBER, line, first)?;
    let high = at_most(MAX_NUMBER, line, second)?;
    if low < high && (high as usize) < classes {
        Ok(OpenPair {
            first: low,
            second: high,
        })
    } else {
        Err(TextFault::Malformed { line: at })
    }
}

/// A line of two classes.
#[tactic(auto, unfolding(crate::specs::Tables::pair_item))]
fn pair_item(classes: usize, lines: &mut Lines) -> Result<OpenPair, TextFault>
    ensures { Gives (λ p. (p, lines.new)) result (pair_item classes lines.old) }
{
    let mut line = next_line(lines)?;
    pair_at(classes, &mut line)
}

/// So many lines of two classes.
fn pair_items(
    alloc: Global,
    count: u32,
    classes: usize,
    lines: &mut Lines,
) -> Result<Vec<OpenPair>, TextFault>
    ensures { Gives (λ v. (v.items, lines.new)) result (in_turn (pair_item classes) count lines.old) }
{
    let mut pairs = Vec::new(alloc);
    for _ in 0..count {
        pairs.push(pair_item(classes, lines)?)?;
    }
    Ok(pairs)
}

/// The number of pairs that are left open, and the pairs.
#[tactic(auto, unfolding(crate::specs::Tables::left_item))]
pub(crate) fn left_item(
    alloc: Global,
    classes: usize,
    lines: &mut Lines,
) -> Result<Vec<OpenPair>, TextFault>
    ensures { Gives (λ v. (v.items, lines.new)) result (left_item classes lines.old) }
{
    let count = how_many(b"open", lines)?;
    pair_items(alloc, count, classes, lines)
}

/// The word `class`, and the number of a class.
#[tactic(auto, unfolding(crate::specs::Tables::class_at))]
fn class_at(classes: usize, line: &mut Line) -> Result<u32, TextFault>
    ensures read { Gives (λ c. c) result (class_at classes line.old) }
    ensures known { IfOk result (λ c. c < classes) }
{
    let at = line.number();
    word(line, b"class")?;
    let class = last_count(line)?;
    if (class as usize) < classes {
        Ok(class)
    } else {
        Err(TextFault::Malformed { line: at })
    }
}

/// A row.
#[tactic(auto, unfolding(crate::specs::Tables::row_item))]
fn row_item(alloc: Global, classes: usize, lines: &mut Lines) -> Result<KnotRow, TextFault>
    ensures read { Gives (λ r. (r, lines.new)) result (row_item classes lines.old) }
    ensures known { IfOk result (λ r. r.class < classes) }
{
    let diagram = diagram_item(alloc, lines)?;
    let mut line = next_line(lines)?;
    let class = class_at(classes, &mut line)?;
    let moves = moves_item(alloc, lines)?;
    Ok(KnotRow {
        diagram,
        class,
        moves: Items::from_vec(moves),
    })
}

/// So many rows.
fn row_items(
    alloc: Global,
    count: u32,
    classes: usize,
    lines: &mut Lines,
) -> Result<Vec<KnotRow>, TextFault>
    ensures read { Gives (λ v. (v.items, lines.new)) result (in_turn (row_item classes) count lines.old) }
    ensures known { IfOk result (λ v. All (λ r. r.class < classes) v.items) }
{
    let mut rows = Vec::new(alloc);
    for _ in 0..count {
        rows.push(row_item(alloc, classes, lines)?)?;
    }
    Ok(rows)
}

/// The number of rows, and the rows.
#[tactic(auto, unfolding(crate::specs::Tables::knot_rows_item))]
pub(crate) fn rows_item(
    alloc: Global,
    classes: usize,
    lines: &mut Lines,
) -> Result<Vec<KnotRow>, TextFault>
    ensures read { Gives (λ v. (v.items, lines.new)) result (knot_rows_item classes lines.old) }
    ensures known { IfOk result (λ v. All (λ r. r.class < classes) v.items) }
{
    let count = how_many(b"rows", lines)?;
    row_items(alloc, count, classes, lines)
}
