//! Classes of a table: a diagram, its seeds, and its numbers by each block.
ghost use Rattle.std.specs.Prelude.{◌≡◌};
ghost use Rattle.text_items.specs.Reading.{Gives, in_turn};
ghost use Rattle.table_check.specs.Tables.{numbers_item, wide_item, count_item, counts_item, class_item, classes_item};

use crate::heads::how_many;
use evidence_core::Block;
use grid_core::Rows;
use memory_core::Items;
use number_text::{count_of, numbers_line_at, seeds_at};
use std::alloc::Global;
use text_items::TextFault;
use text_items::reading::{last_count, next_line, word};
use text_lines::Lines;
use verdict_core::Diagram;
use verdict_text::diagram_item;

/// A class of a table: the diagram that represents it, columns that are to settle this diagram, and for each block how many colourings
/// the diagram is said to have, if it's said: one number, or one for each weight.
#[derive(Drop)]
pub struct Class {
    pub diagram: Diagram,
    pub seeds: Rows,
    pub counts: Items<Option<Items<u32>>>,
}

/// The word `numbers`, and so many numbers.
#[tactic(auto, unfolding(crate::specs::Tables::numbers_item))]
fn numbers_item(alloc: Global, due: u8, lines: &mut Lines) -> Result<Option<Items<u32>>, TextFault>
    ensures { Gives (λ c. (c, lines.new)) result (numbers_item due lines.old) }
{
    let mut line = next_line(lines)?;
    let list = numbers_line_at(alloc, due, &mut line)?;
    Ok(Some(Items::from_vec(list)))
}

/// The word `wide` and a number, in place of numbers.
#[tactic(auto, unfolding(crate::specs::Tables::wide_item))]
fn wide_item(lines: &mut Lines) -> Result<Option<Items<u32>>, TextFault>
    ensures { Gives (λ c. (c, lines.new)) result (wide_item lines.old) }
{
    let mut line = next_line(lines)?;
    word(&mut line, b"wide")?;
    let _seeds = last_count(&mut line)?;
    Ok(None)
}

/// What is said of a diagram by one block.
#[tactic(auto, unfolding(crate::specs::Tables::count_item))]
fn count_item(alloc: Global, due: u8, lines: &mut Lines) -> Result<Option<Items<u32>>, TextFault>
    ensures { Gives (λ c. (c, lines.new)) result (count_item due lines.old) }
{
    if lines.begins(b"wide") {
        wide_item(lines)
    } else {
        numbers_item(alloc, due, lines)
    }
}

/// What is said of a diagram by each block.
fn counts_item(
    alloc: Global,
    blocks: &[Block],
    lines: &mut Lines,
) -> Result<Vec<Option<Items<u32>>>, TextFault>
    ensures { Gives (λ v. (v.items, lines.new)) result (counts_item blocks.now lines.old) }
{
    let mut counts = Vec::new(alloc);
    for block in blocks {
        counts.push(count_item(alloc, count_of(&block.cocycle), lines)?)?;
    }
    Ok(counts)
}

/// A class.
#[tactic(auto, unfolding(crate::specs::Tables::class_item))]
fn class_item(alloc: Global, blocks: &[Block], lines: &mut Lines) -> Result<Class, TextFault>
    ensures { Gives (λ c. (c, lines.new)) result (class_item blocks.now lines.old) }
{
    let diagram = diagram_item(alloc, lines)?;
    let mut line = next_line(lines)?;
    let seeds = seeds_at(&mut line)?;
    let counts = counts_item(alloc, blocks, lines)?;
    Ok(Class {
        diagram,
        seeds,
        counts: Items::from_vec(counts),
    })
}

/// So many classes.
fn class_items(
    alloc: Global,
    count: u32,
    blocks: &[Block],
    lines: &mut Lines,
) -> Result<Vec<Class>, TextFault>
    ensures { Gives (λ v. (v.items, lines.new)) result (in_turn (class_item blocks.now) count lines.old) }
{
    let mut classes = Vec::new(alloc);
    for _ in 0..count {
        classes.push(class_item(alloc, blocks, lines)?)?;
    }
    Ok(classes)
}

/// The number of classes, and the classes.
#[tactic(auto, unfolding(crate::specs::Tables::classes_item))]
pub(crate) fn classes_item(
    alloc: Global,
    blocks: &[Block],
    lines: &mut Lines,
) -> Result<Vec<Class>, TextFault>
    ensures { Gives (λ v. (v.items, lines.new)) result (classes_item blocks.now lines.old) }
{
    let count = how_many(b"classes", lines)?;
    class_items(alloc, count, blocks, lines)
}
