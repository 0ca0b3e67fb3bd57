//! A table of knots, whole.
ghost use Rattle.std.specs.Prelude.{◌≡◌, IfOk};
ghost use Rattle.text_items.specs.Reading.{Gives, in_turn};
ghost use Rattle.number_text.specs.Blocks.{block_item};
ghost use Rattle.quandle_core.specs.declared.operations.TheConstants.{MAX_LARGE_ORDER};
ghost use Rattle.table_check.specs.Tables.{is_fourth_line, begins_table, fourth_at, blocks_item, knot_table_of, RowsHaveClasses};

use crate::class_items::{Class, classes_item};
use crate::row_items::{KnotRow, OpenPair, left_item, rows_item};
use evidence_core::Block;
use memory_core::Items;
use number_text::block_item;
use quandle_core::MAX_LARGE_ORDER;
use std::alloc::Global;
use text_items::reading::{at_most, last_count, last_number, next_line, text_end, word};
use text_items::{MAX_QUANDLES, TextFault};
use text_lines::{Line, Lines};

/// The number in the head line of a table.
pub const FOURTH_VERSION: u32 = 4;

/// A table of knots: blocks, classes, pairs of classes that are left open, and rows.
#[derive(Drop)]
pub struct KnotTable {
    pub blocks: Items<Block>,
    pub classes: Items<Class>,
    pub left: Items<OpenPair>,
    pub rows: Items<KnotRow>,
}

/// Whether a line is `certificate 4`.
fn is_fourth_line(line: &mut Line) -> bool
    ensures { result ≡ is_fourth_line line.old.tokens }
{
    let Some(word) = line.next_token() else {
        return false;
    };
    let Some(version) = line.next_token() else {
        return false;
    };
    word == b"certificate".as_slice() && version == b"4".as_slice() && line.next_token().is_none()
}

/// Whether the first line that isn't skipped is `certificate 4`.
pub fn begins_table(bytes: &[u8]) -> bool
    ensures { result ≡ begins_table bytes.now }
{
    let mut lines = Lines::new(bytes);
    match lines.next_line() {
        Some(mut line) => is_fourth_line(&mut line),
        None => false,
    }
}

/// The line `certificate 4`.
#[tactic(auto, unfolding(crate::specs::Tables::fourth_at))]
fn fourth_at(line: &mut Line) -> Result<(), TextFault>
    ensures { Gives (λ _. tt) result (fourth_at line.old) }
{
    let number = line.number();
    word(line, b"certificate")?;
    if last_count(line)? == FOURTH_VERSION {
        Ok(())
    } else {
        Err(TextFault::Malformed { line: number })
    }
}

/// So many blocks, of orders of at most `MAX_LARGE_ORDER`.
fn block_items(alloc: Global, count: u32, lines: &mut Lines) -> Result<Vec<Block>, TextFault>
    ensures { Gives (λ v. (v.items, lines.new)) result (in_turn (block_item MAX_LARGE_ORDER) count lines.old) }
{
    let mut blocks = Vec::new(alloc);
    for _ in 0..count {
        blocks.push(block_item(alloc, MAX_LARGE_ORDER, lines)?)?;
    }
    Ok(blocks)
}

/// The number of blocks, at most `MAX_QUANDLES`, and the blocks.
#[tactic(auto, unfolding(crate::specs::Tables::blocks_item))]
fn blocks_item(alloc: Global, lines: &mut Lines) -> Result<Vec<Block>, TextFault>
    ensures { Gives (λ v. (v.items, lines.new)) result (blocks_item lines.old) }
{
    let mut line = next_line(lines)?;
    word(&mut line, b"blocks")?;
    let count = last_number(&mut line)?;
    let few = at_most(MAX_QUANDLES as u32, &line, count)?;
    block_items(alloc, few, lines)
}

/// A table of knots, after its head line. Otherwise the fault of the first bad line, or `OutOfMemory`. The class of each row is one of the table's.
#[tactic(auto, unfolding(crate::specs::Tables::table_in))]
pub fn read_table(alloc: Global, bytes: &[u8]) -> Result<KnotTable, TextFault>
    ensures read { Gives (λ t. t) result (knot_table_of bytes.now) }
    ensures known { IfOk result (λ t. RowsHaveClasses t) }
{
    let mut lines = Lines::new(bytes);
    let mut head = next_line(&mut lines)?;
    fourth_at(&mut head)?;
    let blocks = blocks_item(alloc, &mut lines)?;
    let classes = classes_item(alloc, blocks.as_slice(), &mut lines)?;
    let left = left_item(alloc, classes.len(), &mut lines)?;
    let rows = rows_item(alloc, classes.len(), &mut lines)?;
    text_end(&mut lines)?;
    Ok(KnotTable {
        blocks: Items::from_vec(blocks),
        classes: Items::from_vec(classes),
        left: Items::from_vec(left),
        rows: Items::from_vec(rows),
    })
}
