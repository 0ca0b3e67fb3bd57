//! Blocks, one and several: a quandle, and perhaps a cocycle of it, which may look at regions too.
ghost use Rattle.std.specs.Prelude.{◌≡◌, ◌≤◌, map, IfOk, IfErr};
ghost use Rattle.quandle_core.specs.declared.operations.TheConstants.{MAX_LARGE_ORDER};
ghost use Rattle.text_items.specs.Reading.{Gives};
ghost use Rattle.text_items.specs.Quandles.{built_in};
ghost use Rattle.text_items.specs.declared.fault.TextFault.TheVariants as fault;
ghost use Rattle.number_text.specs.Blocks.{alone, block_item, surplus_block, listed_blocks, blocks_or_built_in, blocks_of};

use crate::block_cocycles::perhaps_cocycle;
use evidence_core::Block;
use memory_core::Items;
use quandle_core::MAX_LARGE_ORDER;
use std::alloc::Global;
use text_items::reading::{next_line, text_end, word};
use text_items::{MAX_QUANDLES, TextFault, built_in, large_quandle_item, written_at};
use text_lines::Lines;
use verdict_core::{LargeListed, Listed};

/// A quandle, of an order of at most `most` if it is by a table, and perhaps a cocycle of the quandle after it.
/// Otherwise the fault of the first bad line, or `OutOfMemory`.
#[tactic(auto, unfolding(crate::specs::Blocks::block_item))]
pub fn block_item(alloc: Global, most: usize, lines: &mut Lines) -> Result<Block, TextFault>
    requires { most ≤ MAX_LARGE_ORDER }
    ensures { Gives (λ b. (b, lines.new)) result (block_item most lines.old) }
{
    let listed = large_quandle_item(alloc, most, lines)?;
    let cocycle = perhaps_cocycle(alloc, &listed, lines)?;
    Ok(Block { listed, cocycle })
}

/// The fault of one block more than a text may have.
#[tactic(auto, unfolding(crate::specs::Blocks::surplus_block))]
fn surplus_block(lines: &mut Lines) -> Result<Vec<Block>, TextFault>
    ensures { Gives (λ v. (v.items, lines.new)) result (surplus_block lines.old) }
{
    let mut line = next_line(lines)?;
    let at = line.number();
    word(&mut line, b"quandle")?;
    let _name = written_at(&mut line)?;
    Err(TextFault::Limit { line: at })
}

/// All blocks, up to the first line that follows a block and does not begin with `quandle`, of orders of at most `most` where they are by tables.
fn listed_blocks(alloc: Global, most: usize, lines: &mut Lines) -> Result<Vec<Block>, TextFault>
    requires { most ≤ MAX_LARGE_ORDER }
    ensures { Gives (λ v. (v.items, lines.new)) result (listed_blocks most MAX_QUANDLES lines.old) }
{
    let mut blocks = Vec::new(alloc);
    for _ in 0..MAX_QUANDLES {
        if !lines.begins(b"quandle") {
            return Ok(blocks);
        }
        blocks.push(block_item(alloc, most, lines)?)?;
    }
    if lines.begins(b"quandle") {
        return surplus_block(lines);
    }
    Ok(blocks)
}

/// The blocks that take the place of an empty list: the built-in quandles, each alone.
fn built_in_blocks(alloc: Global) -> Result<Vec<Block>, TextFault>
    ensures ok { IfOk result (λ v. v.items ≡ map alone built_in) }
    ensures err { IfErr result (λ e. e ≡ fault.OutOfMemory) }
{
    let quandles = built_in(alloc)?;
    let mut blocks = Vec::new(alloc);
    for listed in quandles.as_slice() {
        blocks.push(alone(alloc, listed)?)?;
    }
    Ok(blocks)
}

/// A quandle without a cocycle.
fn alone(alloc: Global, listed: &Listed) -> Result<Block, TextFault>
    ensures ok { IfOk result (λ b. b ≡ alone listed.now) }
    ensures err { IfErr result (λ e. e ≡ fault.OutOfMemory) }
{
    Ok(Block {
        listed: LargeListed::listed(alloc, listed)?,
        cocycle: None,
    })
}

/// The listed blocks, of orders of at most `MAX_LARGE_ORDER` where they are by tables, or the built-in quandles where there are none.
#[tactic(auto, unfolding(crate::specs::Blocks::blocks_or_built_in))]
pub(crate) fn blocks_or_built_in(
    alloc: Global,
    lines: &mut Lines,
) -> Result<Items<Block>, TextFault>
    ensures { Gives (λ b. (b, lines.new)) result (blocks_or_built_in lines.old) }
{
    let blocks = listed_blocks(alloc, MAX_LARGE_ORDER, lines)?;
    if blocks.is_empty() {
        return Ok(Items::from_vec(built_in_blocks(alloc)?));
    }
    Ok(Items::from_vec(blocks))
}

/// All blocks of a text of blocks alone, at most `MAX_QUANDLES`, of orders of at most `MAX_LARGE_ORDER` if they are by tables; a text without
/// blocks gives an empty list.
///
/// Otherwise the fault of the first bad line, or `OutOfMemory`.
#[tactic(auto, unfolding(crate::specs::Blocks::blocks_in))]
pub fn read_blocks(alloc: Global, bytes: &[u8]) -> Result<Items<Block>, TextFault>
    ensures { Gives (λ b. b) result (blocks_of bytes.now) }
{
    let mut lines = Lines::new(bytes);
    let blocks = listed_blocks(alloc, MAX_LARGE_ORDER, &mut lines)?;
    text_end(&mut lines)?;
    Ok(Items::from_vec(blocks))
}
