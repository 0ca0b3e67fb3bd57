//! The text of a diagram and the blocks by which its colourings are to be counted.
ghost use Rattle.std.specs.Prelude.{◌≡◌};
ghost use Rattle.text_items.specs.Reading.{Gives};
ghost use Rattle.number_text.specs.Numbered.{numbers_of};

use crate::blocks::blocks_or_built_in;
use evidence_core::Block;
use memory_core::Items;
use std::alloc::Global;
use text_items::TextFault;
use text_items::reading::text_end;
use text_lines::Lines;
use verdict_core::Diagram;
use verdict_text::diagram_item;

/// A diagram, and the blocks by which its colourings are to be counted.
#[derive(Drop)]
pub struct NumbersText {
    pub diagram: Diagram,
    pub blocks: Items<Block>,
}

/// A diagram and at most `MAX_QUANDLES` blocks, of at most `MAX_LARGE_ORDER` colours where they are by tables; without blocks the built-in
/// quandles are taken, each alone.
///
/// Otherwise the fault of the first bad line, or `OutOfMemory`.
#[tactic(auto, unfolding(crate::specs::Numbered::numbers_in))]
pub fn read_numbers(alloc: Global, bytes: &[u8]) -> Result<NumbersText, TextFault>
    ensures { Gives (λ n. n) result (numbers_of bytes.now) }
{
    let mut lines = Lines::new(bytes);
    let diagram = diagram_item(alloc, &mut lines)?;
    let blocks = blocks_or_built_in(alloc, &mut lines)?;
    text_end(&mut lines)?;
    Ok(NumbersText { diagram, blocks })
}
