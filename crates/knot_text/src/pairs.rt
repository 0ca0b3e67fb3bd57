//! The text of two diagrams.
ghost use Rattle.std.specs.Prelude.{◌≡◌};
ghost use Rattle.text_items.specs.Reading.{Gives};
ghost use Rattle.knot_text.specs.Pairs.{pair_of};

use std::alloc::Global;
use text_items::TextFault;
use text_items::reading::text_end;
use text_lines::Lines;
use verdict_core::Diagram;
use verdict_text::diagram_item;

/// Two diagrams, and nothing after them. Otherwise the fault of the first bad line, or `OutOfMemory`.
#[tactic(auto, unfolding(crate::specs::Pairs::pair_in))]
pub fn read_pair(alloc: Global, bytes: &[u8]) -> Result<(Diagram, Diagram), TextFault>
    ensures { Gives (λ p. p) result (pair_of bytes.now) }
{
    let mut lines = Lines::new(bytes);
    let first = diagram_item(alloc, &mut lines)?;
    let second = diagram_item(alloc, &mut lines)?;
    text_end(&mut lines)?;
    Ok((first, second))
}
