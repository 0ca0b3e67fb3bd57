//! The text of two braids and steps between them.
ghost use Rattle.std.specs.Prelude.{◌≡◌};
ghost use Rattle.text_items.specs.Reading.{Gives};
ghost use Rattle.knot_text.specs.BraidChecks.{braidcheck_of};

use crate::braid_steps::steps_item;
use braid_core::Braid;
use braid_moves::BraidMove;
use memory_core::Items;
use std::alloc::Global;
use text_items::reading::text_end;
use text_items::{TextFault, braid_item};
use text_lines::Lines;

/// Two braids, and the steps that are to lead from the first to the second.
#[derive(Drop)]
pub struct BraidCheckText {
    pub first: Braid,
    pub second: Braid,
    pub steps: Items<BraidMove>,
}

/// Two braids and the steps between them, and nothing after them. Otherwise the fault of the first bad line, or `OutOfMemory`.
/// Whether the steps are legal and where they lead is not checked.
#[tactic(auto, unfolding(crate::specs::BraidChecks::braidcheck_in))]
pub fn read_braidcheck(alloc: Global, bytes: &[u8]) -> Result<BraidCheckText, TextFault>
    ensures { Gives (λ b. b) result (braidcheck_of bytes.now) }
{
    let mut lines = Lines::new(bytes);
    let first = braid_item(alloc, &mut lines)?;
    let second = braid_item(alloc, &mut lines)?;
    let steps = steps_item(alloc, &mut lines)?;
    text_end(&mut lines)?;
    Ok(BraidCheckText {
        first,
        second,
        steps: Items::from_vec(steps),
    })
}
