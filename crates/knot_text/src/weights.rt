//! Two diagrams, a quandle and a 2-cocycle of it: what the definitions of `specs/Weights.antt` and the laws above speak of. The job reads by
//! `number_text`, which takes a cocycle of either kind.
ghost use Rattle.std.specs.Prelude.{◌≡◌};
ghost use Rattle.text_items.specs.Reading.{Gives};
ghost use Rattle.knot_text.specs.Weights.{weight_of};

use cocycle_core::Cocycle;
use std::alloc::Global;
use text_items::reading::text_end;
use text_items::{TextFault, quandle_item};
use text_lines::Lines;
use verdict_core::{Diagram, Listed};
use verdict_text::{cocycle_item, diagram_item};

/// Two diagrams, a quandle, and a cocycle of this quandle by which the colourings of both are to be weighed.
#[derive(Drop)]
pub struct WeightText {
    pub first: Diagram,
    pub second: Diagram,
    pub listed: Listed,
    pub cocycle: Cocycle,
}

/// Two diagrams, a quandle and a 2-cocycle of it, and nothing after them. Otherwise the fault of the first bad line, or `OutOfMemory`.
#[tactic(auto, unfolding(crate::specs::Weights::weight_in))]
pub fn read_weights(alloc: Global, bytes: &[u8]) -> Result<WeightText, TextFault>
    ensures { Gives (λ w. w) result (weight_of bytes.now) }
{
    let mut lines = Lines::new(bytes);
    let first = diagram_item(alloc, &mut lines)?;
    let second = diagram_item(alloc, &mut lines)?;
    let listed = quandle_item(alloc, &mut lines)?;
    let cocycle = cocycle_item(alloc, listed.quandle(), &mut lines)?;
    text_end(&mut lines)?;
    Ok(WeightText {
        first,
        second,
        listed,
        cocycle,
    })
}
