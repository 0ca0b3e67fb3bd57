//! The text of two diagrams, a quandle and a cocycle of it, which may look at regions.
ghost use Rattle.std.specs.Prelude.{◌≡◌};
ghost use Rattle.text_items.specs.Reading.{Gives};
ghost use Rattle.number_text.specs.Shadows.{shadow_item};
ghost use Rattle.number_text.specs.Weighed.{cocycle_due, weighed_of};

use crate::shadows::shadow_item;
use cocycle_core::Cocycle;
use evidence_core::SpelledShadow;
use quandle_core::Quandle;
use std::alloc::Global;
use text_items::reading::text_end;
use text_items::{TextFault, quandle_item};
use text_lines::Lines;
use verdict_core::{Diagram, Listed};
use verdict_text::{cocycle_item, diagram_item};

/// A cocycle by which colourings are to be weighed.
#[derive(Drop)]
pub enum Weighing {
    /// A 2-cocycle, written after the word `weight`: it looks at the two strands of a crossing.
    Strands(Cocycle),
    /// A shadow cocycle, written after the word `shadow`: it looks at a region too.
    Regions(SpelledShadow),
}

/// Two diagrams, a quandle, and a cocycle of this quandle by which the colourings of both are to be weighed.
#[derive(Drop)]
pub struct WeighedText {
    pub first: Diagram,
    pub second: Diagram,
    pub listed: Listed,
    pub cocycle: Weighing,
}

/// A cocycle of a quandle: a shadow cocycle where a line that begins with `shadow` is next, else a 2-cocycle.
#[tactic(auto, unfolding(crate::specs::Weighed::cocycle_due))]
fn cocycle_due(alloc: Global, quandle: &Quandle, lines: &mut Lines) -> Result<Weighing, TextFault>
    ensures { Gives (λ c. (c, lines.new)) result (cocycle_due quandle.now lines.old) }
{
    if lines.begins(b"shadow") {
        return Ok(Weighing::Regions(shadow_due(alloc, quandle, lines)?));
    }
    Ok(Weighing::Strands(cocycle_item(alloc, quandle, lines)?))
}

/// A shadow cocycle of a quandle.
fn shadow_due(
    alloc: Global,
    quandle: &Quandle,
    lines: &mut Lines,
) -> Result<SpelledShadow, TextFault>
    ensures { Gives (λ s. (s, lines.new)) result (shadow_item quandle.now lines.old) }
{
    let operations = quandle.operations();
    shadow_item(alloc, &operations, lines)
}

/// Two diagrams, a quandle item, and a cocycle of this quandle of either kind. Nothing follows them.
///
/// Otherwise the fault of the first bad line, or `OutOfMemory`. A table that fails a law of cocycles is malformed at its last line.
#[tactic(auto, unfolding(crate::specs::Weighed::weighed_in))]
pub fn read_weighed(alloc: Global, bytes: &[u8]) -> Result<WeighedText, TextFault>
    ensures { Gives (λ w. w) result (weighed_of bytes.now) }
{
    let mut lines = Lines::new(bytes);
    let first = diagram_item(alloc, &mut lines)?;
    let second = diagram_item(alloc, &mut lines)?;
    let listed = quandle_item(alloc, &mut lines)?;
    let cocycle = cocycle_due(alloc, listed.quandle(), &mut lines)?;
    text_end(&mut lines)?;
    Ok(WeighedText {
        first,
        second,
        listed,
        cocycle,
    })
}
