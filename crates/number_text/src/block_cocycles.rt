//! What may follow the quandle of a block: a cocycle of it, which may look at regions too.
ghost use Rattle.std.specs.Prelude.{◌≡◌};
ghost use Rattle.text_items.specs.Reading.{Gives};
ghost use Rattle.number_text.specs.BlockCocycles.{cocycle_or_none};

use crate::shadows::shadow_item;
use evidence_core::LargeWeighing;
use quandle_core::Operations;
use std::alloc::Global;
use text_items::TextFault;
use text_lines::Lines;
use verdict_core::LargeListed;
use verdict_text::large_cocycle_item;

/// What `perhaps_cocycle` reads, by the operations of the quandle.
#[tactic(auto, unfolding(crate::specs::BlockCocycles::cocycle_or_none))]
fn cocycle_or_none(
    alloc: Global,
    quandle: &Operations,
    lines: &mut Lines,
) -> Result<Option<LargeWeighing>, TextFault>
    ensures { Gives (λ c. (c, lines.new)) result (cocycle_or_none quandle.now lines.old) }
{
    if lines.begins(b"weight") {
        let cocycle = large_cocycle_item(alloc, quandle, lines)?;
        return Ok(Some(LargeWeighing::Strands(cocycle)));
    }
    if lines.begins(b"shadow") {
        let shadow = shadow_item(alloc, quandle, lines)?;
        return Ok(Some(LargeWeighing::Regions(shadow)));
    }
    Ok(None)
}

/// A cocycle of a block's quandle: a 2-cocycle if the next line begins with `weight`, a shadow cocycle if it begins with `shadow`; or nothing.
/// Otherwise the fault of the first bad line, or `OutOfMemory`.
pub fn perhaps_cocycle(
    alloc: Global,
    listed: &LargeListed,
    lines: &mut Lines,
) -> Result<Option<LargeWeighing>, TextFault>
    ensures { Gives (λ c. (c, lines.new)) result (cocycle_or_none listed.now.table lines.old) }
{
    let operations = listed.operations();
    cocycle_or_none(alloc, &operations, lines)
}
