//! Evidence by numbers, as it is read from the line `certificate 3` on.
ghost use Rattle.std.specs.Prelude.{◌≡◌};
ghost use Rattle.text_items.specs.Reading.{Gives};
ghost use Rattle.number_text.specs.EvidenceItems.{numbers_evidence, linking_evidence, evidence_at, head_at, evidence_item, count_of};

use crate::block_cocycles::perhaps_cocycle;
use crate::number_lines::{linked_item, seeded_numbers_item};
use evidence_core::{Block, Evidence, LargeWeighing};
use quandle_core::MAX_LARGE_ORDER;
use std::alloc::Global;
use text_items::reading::{last_count, line_end, next_line, next_token, word};
use text_items::{TextFault, large_quandle_at};
use text_lines::{Line, Lines};

/// The number in the head line of evidence by numbers.
pub const THIRD_VERSION: u32 = 3;

/// How many numbers a diagram has: one, or as many as the modulus.
pub fn count_of(cocycle: &Option<LargeWeighing>) -> u8
    ensures { result ≡ count_of cocycle.now }
{
    match cocycle {
        None => 1,
        Some(LargeWeighing::Strands(cocycle)) => cocycle.values().modulus(),
        Some(LargeWeighing::Regions(shadow)) => shadow.cocycle.modulus(),
    }
}

/// A quandle, perhaps a cocycle of it, and the seeds and numbers of two diagrams.
#[tactic(auto, unfolding(crate::specs::EvidenceItems::numbers_evidence))]
fn numbers_evidence(
    alloc: Global,
    line: &mut Line,
    lines: &mut Lines,
) -> Result<Evidence, TextFault>
    ensures { Gives (λ e. (e, lines.new)) result (numbers_evidence line.old lines.old) }
{
    let listed = large_quandle_at(alloc, MAX_LARGE_ORDER, line, lines)?;
    let cocycle = perhaps_cocycle(alloc, &listed, lines)?;
    let count = count_of(&cocycle);
    let first = seeded_numbers_item(alloc, count, lines)?;
    let second = seeded_numbers_item(alloc, count, lines)?;
    Ok(Evidence::Numbers {
        block: Block { listed, cocycle },
        first,
        second,
    })
}

/// The components and linking numbers of two diagrams.
#[tactic(auto, unfolding(crate::specs::EvidenceItems::linking_evidence))]
fn linking_evidence(
    alloc: Global,
    line: &mut Line,
    lines: &mut Lines,
) -> Result<Evidence, TextFault>
    ensures { Gives (λ e. (e, lines.new)) result (linking_evidence line.old lines.old) }
{
    line_end(line)?;
    let first = linked_item(alloc, lines)?;
    let second = linked_item(alloc, lines)?;
    Ok(Evidence::Linking { first, second })
}

/// The word `different`, the kind of numbers, and the numbers.
#[tactic(auto, unfolding(crate::specs::EvidenceItems::evidence_at))]
fn evidence_at(alloc: Global, line: &mut Line, lines: &mut Lines) -> Result<Evidence, TextFault>
    ensures { Gives (λ e. (e, lines.new)) result (evidence_at line.old lines.old) }
{
    word(line, b"different")?;
    let kind = next_token(line)?;
    if kind == b"numbers".as_slice() {
        numbers_evidence(alloc, line, lines)
    } else if kind == b"linking".as_slice() {
        linking_evidence(alloc, line, lines)
    } else {
        Err(TextFault::Malformed {
            line: line.number(),
        })
    }
}

/// The line `certificate 3`.
#[tactic(auto, unfolding(crate::specs::EvidenceItems::head_at))]
fn head_at(line: &mut Line) -> Result<(), TextFault>
    ensures { Gives (λ _. tt) result (head_at line.old) }
{
    let number = line.number();
    word(line, b"certificate")?;
    if last_count(line)? == THIRD_VERSION {
        Ok(())
    } else {
        Err(TextFault::Malformed { line: number })
    }
}

/// The line `certificate 3`, and the evidence by numbers after it. Otherwise the fault of the first bad line, or `OutOfMemory`.
#[tactic(auto, unfolding(crate::specs::EvidenceItems::evidence_item))]
pub fn evidence_item(alloc: Global, lines: &mut Lines) -> Result<Evidence, TextFault>
    ensures { Gives (λ e. (e, lines.new)) result (evidence_item lines.old) }
{
    let mut head = next_line(lines)?;
    head_at(&mut head)?;
    let mut line = next_line(lines)?;
    evidence_at(alloc, &mut line, lines)
}
