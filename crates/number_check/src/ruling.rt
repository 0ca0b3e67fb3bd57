//! The ruling on evidence by numbers.
ghost use Rattle.std.specs.Prelude.{◌≡◌, ◌↔◌, Some, None, IfOk, IfSome};
ghost use Rattle.grid_moves.specs.Joining.{Equivalent};
ghost use Rattle.quandle_core.specs.Quandle.{IsQuandle};
ghost use Rattle.colour_numbers.specs.Numbers.{IsCocycleOrNone};
ghost use Rattle.evidence_core.specs.declared.evidence.Evidence.TheVariants.{Numbers, Linking};
ghost use Rattle.number_check.specs.EvidenceHolds.{AreNumbersOf, EvidenceHolds};
ghost use Rattle.number_check.specs.Cause.{IsEvidenceCause};
ghost use Rattle.number_check.specs.Ruling.{RulesOnEvidence};

use crate::counts::{CountedGrid, cause_of_counts, said_on};
use evidence_core::{Block, Cause, Evidence, LargeWeighing, Linked, NumberRuling, cause_of_links};
use grid_core::Grid;
use memory_core::OutOfMemory;
use std::alloc::Global;

/// Whether evidence by numbers distinguishes two diagrams: accepted exactly where it holds, else rejected for the first cause.
///
/// `Numbers`: the seeds of each diagram settle it and have few choices of colours, the numbers are the diagram's own, and they differ.
/// `Linking`: the numbers of components and the linking numbers are the links' own, and differ. Where it is accepted, no list of moves joins the two.
pub fn rule(
    alloc: Global,
    first: &Grid,
    second: &Grid,
    evidence: &Evidence,
) -> Result<NumberRuling, OutOfMemory>
    ensures ruling { IfOk result (λ r. RulesOnEvidence first.now second.now evidence.now r) }
    ensures accepted { IfOk result (λ r. (r ≡ NumberRuling.Accepted) ↔ EvidenceHolds first.now second.now evidence.now) }
    ensures apart { IfOk result (λ r. r ≡ NumberRuling.Accepted → Equivalent first.now second.now → ⊥) }
{
    let ruling = ruled(alloc, first, second, evidence)?;
    Ok(ruling)
}

/// The ruling by the kind of evidence, of which `rule` proves the clause `accepted`.
fn ruled(
    alloc: Global,
    first: &Grid,
    second: &Grid,
    evidence: &Evidence,
) -> Result<NumberRuling, OutOfMemory>
    ensures ruling { IfOk result (λ r. RulesOnEvidence first.now second.now evidence.now r) }
    ensures apart { IfOk result (λ r. r ≡ NumberRuling.Accepted → Equivalent first.now second.now → ⊥) }
{
    match evidence {
        Evidence::Numbers {
            block,
            first: one,
            second: two,
        } => rule_counts(alloc, block, &said_on(first, one), &said_on(second, two)),
        Evidence::Linking {
            first: one,
            second: two,
        } => rule_links(alloc, first, second, one, two),
    }
}

/// The ruling on numbers of colourings.
fn rule_counts(
    alloc: Global,
    block: &Block,
    one: &CountedGrid<'_>,
    two: &CountedGrid<'_>,
) -> Result<NumberRuling, OutOfMemory>
    ensures ruling { IfOk result (λ r. RulesOnEvidence one.now.grid.now two.now.grid.now (Numbers block.now one.now.counted.now two.now.counted.now) r) }
    ensures apart { IfOk result (λ r. r ≡ NumberRuling.Accepted → Equivalent one.now.grid.now two.now.grid.now → ⊥) }
{
    laws_of(block);
    if let Some(cause) = cause_of_both(alloc, block, one, two)? {
        return Ok(NumberRuling::Rejected(cause));
    }
    if one.counted.numbers.as_slice() == two.counted.numbers.as_slice() {
        return Ok(NumberRuling::Rejected(Cause::Equal));
    }
    Ok(NumberRuling::Accepted)
}

/// Why what is said of the numbers of two diagrams does not hold: the first cause of the first diagram, else that of the second, if there is one.
fn cause_of_both(
    alloc: Global,
    block: &Block,
    one: &CountedGrid<'_>,
    two: &CountedGrid<'_>,
) -> Result<Option<Cause>, OutOfMemory>
    ensures some { IfOk result (λ o. IfSome o (λ cause.
        IsEvidenceCause one.now.grid.now two.now.grid.now (Numbers block.now one.now.counted.now two.now.counted.now) cause)) }
    ensures first { IfOk result (λ o. o ≡ None → AreNumbersOf block.now one.now.grid.now one.now.counted.now) }
    ensures second { IfOk result (λ o. o ≡ None → AreNumbersOf block.now two.now.grid.now two.now.counted.now) }
{
    if let Some(cause) = cause_of_counts(alloc, 1, block, one)? {
        return Ok(Some(cause));
    }
    if let Some(cause) = cause_of_counts(alloc, 2, block, two)? {
        return Ok(Some(cause));
    }
    Ok(None)
}

/// Gives proofs the facts that a block's quandle is a quandle and its cocycle, if it has one, a cocycle. It does nothing.
pub fn laws_of(block: &Block)
    ensures quandle { IsQuandle block.now.listed.table }
    ensures cocycle { IsCocycleOrNone block.now.cocycle }
{
    let quandle = block.listed.operations();
    let _order = quandle.order();
    match &block.cocycle {
        None => {}
        Some(cocycle) => laws_of_cocycle(cocycle),
    }
}

/// Gives proofs the fact that a cocycle has the laws of its kind. It does nothing.
fn laws_of_cocycle(cocycle: &LargeWeighing)
    ensures { IsCocycleOrNone (Some cocycle.now) }
{
    match cocycle {
        LargeWeighing::Strands(cocycle) => {
            let values = cocycle.values();
            let _modulus = values.modulus();
        }
        LargeWeighing::Regions(shadow) => {
            let _modulus = shadow.cocycle.modulus();
        }
    }
}

/// The ruling on linking numbers.
fn rule_links(
    alloc: Global,
    first: &Grid,
    second: &Grid,
    one: &Linked,
    two: &Linked,
) -> Result<NumberRuling, OutOfMemory>
    ensures ruling { IfOk result (λ r. RulesOnEvidence first.now second.now (Linking one.now two.now) r) }
    ensures apart { IfOk result (λ r. r ≡ NumberRuling.Accepted → Equivalent first.now second.now → ⊥) }
{
    match cause_of_links(alloc, first, second, one, two)? {
        Some(cause) => Ok(NumberRuling::Rejected(cause)),
        None => Ok(NumberRuling::Accepted),
    }
}
