//! The job `weights`: the weights of the colourings of two diagrams by a cocycle of either kind, and whether they differ.
ghost use Rattle.std.specs.Prelude.{◌≡◌, ◌≢◌, true, IfOk};
ghost use Rattle.grid_moves.specs.Joining.{Equivalent};
ghost use Rattle.colour_list.specs.Fits.{fits};
ghost use Rattle.colour_weights.specs.Weights.{weights};
ghost use Rattle.colour_weights.specs.ShadowWeights.{shadow_weights};
ghost use Rattle.grid_core.specs.Diagram.{Diagram as Marks};
ghost use Rattle.verdict_core.specs.Diagrams.{grid_of};
ghost use Rattle.number_text.specs.Weighed.{weighed_of};
ghost use Rattle.plain_jobs.specs.Comparison.{EndsDifferent};
ghost use Rattle.reply_text.specs.Reply.{AnswersRead};
ghost use Rattle.plain_jobs.specs.Jobs.Weights.{weights_by, table_by, weighed_text, wide_diagram_line, weights_text, AnswersWeights};
ghost use Rattle.plain_jobs.specs.TextTruth.{IsTrueWeighing};

use crate::comparison::push_comparison;
use certificates::push_labelled_line;
use cocycle_core::Cocycle;
use colour_list::{ListFault, fits};
use colour_weights::{ShadowCocycle, shadow_weights, weights};
use grid_core::Grid;
use knot_ports::Status;
use number_text::{WeighedText, Weighing, read_weighed};
use quandle_core::Quandle;
use reply_text::PlainReply;
use std::alloc::{AllocError, Global};
use text_lines::push_paired;
use weight_laws::shadows::equivalent_diagrams_have_equal_shadow_weights;
use weight_laws::weights::equivalent_diagrams_have_equal_weights;

/// The answer to the bytes of two diagrams, a quandle and a cocycle.
pub(crate) fn answer(alloc: Global, bytes: &[u8]) -> Result<PlainReply, AllocError>
    ensures answer { IfOk result (λ reply. AnswersRead AnswersWeights (weighed_of bytes.now) reply) }
    ensures claim { IfOk result (λ reply. reply.status ≡ Status.Done → IsTrueWeighing bytes.now reply.text) }
{
    match read_weighed(alloc, bytes) {
        Ok(input) => answer_input(alloc, &input),
        Err(fault) => PlainReply::to_fault(alloc, fault),
    }
}

/// The answer to two diagrams, a quandle and a cocycle.
fn answer_input(alloc: Global, input: &WeighedText) -> Result<PlainReply, AllocError>
    ensures answer { IfOk result (λ reply. AnswersWeights input.now reply) }
    ensures claim { IfOk result (λ reply. EndsDifferent reply.text → Equivalent (grid_of input.now.first) (grid_of input.now.second) → ⊥) }
{
    laws_of(&input.cocycle);
    let first = input.first.grid();
    let second = input.second.grid();
    let text = weights_text(alloc, &first, &second, &input.cocycle)?;
    Ok(PlainReply::new(Status::Done, text))
}

/// The text of two grids and a cocycle: the first grid that its quandle does not fit, or the weights of both.
fn weights_text(
    alloc: Global,
    first: &Grid,
    second: &Grid,
    cocycle: &Weighing,
) -> Result<Vec<u8>, AllocError>
    ensures text { IfOk result (λ v. v.items ≡ weights_text cocycle.now first.now second.now) }
    ensures apart { IfOk result (λ v. EndsDifferent v.items → weights_by cocycle.now first.now ≢ weights_by cocycle.now second.now) }
{
    if !fits(first, quandle_of(cocycle)) {
        return wide_line(alloc, 1, first);
    }
    if !fits(second, quandle_of(cocycle)) {
        return wide_line(alloc, 2, second);
    }
    weighed_text(alloc, first, second, cocycle)
}

/// The line of the first or the second grid, which has too many choices of a colour for each bottom.
fn wide_line(alloc: Global, which: u8, grid: &Grid) -> Result<Vec<u8>, AllocError>
    ensures text { IfOk result (λ v. v.items ≡ wide_diagram_line which grid.now) }
    ensures apart { IfOk result (λ v. EndsDifferent v.items → ⊥) }
{
    let mut out = Vec::new(alloc);
    let bottoms = u64::from(grid.bottoms());
    push_paired(&mut out, b"wide ", u64::from(which), bottoms)?;
    Ok(out)
}

/// The text of the weights of two grids that the cocycle's quandle fits, and whether they differ.
fn weighed_text(
    alloc: Global,
    first: &Grid,
    second: &Grid,
    cocycle: &Weighing,
) -> Result<Vec<u8>, AllocError>
    requires first { fits (table_by cocycle.now) first.now ≡ true }
    requires second { fits (table_by cocycle.now) second.now ≡ true }
    ensures text { IfOk result (λ v. v.items ≡ weighed_text cocycle.now first.now second.now) }
    ensures apart { IfOk result (λ v. EndsDifferent v.items → weights_by cocycle.now first.now ≢ weights_by cocycle.now second.now) }
{
    let one = counts(alloc, first, cocycle)?;
    let two = counts(alloc, second, cocycle)?;
    let mut out = Vec::new(alloc);
    push_labelled_line(&mut out, b"weights", one.as_slice())?;
    push_labelled_line(&mut out, b"weights", two.as_slice())?;
    push_comparison(&mut out, one.as_slice() == two.as_slice())?;
    Ok(out)
}

/// For each weight, how many colourings of a grid have it, or pairs of one and an outer colour, where the cocycle's quandle fits the grid.
fn counts(alloc: Global, grid: &Grid, cocycle: &Weighing) -> Result<Vec<u32>, AllocError>
    requires { fits (table_by cocycle.now) grid.now ≡ true }
    ensures { IfOk result (λ v. v.items ≡ weights_by cocycle.now grid.now) }
{
    match cocycle {
        Weighing::Strands(cocycle) => strand_counts(alloc, grid, cocycle),
        Weighing::Regions(shadow) => region_counts(alloc, grid, &shadow.cocycle),
    }
}

/// For each weight by a 2-cocycle, how many colourings of a grid have it, where the quandle fits the grid.
fn strand_counts(alloc: Global, grid: &Grid, cocycle: &Cocycle) -> Result<Vec<u32>, AllocError>
    requires { fits cocycle.now.quandle grid.now ≡ true }
    ensures { IfOk result (λ v. v.items ≡ weights cocycle.now grid.now) }
{
    match weights(alloc, grid, cocycle) {
        Ok(counts) => Ok(counts),
        Err(ListFault::OutOfMemory) => Err(AllocError),
        Err(ListFault::TooWide { .. }) => unreachable!(),
    }
}

/// For each weight by a shadow cocycle, how many pairs of a colouring of a grid and an outer colour have it, where the quandle fits the grid.
fn region_counts(
    alloc: Global,
    grid: &Grid,
    cocycle: &ShadowCocycle,
) -> Result<Vec<u32>, AllocError>
    requires { fits cocycle.now.quandle grid.now ≡ true }
    ensures { IfOk result (λ v. v.items ≡ shadow_weights cocycle.now grid.now) }
{
    match shadow_weights(alloc, grid, cocycle) {
        Ok(counts) => Ok(counts),
        Err(ListFault::OutOfMemory) => Err(AllocError),
        Err(ListFault::TooWide { .. }) => unreachable!(),
    }
}

/// The quandle that gives the colours.
fn quandle_of(cocycle: &Weighing) -> &Quandle
    ensures { result.now ≡ table_by cocycle.now }
{
    match cocycle {
        Weighing::Strands(cocycle) => cocycle.quandle(),
        Weighing::Regions(shadow) => shadow.cocycle.quandle(),
    }
}

/// Diagrams with other weights by a cocycle are not equivalent. It does nothing.
fn laws_of(cocycle: &Weighing)
    ensures { (d e : Marks) → weights_by cocycle.now d ≢ weights_by cocycle.now e → Equivalent d e → ⊥ }
{
    match cocycle {
        Weighing::Strands(cocycle) => {
            equivalent_diagrams_have_equal_weights();
            let _modulus = cocycle.modulus();
        }
        Weighing::Regions(shadow) => {
            equivalent_diagrams_have_equal_shadow_weights();
            let _modulus = shadow.cocycle.modulus();
        }
    }
}
