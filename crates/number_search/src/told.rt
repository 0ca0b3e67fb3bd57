//! Evidence by numbers, found.
ghost use Rattle.std.specs.Prelude.{◌≡◌, ◌∷◌, [], count_by, IfOk, IfSome};
ghost use Rattle.grid_moves.specs.Joining.{Equivalent};
ghost use Rattle.evidence_core.specs.declared.cause.NumberRuling.TheVariants.{Accepted};
ghost use Rattle.number_check.specs.Ruling.{RulesOnEvidence};
ghost use Rattle.number_search.specs.Told.{ArePlansOf, fits_both, counted_by_plan, evidence_by, told_by_linking, told_by_blocks, told_apart};

use crate::copied::copied;
use crate::seed_pair::SeedPair;
use colour_numbers::fits_by;
use colour_seeds::Seeding;
use grid_core::Grid;
use memory_core::{Items, OutOfMemory};
use number_check::{are_same, laws_of, linked_of, numbers_by};
use number_text::{Block, Counted, Evidence, LargeWeighing};
use std::alloc::Global;

/// Evidence that two grids are not equivalent, by their linking numbers, or else by the first of the blocks that distinguishes them.
/// `None` exactly where neither linking numbers nor a block does.
pub fn tell_apart(
    alloc: Global,
    first: &Grid,
    second: &Grid,
    seeds: &SeedPair,
    blocks: &[Block],
) -> Result<Option<Evidence>, OutOfMemory>
    requires plans { ArePlansOf first.now second.now seeds.now }
    ensures evidence { IfOk result (λ o. o ≡ told_apart first.now second.now seeds.now blocks.now) }
    ensures accepted { IfOk result (λ o. IfSome o (λ e. RulesOnEvidence first.now second.now e Accepted)) }
    ensures apart { IfOk result (λ o. IfSome o (λ e. Equivalent first.now second.now → ⊥)) }
{
    let linking = tell_apart_by_linking(alloc, first, second)?;
    if linking.is_some() {
        return Ok(linking);
    }
    tell_apart_by_blocks(alloc, first, second, seeds, blocks)
}

/// Evidence by linking numbers: how many components two links have and all their linking numbers, where these differ. `None` exactly where they agree.
pub fn tell_apart_by_linking(
    alloc: Global,
    first: &Grid,
    second: &Grid,
) -> Result<Option<Evidence>, OutOfMemory>
    ensures evidence { IfOk result (λ o. o ≡ told_by_linking first.now second.now) }
    ensures accepted { IfOk result (λ o. IfSome o (λ e. RulesOnEvidence first.now second.now e Accepted)) }
    ensures apart { IfOk result (λ o. IfSome o (λ e. Equivalent first.now second.now → ⊥)) }
{
    let one = linked_of(alloc, first)?;
    let two = linked_of(alloc, second)?;
    if are_same(&one, &two) {
        return Ok(None);
    }
    Ok(Some(Evidence::Linking {
        first: one,
        second: two,
    }))
}

/// Evidence by the first of the blocks that fits the seeds of both grids and by which they have different numbers of colourings.
/// `None` exactly where there is no such block.
pub fn tell_apart_by_blocks(
    alloc: Global,
    first: &Grid,
    second: &Grid,
    seeds: &SeedPair,
    blocks: &[Block],
) -> Result<Option<Evidence>, OutOfMemory>
    requires plans { ArePlansOf first.now second.now seeds.now }
    ensures evidence { IfOk result (λ o. o ≡ told_by_blocks first.now second.now seeds.now blocks.now) }
    ensures accepted { IfOk result (λ o. IfSome o (λ e. RulesOnEvidence first.now second.now e Accepted)) }
    ensures apart { IfOk result (λ o. IfSome o (λ e. Equivalent first.now second.now → ⊥)) }
{
    for block in blocks {
        let evidence = told_by_block(alloc, first, second, seeds, block)?;
        if evidence.is_some() {
            return Ok(evidence);
        }
    }
    Ok(None)
}

/// Evidence by one block, if it fits the seeds of both grids and they have different numbers by it.
fn told_by_block(
    alloc: Global,
    first: &Grid,
    second: &Grid,
    seeds: &SeedPair,
    block: &Block,
) -> Result<Option<Evidence>, OutOfMemory>
    requires plans { ArePlansOf first.now second.now seeds.now }
    ensures evidence { IfOk result (λ o. o ≡ told_by_blocks first.now second.now seeds.now (block.now ∷ [])) }
    ensures accepted { IfOk result (λ o. IfSome o (λ e. RulesOnEvidence first.now second.now e Accepted)) }
    ensures apart { IfOk result (λ o. IfSome o (λ e. Equivalent first.now second.now → ⊥)) }
{
    let _first = first.size();
    let _second = second.size();
    laws_of(block);
    if !fits_both(seeds, block) {
        return Ok(None);
    }
    let one = numbers_by(alloc, first, block, &seeds.first)?;
    let two = numbers_by(alloc, second, block, &seeds.second)?;
    if one.as_slice() == two.as_slice() {
        return Ok(None);
    }
    let block = copy_of(alloc, block)?;
    Ok(Some(Evidence::Numbers {
        block,
        first: counted(&seeds.first, one),
        second: counted(&seeds.second, two),
    }))
}

/// How many of the blocks fit the seeds of both grids.
pub fn count_fitting(seeds: &SeedPair, blocks: &[Block]) -> usize
    ensures { result ≡ count_by (fits_both seeds.now) blocks.now }
{
    blocks
        .iter()
        .filter(|block| fits_both(seeds, *block))
        .count()
}

/// Whether a block fits the seeds of both grids.
fn fits_both(seeds: &SeedPair, block: &Block) -> bool
    ensures { result ≡ fits_both seeds.now block.now }
{
    let quandle = block.listed.operations();
    fits_by(&quandle, &block.cocycle, &seeds.first)
        && fits_by(&quandle, &block.cocycle, &seeds.second)
}

/// Numbers with the seeds by which they were counted.
fn counted(seeding: &Seeding, numbers: Vec<u32>) -> Counted
    ensures { result ≡ counted_by_plan seeding.now numbers.items }
{
    Counted {
        seeds: seeding.seeds(),
        numbers: Items::from_vec(numbers),
    }
}

/// The same block again.
fn copy_of(alloc: Global, block: &Block) -> Result<Block, OutOfMemory>
    ensures { IfOk result (λ b. b ≡ block.now) }
{
    let listed = block.listed.copy(alloc)?;
    let cocycle = copy_of_cocycle(alloc, &block.cocycle)?;
    Ok(Block { listed, cocycle })
}

/// The same cocycle again, if there is one.
fn copy_of_cocycle(
    alloc: Global,
    cocycle: &Option<LargeWeighing>,
) -> Result<Option<LargeWeighing>, OutOfMemory>
    ensures { IfOk result (λ o. o ≡ cocycle.now) }
{
    match cocycle {
        None => Ok(None),
        Some(LargeWeighing::Strands(cocycle)) => match cocycle.copy(alloc) {
            Ok(cocycle) => Ok(Some(LargeWeighing::Strands(cocycle))),
            Err(_) => Err(OutOfMemory),
        },
        Some(LargeWeighing::Regions(shadow)) => match copied(alloc, shadow) {
            Ok(shadow) => Ok(Some(LargeWeighing::Regions(shadow))),
            Err(_) => Err(OutOfMemory),
        },
    }
}
