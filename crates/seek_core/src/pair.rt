//! The two diagrams of a search, and what is asked of them in its rounds.
ghost use Rattle.std.specs.Prelude.{◌≡◌, [], ◌∷◌, IfOk, IfSome};
ghost use Rattle.number_search.specs.Told.{ArePlansOf, told_by_linking, told_by_blocks};
ghost use Rattle.pair_verdict.specs.Separates.{first_separating, IsSeparation};
ghost use Rattle.seek_core.specs.Found.{IsEqualBy};
ghost use Rattle.seek_core.specs.Sizes.{smaller_blocks, larger_blocks};

use crate::bounds::{Bounds, Resources};
use crate::separating::first_separation;
use crate::sizes::{is_larger, is_smaller};
use grid_canon::tidy;
use grid_core::Grid;
use meeting_walks::{Watch, find_joining_by};
use memory_core::{Items, OutOfMemory};
use number_search::{SeedPair, tell_apart_by_blocks, tell_apart_by_linking};
use number_text::{Block, Evidence};
use std::alloc::Global;
use std::marker::Model;
use std::slice;
use std::thread::Threads;
use verdict_core::{Listed, Verdict};

/// Two diagrams, and seeds that are plans of both. Contracts see a `SeededPair`.
#[derive(Drop)]
pub(crate) struct Pair<'a> {
    first: &'a Grid,
    second: &'a Grid,
    seeds: &'a SeedPair,
}

impl<'a> Model for Pair<'a> {
    ghost use Rattle.number_search.specs.Told.{ArePlansOf};
    ghost use Rattle.seek_core.specs.Pairs.{SeededPair};

    ghost Value = { SeededPair };

    ghost view = { λ p. record { first = p.first.now; second = p.second.now; seeds = p.seeds.now } };

    ghost invariant = { λ p. ArePlansOf p.first.now p.second.now p.seeds.now };
}

impl<'a> Pair<'a> {
    /// Two diagrams with their seeds.
    pub(crate) fn new(first: &'a Grid, second: &'a Grid, seeds: &'a SeedPair) -> Pair<'a>
        requires plans { ArePlansOf first.now second.now seeds.now }
        ensures { result ≡ record { first = first.now; second = second.now; seeds = seeds.now } }
    {
        Pair {
            first,
            second,
            seeds,
        }
    }

    /// The evidence that the linking numbers differ, or None where they agree. Here and below the only error is that memory ran out.
    pub(crate) fn told_by_linking(&self, alloc: Global) -> Result<Option<Evidence>, OutOfMemory>
        ensures { IfOk result (λ o. o ≡ told_by_linking self.now.first self.now.second) }
    {
        tell_apart_by_linking(alloc, self.first, self.second)
    }

    /// The evidence by the first of the smaller blocks that distinguishes the diagrams, or None where none of them does.
    pub(crate) fn told_by_smaller(
        &self,
        alloc: Global,
        blocks: &[Block],
    ) -> Result<Option<Evidence>, OutOfMemory>
        ensures { IfOk result (λ o. o ≡ told_by_blocks self.now.first self.now.second self.now.seeds (smaller_blocks blocks.now)) }
    {
        for block in blocks {
            let evidence = self.told_if_smaller(alloc, block)?;
            if evidence.is_some() {
                return Ok(evidence);
            }
        }
        Ok(None)
    }

    /// The evidence by one block, if it is a smaller one and distinguishes the diagrams; else None.
    fn told_if_smaller(&self, alloc: Global, block: &Block) -> Result<Option<Evidence>, OutOfMemory>
        ensures { IfOk result (λ o. o ≡ told_by_blocks self.now.first self.now.second self.now.seeds (smaller_blocks (block.now ∷ []))) }
    {
        if is_smaller(block) {
            return self.told_by_one(alloc, block);
        }
        Ok(None)
    }

    /// The evidence by the first of the larger blocks that distinguishes the diagrams, or None where none of them does.
    pub(crate) fn told_by_larger(
        &self,
        alloc: Global,
        blocks: &[Block],
    ) -> Result<Option<Evidence>, OutOfMemory>
        ensures { IfOk result (λ o. o ≡ told_by_blocks self.now.first self.now.second self.now.seeds (larger_blocks blocks.now)) }
    {
        for block in blocks {
            let evidence = self.told_if_larger(alloc, block)?;
            if evidence.is_some() {
                return Ok(evidence);
            }
        }
        Ok(None)
    }

    /// The evidence by one block, if it is a larger one and distinguishes the diagrams; else None.
    fn told_if_larger(&self, alloc: Global, block: &Block) -> Result<Option<Evidence>, OutOfMemory>
        ensures { IfOk result (λ o. o ≡ told_by_blocks self.now.first self.now.second self.now.seeds (larger_blocks (block.now ∷ []))) }
    {
        if is_larger(block) {
            return self.told_by_one(alloc, block);
        }
        Ok(None)
    }

    /// The evidence by one block, if it distinguishes the diagrams; else None.
    fn told_by_one(&self, alloc: Global, block: &Block) -> Result<Option<Evidence>, OutOfMemory>
        ensures { IfOk result (λ o. o ≡ told_by_blocks self.now.first self.now.second self.now.seeds (block.now ∷ [])) }
    {
        let one = slice::from_ref(block);
        tell_apart_by_blocks(alloc, self.first, self.second, self.seeds, one)
    }

    /// The verdict `different` by the first of the quandles that separates the diagrams, or None where none does.
    pub(crate) fn separation(
        &self,
        alloc: Global,
        quandles: &[Listed],
    ) -> Result<Option<Verdict>, OutOfMemory>
        ensures { IfOk result (λ o. IsSeparation self.now.first self.now.second
            (first_separating self.now.first self.now.second quandles.now) o) }
    {
        first_separation(alloc, self.first, self.second, self.seeds, quandles)
    }

    /// The verdict `equal` by a tidy list of moves, if walks within these bounds find a list. It joins the diagrams as given.
    pub(crate) fn joining<R: Threads + Sync, W: Watch>(
        &self,
        resources: &Resources<'_, R>,
        bounds: Bounds,
        watch: &mut W,
    ) -> Result<Option<Verdict>, OutOfMemory>
        ensures { IfOk result (λ o. IfSome o (λ v. IsEqualBy self.now.first self.now.second v)) }
    {
        equal(resources, self.first, self.second, bounds, watch)
    }
}

/// The verdict `equal` on two grids by a tidy list of moves that joins them, if walks within these bounds find a list.
fn equal<R: Threads + Sync, W: Watch>(
    resources: &Resources<'_, R>,
    first: &Grid,
    second: &Grid,
    bounds: Bounds,
    watch: &mut W,
) -> Result<Option<Verdict>, OutOfMemory>
    ensures { IfOk result (λ o. IfSome o (λ v. IsEqualBy first.now second.now v)) }
{
    let (rt, alloc) = (resources.rt, resources.alloc);
    match find_joining_by(rt, alloc, first, second, bounds.plan(), watch)? {
        Some(moves) => {
            let list = tidy(alloc, first, moves.as_slice())?;
            Ok(Some(Verdict::Equal(Items::from_vec(list))))
        }
        None => Ok(None),
    }
}
