//! The weights of all colourings by a 2-cocycle.
ghost use Rattle.std.specs.Prelude.{◌≡◌, ◌⊎◌, Err, IfErr, IfOk, false};
ghost use Rattle.colour_weights.specs.Weights.{weights};
ghost use Rattle.colour_seeds.specs.declared.counting.CountFault.TheVariants as fault;
ghost use Rattle.colour_seeds.specs.FewWays.{few_ways};
ghost use Rattle.colour_seeds.specs.Plan.{IsPlan, seeds_in};

use crate::tally::tally_all;
use crate::weigher::Weigher;
use cocycle_core::Values;
use colour_seeds::settling::SettledColours;
use colour_seeds::{CountFault, Seeding, few_ways};
use colour_weights::weight_by_rows;
use grid_core::Grid;
use quandle_core::Operations;
use std::alloc::Global;

/// For each weight from 0 to the modulus less one, the number of colourings of the grid that have it, by seeds of the grid. The colourings are not kept.
///
/// `TooWide` exactly where the seeds have too many choices of colours.
pub fn weights_by_seeds(
    alloc: Global,
    grid: &Grid,
    cocycle: &Values,
    seeding: &Seeding,
) -> Result<Vec<u32>, CountFault>
    requires plan { IsPlan grid.now seeding.now }
    ensures weights { IfOk result (λ v. v.items ≡ weights cocycle.now grid.now) }
    ensures wide { few_ways cocycle.now.quandle (seeds_in seeding.now) ≡ false → result ≡ Err (fault.TooWide) }
    ensures fault { IfErr result (λ e. e ≡ fault.OutOfMemory ⊎ (few_ways cocycle.now.quandle (seeds_in seeding.now) ≡ false) × (e ≡ fault.TooWide)) }
{
    let _size = grid.size();
    let _modulus = cocycle.modulus();
    if !few_ways(cocycle.quandle(), seeding.seeds().len()) {
        return Err(CountFault::TooWide);
    }
    tally_all(alloc, grid, &Strands { grid, cocycle }, seeding)
}

/// Weighs lists of colours by a 2-cocycle.
#[derive(Drop)]
struct Strands<'a> {
    grid: &'a Grid,
    cocycle: &'a Values<'a>,
}

impl<'a> Weigher for Strands<'a> {
    ghost use Rattle.std.specs.Prelude.{[], ◌∷◌};
    ghost use Rattle.std.proofs.lemmas.List.Sums.{count_by-le-length};
    ghost use Rattle.colour_numbers.specs.Tallies.{has_weight, weighed};

    ghost quandle = { λ w. w.cocycle.now.quandle };

    ghost modulus = { λ w. w.cocycle.now.modulus };

    ghost choices = { λ w. 1 };

    ghost often = { λ w. weighed w.cocycle.now w.grid.now };

    fn quandle(&self) -> &Operations<'_> {
        self.cocycle.quandle()
    }

    fn modulus(&self) -> u8 {
        self.cocycle.modulus()
    }

    fn add(&self, colours: &SettledColours, counts: &mut [u32]) {
        let _size = self.grid.size();
        let (columns, _) = colours.split_at(self.grid.size() as usize);
        let weight = weight_by_rows(self.grid, self.cocycle, columns);
        counts[weight as usize] += 1;
    }

    ghost few = { λ w v f. count_by-le-length (has_weight w.cocycle.now w.grid.now v) (f ∷ []) };
}
