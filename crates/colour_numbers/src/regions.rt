//! The shadow weights of all colourings with each colour of the outer region.
ghost use Rattle.std.specs.Prelude.{◌≡◌, ◌+◌, ◌⊎◌, Err, IfErr, IfOk, false};
ghost use Rattle.colour_weights.specs.ShadowWeights.{shadow_weights};
ghost use Rattle.colour_seeds.specs.declared.counting.CountFault.TheVariants as fault;
ghost use Rattle.colour_seeds.specs.FewWays.{few_ways};
ghost use Rattle.colour_seeds.specs.Plan.{IsPlan, seeds_in};

use crate::lane::{Lane, lanes_of};
use crate::lane_weight::weight_of;
use crate::tally::tally_all;
use crate::weigher::Weigher;
use colour_seeds::settling::SettledColours;
use colour_seeds::{CountFault, Seeding, few_ways};
use colour_weights::ShadowCocycle;
use grid_core::Grid;
use quandle_core::Operations;
use std::alloc::{AllocFailed, Global};
use std::marker::Model;

/// For each weight from 0 to the modulus less one, the number of pairs of a colouring of the grid and a colour of the outer region that have it,
/// by seeds of the grid. The colourings are not kept.
///
/// `TooWide` exactly where the seeds and the outer region have too many choices of colours.
pub fn shadow_weights_by_seeds(
    alloc: Global,
    grid: &Grid,
    cocycle: &ShadowCocycle,
    seeding: &Seeding,
) -> Result<Vec<u32>, CountFault>
    requires plan { IsPlan grid.now seeding.now }
    ensures weights { IfOk result (λ v. v.items ≡ shadow_weights cocycle.now grid.now) }
    ensures wide { few_ways cocycle.now.quandle (seeds_in seeding.now + 1) ≡ false → result ≡ Err (fault.TooWide) }
    ensures fault { IfErr result (λ e. e ≡ fault.OutOfMemory ⊎ (few_ways cocycle.now.quandle (seeds_in seeding.now + 1) ≡ false) × (e ≡ fault.TooWide)) }
{
    let _size = grid.size();
    let _modulus = cocycle.modulus();
    if !few_ways(&cocycle.quandle().operations(), seeding.seeds().len() + 1) {
        return Err(CountFault::TooWide);
    }
    let Ok(regions) = Regions::of(alloc, grid, cocycle) else {
        return Err(CountFault::OutOfMemory);
    };
    tally_all(alloc, grid, &regions, seeding)
}

/// Weighs lists of colours by a shadow cocycle, with each colour of the outer region. Contracts see it as a `Shadows`.
#[derive(Drop)]
struct Regions<'a> {
    grid: &'a Grid,
    cocycle: &'a ShadowCocycle,
    quandle: Operations<'a>,
    lanes: Vec<Lane>,
}

impl<'a> Model for Regions<'a> {
    ghost use Rattle.std.specs.Prelude.{◌≡◌};
    ghost use Rattle.colour_numbers.specs.Lanes.{AreLanes};
    ghost use Rattle.colour_numbers.specs.Shadows.{Shadows};

    ghost Value = { Shadows };

    ghost view = { λ r. record { cocycle = r.cocycle.now; diagram = r.grid.now } };

    ghost invariant = { λ r. (r.quandle ≡ r.cocycle.now.quandle) × AreLanes r.grid.now r.lanes.items };
}

impl<'a> Regions<'a> {
    /// What weighs lists of colours of the columns of a grid.
    fn of(
        alloc: Global,
        grid: &'a Grid,
        cocycle: &'a ShadowCocycle,
    ) -> Result<Regions<'a>, AllocFailed<Lane>>
        ensures { IfOk result (λ r. r ≡ record { cocycle = cocycle.now; diagram = grid.now }) }
    {
        let lanes = lanes_of(alloc, grid)?;
        Ok(Regions {
            grid,
            cocycle,
            quandle: cocycle.quandle().operations(),
            lanes,
        })
    }
}

impl<'a> Weigher for Regions<'a> {
    ghost use Rattle.std.specs.Prelude.{◌≤◌, ℕ};
    ghost use Rattle.std.specs.List.{range_with_len};
    ghost use Rattle.std.proofs.Common.{subst};
    ghost use Rattle.std.proofs.lemmas.List.FromFn.{length-range_with_len};
    ghost use Rattle.std.proofs.lemmas.List.Sums.{count_by-le-length};
    ghost use Rattle.colour_numbers.specs.Tallies.{has_shadow_weight, outers_of};

    ghost quandle = { λ w. w.cocycle.quandle };

    ghost modulus = { λ w. w.cocycle.modulus };

    ghost choices = { λ w. w.cocycle.quandle.order };

    ghost often = { λ w. outers_of w.cocycle w.diagram };

    fn quandle(&self) -> &Operations<'_> {
        &self.quandle
    }

    fn modulus(&self) -> u8 {
        self.cocycle.modulus()
    }

    fn add(&self, colours: &SettledColours, counts: &mut [u32]) {
        let _size = self.grid.size();
        let (columns, _) = colours.split_at(self.grid.size() as usize);
        for outer in 0..self.quandle.order() {
            let weight = weight_of(self.cocycle, self.lanes.as_slice(), columns, outer);
            counts[weight as usize] += 1;
        }
    }

    ghost few = { λ w v f. subst (λ (n : ℕ). outers_of w.cocycle w.diagram v f ≤ n) (length-range_with_len 0 w.cocycle.quandle.order)
        (count_by-le-length (has_shadow_weight w.cocycle w.diagram v f) (range_with_len 0 w.cocycle.quandle.order)) };
}
