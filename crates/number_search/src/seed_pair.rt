//! Seeds of two grids.
ghost use Rattle.std.specs.Prelude.{IfOk};
ghost use Rattle.colour_seeds.specs.Plan.{IsPlan};
ghost use Rattle.number_search.specs.Told.{ArePlansOf};

use colour_seeds::{Seeding, seeds_of};
use grid_core::Grid;
use memory_core::OutOfMemory;
use std::alloc::Global;

/// Seeds of two diagrams, which contracts see as a plan of each. They serve all blocks.
#[derive(Drop)]
pub struct SeedPair {
    pub first: Seeding,
    pub second: Seeding,
}

impl SeedPair {
    /// A plan of each of two grids, by seeds that are sought. That they are few isn't proved.
    pub fn of(alloc: Global, first: &Grid, second: &Grid) -> Result<SeedPair, OutOfMemory>
        ensures { IfOk result (λ s. ArePlansOf first.now second.now s) }
    {
        Ok(SeedPair {
            first: seeding_of(alloc, first)?,
            second: seeding_of(alloc, second)?,
        })
    }
}

/// A plan of a grid.
fn seeding_of(alloc: Global, grid: &Grid) -> Result<Seeding, OutOfMemory>
    ensures { IfOk result (λ s. IsPlan grid.now s) }
{
    match seeds_of(alloc, grid) {
        Ok(seeding) => Ok(seeding),
        Err(_) => Err(OutOfMemory),
    }
}
