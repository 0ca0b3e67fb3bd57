//! The numbers of colourings of a diagram by a quandle, or by a cocycle of either kind.
ghost use Rattle.std.specs.Prelude.{◌≡◌, ◌<◌, ◌-◌, ◌^◌, ◌⊎◌, ◌∷◌, [], Err, IfOk, IfErr, false, length};
ghost use Rattle.colour_list.specs.Listing.{colourings};
ghost use Rattle.colour_weights.specs.Weights.{weights};
ghost use Rattle.colour_seeds.specs.FewWays.{few_ways};
ghost use Rattle.colour_seeds.specs.Plan.{IsPlan, seeds_in};
ghost use Rattle.colour_seeds.specs.declared.counting.CountFault.TheVariants as fault;
ghost use Rattle.colour_numbers.specs.Numbers.{choices_of, coloured_by, fits_by, numbers};

use crate::regions::shadow_weights_by_seeds;
use crate::strands::weights_by_seeds;
use cocycle_core::LargeCocycle;
use colour_seeds::{CountFault, Seeding, count, few_ways};
use evidence_core::LargeWeighing;
use grid_core::Grid;
use quandle_core::Operations;
use std::alloc::Global;

/// How many colours are chosen: one for each of this many seeds, and for a shadow cocycle one more, for the outer region.
pub fn choices_of(cocycle: &Option<LargeWeighing>, seeds: usize) -> usize
    requires { seeds < 2 ^ 64 - 1 }
    ensures { result ≡ choices_of cocycle.now seeds }
{
    match cocycle {
        None => seeds,
        Some(LargeWeighing::Strands(_)) => seeds,
        Some(LargeWeighing::Regions(_)) => seeds + 1,
    }
}

/// Whether there are at most `MAX_CANDIDATES` choices of a colour for each seed, and by a shadow cocycle for the outer region too. Takes no memory.
pub fn fits_by(quandle: &Operations, cocycle: &Option<LargeWeighing>, seeding: &Seeding) -> bool
    ensures { result ≡ fits_by quandle.now cocycle.now seeding.now }
{
    let choices = choices_of(cocycle, seeding.seeds().len());
    so_many_fit(quandle, cocycle, choices)
}

/// Whether so many colours can be chosen in at most `MAX_CANDIDATES` ways. A cocycle has its own quandle.
fn so_many_fit(quandle: &Operations, cocycle: &Option<LargeWeighing>, choices: usize) -> bool
    ensures { result ≡ few_ways (coloured_by quandle.now cocycle.now) choices }
{
    match cocycle {
        None => few_ways(quandle, choices),
        Some(LargeWeighing::Strands(cocycle)) => few_ways(&cocycle.quandle(), choices),
        Some(LargeWeighing::Regions(shadow)) => {
            few_ways(&shadow.cocycle.quandle().operations(), choices)
        }
    }
}

/// Without a cocycle the number of colourings of a grid by the quandle. With one, for each weight from 0 to its modulus less one, the
/// number of colourings by the cocycle's quandle that have this weight. By a shadow cocycle pairs of a colouring and a colour of the outer
/// region are counted. All are counted by seeds of the grid, and not kept.
///
/// `TooWide` exactly where there are too many choices of colours.
pub fn numbers(
    alloc: Global,
    grid: &Grid,
    quandle: &Operations,
    cocycle: &Option<LargeWeighing>,
    seeding: &Seeding,
) -> Result<Vec<u32>, CountFault>
    requires plan { IsPlan grid.now seeding.now }
    ensures numbers { IfOk result (λ v. v.items ≡ numbers quandle.now cocycle.now grid.now) }
    ensures wide { fits_by quandle.now cocycle.now seeding.now ≡ false → result ≡ Err (fault.TooWide) }
    ensures fault { IfErr result (λ e. e ≡ fault.OutOfMemory ⊎ (fits_by quandle.now cocycle.now seeding.now ≡ false) × (e ≡ fault.TooWide)) }
{
    match cocycle {
        None => {
            let total = count(alloc, grid, quandle, seeding)?;
            alone(alloc, total)
        }
        Some(LargeWeighing::Strands(cocycle)) => strand_weights(alloc, grid, cocycle, seeding),
        Some(LargeWeighing::Regions(shadow)) => {
            shadow_weights_by_seeds(alloc, grid, &shadow.cocycle, seeding)
        }
    }
}

/// How many colourings have each weight by a 2-cocycle.
fn strand_weights(
    alloc: Global,
    grid: &Grid,
    cocycle: &LargeCocycle,
    seeding: &Seeding,
) -> Result<Vec<u32>, CountFault>
    requires plan { IsPlan grid.now seeding.now }
    ensures weights { IfOk result (λ v. v.items ≡ weights cocycle.now grid.now) }
    ensures wide { few_ways cocycle.now.quandle (seeds_in seeding.now) ≡ false → result ≡ Err (fault.TooWide) }
    ensures fault { IfErr result (λ e. e ≡ fault.OutOfMemory ⊎ (few_ways cocycle.now.quandle (seeds_in seeding.now) ≡ false) × (e ≡ fault.TooWide)) }
{
    let values = cocycle.values();
    weights_by_seeds(alloc, grid, &values, seeding)
}

/// A list of one number.
fn alone(alloc: Global, number: u32) -> Result<Vec<u32>, CountFault>
    ensures list { IfOk result (λ v. v.items ≡ number ∷ []) }
    ensures fault { IfErr result (λ e. e ≡ fault.OutOfMemory) }
{
    let mut list = Vec::new(alloc);
    list.push(number)?;
    Ok(list)
}
