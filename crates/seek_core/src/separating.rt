//! The first quandle that separates two grids, by counts from their seeds.
ghost use Rattle.std.specs.Prelude.{◌≡◌, length, true, IfOk};
ghost use Rattle.colour_list.specs.Fits.{fits};
ghost use Rattle.colour_list.specs.Listing.{colourings};
ghost use Rattle.colour_seeds.specs.Plan.{IsPlan};
ghost use Rattle.number_search.specs.Told.{ArePlansOf};
ghost use Rattle.pair_verdict.specs.Separates.{separates, first_separating, IsSeparation};

use colour_list::{fits, list_fitting};
use colour_seeds::{CountFault, Seeding, count};
use grid_core::Grid;
use memory_core::OutOfMemory;
use number_search::SeedPair;
use pair_verdict::told_apart;
use quandle_core::Quandle;
use std::alloc::Global;
use verdict_core::{Listed, Verdict};

/// The verdict `different` on two grids by the first of the quandles that separates them, or None where none does. Colourings are counted from
/// seeds where these have few enough choices of colours, and all listed only of the quandle that separates.
pub(crate) fn first_separation(
    alloc: Global,
    first: &Grid,
    second: &Grid,
    seeds: &SeedPair,
    quandles: &[Listed],
) -> Result<Option<Verdict>, OutOfMemory>
    requires plans { ArePlansOf first.now second.now seeds.now }
    ensures { IfOk result (λ o. IsSeparation first.now second.now (first_separating first.now second.now quandles.now) o) }
{
    let mut left = quandles;
    while let Some((listed, others)) = left.split_first() {
        if separates(alloc, first, second, seeds, listed.quandle())? {
            return told_apart(alloc, first, second, left);
        }
        left = others;
    }
    Ok(None)
}

/// Whether a quandle fits both grids, and they have different numbers of colourings by it.
fn separates(
    alloc: Global,
    first: &Grid,
    second: &Grid,
    seeds: &SeedPair,
    quandle: &Quandle,
) -> Result<bool, OutOfMemory>
    requires plans { ArePlansOf first.now second.now seeds.now }
    ensures { IfOk result (λ b. b ≡ separates first.now second.now quandle.now) }
{
    let _order = quandle.order();
    if !fits(first, quandle) || !fits(second, quandle) {
        return Ok(false);
    }
    let one = colouring_count(alloc, first, &seeds.first, quandle)?;
    let two = colouring_count(alloc, second, &seeds.second, quandle)?;
    Ok(one != two)
}

/// How many colourings a grid has by a quandle that fits it: counted from its seeds, or, where these have too many choices of colours, by the list of
/// all.
fn colouring_count(
    alloc: Global,
    grid: &Grid,
    seeding: &Seeding,
    quandle: &Quandle,
) -> Result<usize, OutOfMemory>
    requires plan { IsPlan grid.now seeding.now }
    requires fits { fits quandle.now grid.now ≡ true }
    ensures { IfOk result (λ n. n ≡ length (colourings quandle.now grid.now)) }
{
    match count(alloc, grid, &quandle.operations(), seeding) {
        Ok(number) => Ok(number as usize),
        Err(CountFault::TooWide) => {
            let list = list_fitting(alloc, grid, quandle)?;
            Ok(list.len())
        }
        Err(CountFault::OutOfMemory) => Err(OutOfMemory),
    }
}
