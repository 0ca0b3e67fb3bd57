//! The ruling on the numbers of colourings of one diagram.
ghost use Rattle.std.specs.Prelude.{◌≡◌, ◌≤◌, true, None, IfOk, IfSome, length};
ghost use Rattle.colour_numbers.specs.Numbers.{fits_by};
ghost use Rattle.colour_seeds.specs.Settled.{Determine};
ghost use Rattle.colour_seeds.specs.Plan.{IsPlan, seeds_in};
ghost use Rattle.number_check.specs.EvidenceHolds.{AreNumbersOf, table_by_block, numbers_by};
ghost use Rattle.number_check.specs.Cause.{IsCauseOf, settled_cause};

use colour_numbers::{choices_of, numbers};
use colour_seeds::{CountFault, SeedFault, Seeding, few_ways};
use evidence_core::{Block, Cause, Counted, LargeWeighing, first_unequal, place_cause};
use grid_core::Grid;
use memory_core::OutOfMemory;
use quandle_core::Operations;
use std::alloc::Global;

/// A diagram, with what is said of its numbers.
#[derive(Clone, Copy)]
pub(crate) struct CountedGrid<'a> {
    pub(crate) grid: &'a Grid,
    pub(crate) counted: &'a Counted,
}

/// A diagram, with what is said of its numbers.
pub(crate) fn said_on<'a>(grid: &'a Grid, counted: &'a Counted) -> CountedGrid<'a>
    ensures grid { result.grid.now ≡ grid.now }
    ensures counted { result.counted.now ≡ counted.now }
{
    CountedGrid { grid, counted }
}

/// Numbers that are said to be those of a diagram, by seeds of it.
#[derive(Clone, Copy)]
pub struct SaidNumbers<'a> {
    /// The number of the diagram: 1 or 2.
    pub which: u8,
    pub seeds: &'a [u8],
    pub numbers: &'a [u32],
}

/// Why what is said of the numbers of a diagram does not hold: the first cause, if there is one.
pub(crate) fn cause_of_counts(
    alloc: Global,
    which: u8,
    block: &Block,
    said: &CountedGrid<'_>,
) -> Result<Option<Cause>, OutOfMemory>
    ensures some { IfOk result (λ o. IfSome o (λ cause. IsCauseOf block.now which said.now.grid.now said.now.counted.now cause)) }
    ensures none { IfOk result (λ o. o ≡ None → AreNumbersOf block.now said.now.grid.now said.now.counted.now) }
{
    match Seeding::new(alloc, said.grid, said.counted.seeds.as_slice()) {
        Ok(seeding) => cause_by(alloc, which, block, said, &seeding),
        Err(SeedFault::Outside { column }) => Ok(Some(Cause::Outside { which, column })),
        Err(SeedFault::Unsettled { column }) => Ok(Some(Cause::Unsettled { which, column })),
        Err(SeedFault::OutOfMemory) => Err(OutOfMemory),
    }
}

/// Why what is said of the numbers of a diagram does not hold, by a plan of its seeds, which settle the diagram: what `settled_cause` answers, of which
/// it proves the clauses `some` and `none`.
fn cause_by(
    alloc: Global,
    which: u8,
    block: &Block,
    said: &CountedGrid<'_>,
    seeding: &Seeding,
) -> Result<Option<Cause>, OutOfMemory>
    requires settled { Determine said.now.counted.now.seeds.items said.now.grid.now }
    requires plan { IsPlan said.now.grid.now seeding.now }
    requires few { seeds_in seeding.now ≤ length said.now.counted.now.seeds.items }
    ensures some { IfOk result (λ o. IfSome o (λ cause. IsCauseOf block.now which said.now.grid.now said.now.counted.now cause)) }
    ensures none { IfOk result (λ o. o ≡ None → AreNumbersOf block.now said.now.grid.now said.now.counted.now) }
{
    let said_numbers = SaidNumbers {
        which,
        seeds: said.counted.seeds.as_slice(),
        numbers: said.counted.numbers.as_slice(),
    };
    let given = settled_cause(alloc, said.grid, block, &said_numbers, seeding)?;
    Ok(given)
}

/// The first cause why these numbers aren't shown to be the diagram's own: its seeds, of which `seeding` is a plan, have too many choices of colours,
/// or else the numbers and its own first differ at a place. `None` if they are its own. It counts the diagram's colourings once.
pub fn settled_cause(
    alloc: Global,
    grid: &Grid,
    block: &Block,
    said: &SaidNumbers<'_>,
    seeding: &Seeding,
) -> Result<Option<Cause>, OutOfMemory>
    requires plan { IsPlan grid.now seeding.now }
    requires few { seeds_in seeding.now ≤ length said.now.seeds.now }
    ensures { IfOk result (λ o. o ≡ settled_cause block.now said.now.which grid.now (length said.now.seeds.now) said.now.numbers.now) }
{
    let which = said.which;
    let seeds = said.seeds.len();
    let quandle = colouring_quandle(block);
    let _order = quandle.order();
    if !few_ways(&quandle, choices_of(&block.cocycle, seeds)) {
        return Ok(Some(Cause::Wide { which, seeds }));
    }
    let own = numbers_by(alloc, grid, block, seeding)?;
    Ok(place_cause(which, first_unequal(said.numbers, own.as_slice())))
}

/// The numbers of a grid by a block, by a plan of the grid that the block's quandle fits.
pub fn numbers_by(
    alloc: Global,
    grid: &Grid,
    block: &Block,
    seeding: &Seeding,
) -> Result<Vec<u32>, OutOfMemory>
    requires plan { IsPlan grid.now seeding.now }
    requires fits { fits_by block.now.listed.table block.now.cocycle seeding.now ≡ true }
    ensures { IfOk result (λ v. v.items ≡ numbers_by block.now grid.now) }
{
    let quandle = block.listed.operations();
    match numbers(alloc, grid, &quandle, &block.cocycle, seeding) {
        Ok(own) => Ok(own),
        Err(CountFault::OutOfMemory) => Err(OutOfMemory),
        Err(CountFault::TooWide) => unreachable!(),
    }
}

/// The operations of the quandle that gives a block's colours: that of its cocycle, if it has one.
pub fn colouring_quandle(block: &Block) -> Operations<'_>
    ensures { result ≡ table_by_block block.now }
{
    match &block.cocycle {
        None => block.listed.operations(),
        Some(LargeWeighing::Strands(cocycle)) => cocycle.quandle(),
        Some(LargeWeighing::Regions(shadow)) => shadow.cocycle.quandle().operations(),
    }
}
