//! Counting colourings by the choices of a colour for each seed.
ghost use Rattle.std.specs.Prelude.{◌≡◌, ◌<◌, ◌≤◌, ◌*◌, ◌^◌, ◌⊎◌, Err, IfErr, IfOk, false, length, map};
ghost use Rattle.std.specs.List.{All, flat_map, range_with_len};
ghost use Rattle.grid_core.specs.declared.grid.TheConstants.{MAX_SIZE};
ghost use Rattle.grid_core.specs.Diagram.{size};
ghost use Rattle.colour_rows.specs.Colouring.{AreColours};
ghost use Rattle.colour_rows.specs.Equation.{equation};
ghost use Rattle.colour_list.specs.Level.{spread};
ghost use Rattle.colour_seeds.specs.declared.counting.TheConstants.{MAX_CANDIDATES};
ghost use Rattle.colour_seeds.specs.Plan.{IsPlan, seeds_in};
ghost use Rattle.colour_seeds.specs.FewWays.{few_ways};
ghost use Rattle.colour_seeds.specs.declared.counting.CountFault.TheVariants as fault;
ghost use Rattle.colour_list.specs.Listing.{colourings};
ghost use Rattle.colour_seeds.specs.Leaves.{IsInside, leaves};

use crate::connected::is_connected;
use crate::progress::Step;
use crate::seeding::Seeding;
use crate::settling::{SettledColours, passes};
use colour_rows::{Row, Spans};
use grid_core::{Grid, MAX_SIZE};
use quandle_core::Operations;
use std::alloc::{AllocFailed, Global};

/// The greatest number of choices of a colour for each seed that is tried.
pub const MAX_CANDIDATES: u32 = 2097152;

/// Why colourings were not counted.
#[derive(Clone, Copy, PartialEq, Eq)]
pub enum CountFault {
    /// The order to the power of the number of seeds is over `MAX_CANDIDATES`.
    TooWide,
    /// Memory ran out.
    OutOfMemory,
}

impl From<AllocFailed<Row>> for CountFault {
    ghost use Rattle.colour_seeds.specs.declared.counting.CountFault.TheVariants as fault;

    ghost from_gives = { λ _ e. e ≡ fault.OutOfMemory };

    fn from(_: AllocFailed<Row>) -> CountFault {
        CountFault::OutOfMemory
    }
}

impl From<AllocFailed<u32>> for CountFault {
    ghost use Rattle.colour_seeds.specs.declared.counting.CountFault.TheVariants as fault;

    ghost from_gives = { λ _ e. e ≡ fault.OutOfMemory };

    fn from(_: AllocFailed<u32>) -> CountFault {
        CountFault::OutOfMemory
    }
}

/// Whether this many colours can be chosen in at most `MAX_CANDIDATES` ways, which are the order of the quandle to that power. Takes no memory.
pub fn few_ways(quandle: &Operations, choices: usize) -> bool
    ensures { result ≡ few_ways quandle.now choices }
{
    let _order = quandle.order();
    let choices = choices.min(64) as u32;
    u32::from(quandle.order()).saturating_pow(choices) <= MAX_CANDIDATES
}

/// The number of all colourings of a grid by a quandle, by seeds of the grid. The colourings are not kept.
///
/// `TooWide` exactly where the seeds have too many choices of colours.
pub fn count(
    alloc: Global,
    grid: &Grid,
    quandle: &Operations,
    seeding: &Seeding,
) -> Result<u32, CountFault>
    requires plan { IsPlan grid.now seeding.now }
    ensures count { IfOk result (λ n. n ≡ length (colourings quandle.now grid.now)) }
    ensures wide { few_ways quandle.now (seeds_in seeding.now) ≡ false → result ≡ Err (fault.TooWide) }
    ensures fault { IfErr result (λ e. e ≡ fault.OutOfMemory ⊎ (few_ways quandle.now (seeds_in seeding.now) ≡ false) × (e ≡ fault.TooWide)) }
{
    let _size = grid.size();
    let _order = quandle.order();
    if !few_ways(quandle, seeding.seeds().len()) {
        return Err(CountFault::TooWide);
    }
    let rows = rows_of(alloc, grid)?;
    Ok(count_all(grid, rows.as_slice(), quandle, seeding.steps()))
}

/// How many colourings the steps of a plan find. Of a connected quandle as many have each colour in the first seed, so that it takes the colour 0 alone.
fn count_all(grid: &Grid, rows: &[Row], quandle: &Operations, steps: &[Step]) -> u32
    requires rows { rows.now ≡ map (equation grid.now) (range_with_len 0 (size grid.now)) }
    requires plan { IsPlan grid.now steps.now }
    requires few { quandle.now.order ^ seeds_in steps.now ≤ MAX_CANDIDATES }
    ensures { result ≡ length (colourings quandle.now grid.now) }
{
    let _size = grid.size();
    let order = quandle.order();
    let mut blank = [0; MAX_SIZE];
    if let Some((first, rest)) = steps.split_first() {
        if first.is_seed() && is_connected(quandle) {
            return u32::from(order) * count_from(grid, rows, quandle, rest, &mut blank);
        }
    }
    count_from(grid, rows, quandle, steps, &mut blank)
}

/// The rows of a grid, from the lowest upward.
pub fn rows_of(alloc: Global, grid: &Grid) -> Result<Vec<Row>, AllocFailed<Row>>
    ensures { IfOk result (λ v. v.items ≡ map (equation grid.now) (range_with_len 0 (size grid.now))) }
{
    let spans = Spans::of(grid);
    let mut rows = Vec::new(alloc);
    for row in 0..grid.size() {
        rows.push(Row::by_spans(grid, &spans, row))?;
    }
    Ok(rows)
}

/// How many lists of colours the steps make of one.
#[cycle(count)]
fn count_from(
    grid: &Grid,
    rows: &[Row],
    quandle: &Operations,
    steps: &[Step],
    colours: &mut SettledColours,
) -> u32
    requires rows { rows.now ≡ map (equation grid.now) (range_with_len 0 (size grid.now)) }
    requires inside { All (IsInside grid.now) steps.now }
    requires colours { AreColours MAX_SIZE quandle.now.order colours.old }
    requires few { quandle.now.order ^ seeds_in steps.now ≤ MAX_CANDIDATES }
    ensures count { result ≡ length (leaves quandle.now grid.now steps.now colours.old) }
    ensures few { result ≤ quandle.now.order ^ seeds_in steps.now }
{
    let _size = grid.size();
    let _order = quandle.order();
    let Some((step, rest)) = steps.split_first() else {
        return 1;
    };
    if let Some(column) = step.seed() {
        return count_each(grid, rows, quandle, rest, colours, column);
    }
    if !passes(grid, rows, quandle, *step, colours) {
        return 0;
    }
    count_from(grid, rows, quandle, rest, colours)
}

/// How many lists of colours the steps make of one, added up over each colour of a seed.
#[cycle(count)]
fn count_each(
    grid: &Grid,
    rows: &[Row],
    quandle: &Operations,
    steps: &[Step],
    colours: &SettledColours,
    column: u8,
) -> u32
    requires rows { rows.now ≡ map (equation grid.now) (range_with_len 0 (size grid.now)) }
    requires inside { All (IsInside grid.now) steps.now }
    requires colours { AreColours MAX_SIZE quandle.now.order colours.now }
    requires column { column < size grid.now }
    requires few { quandle.now.order * quandle.now.order ^ seeds_in steps.now ≤ MAX_CANDIDATES }
    ensures count { result ≡ length (flat_map (leaves quandle.now grid.now steps.now) (spread quandle.now.order column colours.now)) }
    ensures few { result ≤ quandle.now.order * quandle.now.order ^ seeds_in steps.now }
{
    let _size = grid.size();
    let _order = quandle.order();
    let mut total = 0;
    for colour in 0..quandle.order() {
        let mut begun = *colours;
        begun[column as usize] = colour;
        total += count_from(grid, rows, quandle, steps, &mut begun);
    }
    total
}
