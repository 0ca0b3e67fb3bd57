//! The ruling on two lists of colourings.
ghost use Rattle.std.specs.Prelude.{◌≡◌, true, IfOk};
ghost use Rattle.grid_core.specs.Parts.{bottoms};
ghost use Rattle.colour_list.specs.Fits.{fits};
ghost use Rattle.colour_list.specs.Listing.{colourings, lists_of};
ghost use Rattle.verdict_core.specs.Evidence.{Claims};
ghost use Rattle.cert_check.specs.Cause.{cause_of_lists, first_difference};
ghost use Rattle.cert_check.specs.Ruling.{RulesOnVerdict};

use crate::ruling::{Ruling, Why};
use colour_list::{fits, list_fitting};
use colour_rows::Colouring;
use grid_core::Grid;
use memory_core::OutOfMemory;
use quandle_core::Quandle;
use std::alloc::Global;
use verdict_core::{Listed, Verdict};

/// The ruling on two grids, each with what is said to be its complete list of colourings by a quandle.
pub(crate) fn check_lists(
    alloc: Global,
    first: &Grid,
    second: &Grid,
    listed: &Listed,
    one: &[Colouring],
    two: &[Colouring],
) -> Result<Ruling, OutOfMemory>
    ensures ruling { IfOk result (λ r. RulesOnVerdict first.now second.now (Verdict.Different listed.now one.now two.now) r) }
    ensures claim { IfOk result (λ r. r ≡ Ruling.Accepted → Claims first.now second.now (Verdict.Different listed.now one.now two.now)) }
{
    let quandle = listed.quandle();
    let _order = quandle.order();
    match cause_of_lists(alloc, first, second, quandle, one, two)? {
        Some(cause) => Ok(Ruling::Rejected(cause)),
        None => Ok(Ruling::Accepted),
    }
}

/// Why the quandle does not distinguish the grids by these lists: the first cause.
fn cause_of_lists(
    alloc: Global,
    first: &Grid,
    second: &Grid,
    quandle: &Quandle,
    one: &[Colouring],
    two: &[Colouring],
) -> Result<Option<Why>, OutOfMemory>
    ensures { IfOk result (λ o. o ≡ cause_of_lists quandle.now first.now second.now (lists_of one.now) (lists_of two.now)) }
{
    if !fits(first, quandle) {
        return Ok(Some(wide(1, first)));
    }
    if !fits(second, quandle) {
        return Ok(Some(wide(2, second)));
    }
    if let Some(place) = difference(alloc, first, quandle, one)? {
        return Ok(Some(Why::List { which: 1, place }));
    }
    if let Some(place) = difference(alloc, second, quandle, two)? {
        return Ok(Some(Why::List { which: 2, place }));
    }
    if one.len() == two.len() {
        return Ok(Some(Why::SameLength));
    }
    Ok(None)
}

/// That a quandle does not fit the grid of this number.
fn wide(which: u8, grid: &Grid) -> Why
    ensures { result ≡ Why.Wide which (bottoms grid.now) }
{
    Why::Wide {
        which,
        bottoms: grid.bottoms(),
    }
}

/// Where a list and the complete list of a grid first differ. The complete list is let go at the end.
fn difference(
    alloc: Global,
    grid: &Grid,
    quandle: &Quandle,
    given: &[Colouring],
) -> Result<Option<usize>, OutOfMemory>
    requires { fits quandle.now grid.now ≡ true }
    ensures { IfOk result (λ o. o ≡ first_difference (lists_of given.now) (colourings quandle.now grid.now)) }
{
    let complete = list_fitting(alloc, grid, quandle)?;
    Ok(first_difference(given, complete.as_slice()))
}

/// The first place at which two lists differ, or at which one of them has ended. `None` where they are equal.
fn first_difference(given: &[Colouring], complete: &[Colouring]) -> Option<usize>
    ensures { result ≡ first_difference (lists_of given.now) (lists_of complete.now) }
{
    let most = given.len().min(complete.len());
    for place in 0..most {
        if given[place].as_slice() != complete[place].as_slice() {
            return Some(place);
        }
    }
    if given.len() == complete.len() {
        None
    } else {
        Some(most)
    }
}
