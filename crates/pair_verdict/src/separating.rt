//! The first listed quandle that separates two diagrams.
ghost use Rattle.std.specs.Prelude.{◌≡◌, ◌≤◌, true, Some, None, if◌then◌else◌, IfOk, IfSome};
ghost use Rattle.colour_list.specs.Fits.{fits};
ghost use Rattle.colour_list.specs.Listing.{colourings, lists_of};
ghost use Rattle.verdict_core.specs.Evidence.{Claims};
ghost use Rattle.pair_verdict.specs.Separates.{separates, first_separating, IsSeparation};

use colour_list::{fits, list_fitting};
use colour_rows::Colouring;
use grid_core::Grid;
use memory_core::{Items, OutOfMemory};
use quandle_core::Quandle;
use std::alloc::Global;
use verdict_core::{Listed, Verdict};

/// The verdict `different` by the first listed quandle that separates two grids, or None where none does. A quandle that
/// does not fit both is passed over.
pub fn told_apart(
    alloc: Global,
    first: &Grid,
    second: &Grid,
    quandles: &[Listed],
) -> Result<Option<Verdict>, OutOfMemory>
    ensures verdict { IfOk result (λ o. IsSeparation first.now second.now (first_separating first.now second.now quandles.now) o) }
    ensures claim { IfOk result (λ o. IfSome o (λ v. Claims first.now second.now v)) }
{
    for listed in quandles {
        let verdict = separation(alloc, first, second, listed)?;
        if verdict.is_some() {
            return Ok(verdict);
        }
    }
    Ok(None)
}

/// The verdict `different` by a quandle, or None where it does not separate the grids.
fn separation(
    alloc: Global,
    first: &Grid,
    second: &Grid,
    listed: &Listed,
) -> Result<Option<Verdict>, OutOfMemory>
    ensures verdict { IfOk result (λ o. IsSeparation first.now second.now
        (if separates first.now second.now listed.now.table then Some listed.now else None) o) }
    ensures claim { IfOk result (λ o. IfSome o (λ v. Claims first.now second.now v)) }
{
    let quandle = listed.quandle();
    let _order = quandle.order();
    if !fits(first, quandle) || !fits(second, quandle) {
        return Ok(None);
    }
    let one = list_fitting(alloc, first, quandle)?;
    let two = list_fitting(alloc, second, quandle)?;
    if one.len() == two.len() {
        return Ok(None);
    }
    Ok(Some(Verdict::Different {
        listed: listed.copy(),
        first: Items::from_vec(one),
        second: Items::from_vec(two),
    }))
}
