//! The quandles that are tried on two diagrams.
ghost use Rattle.std.specs.Prelude.{◌≡◌, [], ◌∷◌, ◌++◌, IfOk, OnOk};
ghost use Rattle.std.specs.List.{All};
ghost use Rattle.knot_text.specs.Printed.{HasQuandleText};
ghost use Rattle.seek_core.specs.Candidates.{fits_diagrams, is_named, fitting, candidate_quandles};

use crate::formulas::formula_quandles;
use colour_list::fits;
use grid_core::Grid;
use memory_core::OutOfMemory;
use std::alloc::Global;
use verdict_core::{Listed, QuandleName};

/// Those of the listed quandles that fit both diagrams, and after them those by formula that do, but for those that are listed.
pub(crate) fn candidates(
    alloc: Global,
    first: &Grid,
    second: &Grid,
    listed: &[Listed],
) -> Result<Vec<Listed>, OutOfMemory>
    requires { All HasQuandleText listed.now }
    ensures quandles { IfOk result (λ v. v.items ≡ candidate_quandles first.now second.now listed.now) }
    ensures texts { IfOk result (λ v. All HasQuandleText v.items) }
{
    let mut tried = Vec::new(alloc);
    push_fitting(&mut tried, first, second, &[], listed)?;
    let by_formula = formula_quandles(alloc)?;
    push_fitting(&mut tried, first, second, listed, by_formula.as_slice())?;
    Ok(tried)
}

/// Appends those of the quandles that fit both diagrams and are called like none of the others.
fn push_fitting(
    tried: &mut Vec<Listed>,
    first: &Grid,
    second: &Grid,
    others: &[Listed],
    quandles: &[Listed],
) -> Result<(), OutOfMemory>
    ensures { OnOk result (tried.new.items ≡ tried.old.items ++ fitting first.now second.now others.now quandles.now) }
{
    for listed in quandles {
        push_if_fitting(tried, first, second, others, listed)?;
    }
    Ok(())
}

/// Appends a quandle that fits both diagrams and is called like none of the others.
fn push_if_fitting(
    tried: &mut Vec<Listed>,
    first: &Grid,
    second: &Grid,
    others: &[Listed],
    listed: &Listed,
) -> Result<(), OutOfMemory>
    ensures { OnOk result (tried.new.items ≡ tried.old.items ++ fitting first.now second.now others.now (listed.now ∷ [])) }
{
    if fits_diagrams(first, second, listed) && !is_named(others, listed.name()) {
        tried.push(listed.copy())?;
    }
    Ok(())
}

/// Whether a quandle fits both diagrams.
fn fits_diagrams(first: &Grid, second: &Grid, listed: &Listed) -> bool
    ensures { result ≡ fits_diagrams first.now second.now listed.now }
{
    let quandle = listed.quandle();
    let _order = quandle.order();
    fits(first, quandle) && fits(second, quandle)
}

/// Whether one of the quandles has this name.
fn is_named(quandles: &[Listed], name: QuandleName) -> bool
    ensures { result ≡ is_named quandles.now name }
{
    quandles.iter().any(|listed| listed.name() == name)
}
