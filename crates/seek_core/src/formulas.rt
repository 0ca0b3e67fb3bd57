//! Quandles by formula.
ghost use Rattle.std.specs.Prelude.{◌≡◌, ◌≤◌, ◌++◌, [], ◌∷◌, IfOk, OnOk};
ghost use Rattle.quandle_core.specs.declared.quandle.TheConstants.{MAX_ORDER};
ghost use Rattle.seek_core.specs.Formulas.{names_of_order, quandles_named, formula_quandles};

use memory_core::OutOfMemory;
use quandle_core::MAX_ORDER;
use std::alloc::Global;
use verdict_core::{Listed, QuandleName};

/// The quandles by formula: the trivial one of order 2, all dihedral and Alexander ones from order 3 to `MAX_ORDER`, and the
/// tetrahedral one, each once. The three that distinguish most come first, then the smaller orders before the larger ones, and of an order the
/// dihedral one before the others, by their factors. It fails only if memory runs out.
pub fn formula_quandles(alloc: Global) -> Result<Vec<Listed>, OutOfMemory>
    ensures { IfOk result (λ v. v.items ≡ formula_quandles) }
{
    let mut list = Vec::new(alloc);
    push_named(&mut list, QuandleName::Trivial(2))?;
    push_named(&mut list, QuandleName::Dihedral(3))?;
    push_named(&mut list, QuandleName::Tetrahedral)?;
    for order in 4..MAX_ORDER as u8 + 1 {
        push_order(&mut list, order)?;
    }
    Ok(list)
}

/// Appends the dihedral quandle of an order, and its Alexander quandles but the trivial and the dihedral one.
fn push_order(list: &mut Vec<Listed>, order: u8) -> Result<(), OutOfMemory>
    requires { 4 ≤ order }
    ensures { OnOk result (list.new.items ≡ list.old.items ++ quandles_named (names_of_order order)) }
{
    push_named(list, QuandleName::Dihedral(order))?;
    for factor in 2..order - 1 {
        push_named(list, QuandleName::Alexander(order, factor))?;
    }
    Ok(())
}

/// Appends the quandle of a name, if it has one.
fn push_named(list: &mut Vec<Listed>, name: QuandleName) -> Result<(), OutOfMemory>
    ensures { OnOk result (list.new.items ≡ list.old.items ++ quandles_named (name ∷ [])) }
{
    if let Some(listed) = Listed::named(name) {
        list.push(listed)?;
    }
    Ok(())
}
