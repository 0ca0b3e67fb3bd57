//! Laws of Mochizuki's formula, over the definitions alone.
ghost use Rattle.std.specs.Prelude.{◌≡◌, ◌<◌, ◌≤◌, ◌%◌, ◌↔◌, ℕ, true};
ghost use Rattle.quandle_core.specs.Quandle.{Table, IsQuandle};
ghost use Rattle.quandle_core.specs.Tables.{dihedral};
ghost use Rattle.quandle_core.specs.declared.quandle.TheConstants.{MAX_ORDER};
ghost use Rattle.cocycle_core.specs.ShadowCocycle.{IsShadowCocycle};
ghost use Rattle.cocycle_core.specs.Formula.{is_prime, dividend, mochizuki, is_dihedral};

/// Mochizuki's formula gives a shadow cocycle of the dihedral quandle of each prime order. Its division leaves nothing.
pub fn mochizuki_is_a_shadow_cocycle()
    ensures cocycle { (p : ℕ) → is_prime p ≡ true → p ≤ MAX_ORDER → IsShadowCocycle (mochizuki p) }
    ensures whole { (p y z : ℕ) → is_prime p ≡ true → p ≤ MAX_ORDER → y < p → z < p → dividend p y z % p ≡ 0 }
{}

/// A quandle passes the test for dihedral ones exactly if it is the dihedral quandle of its order.
pub fn a_dihedral_quandle_is_known()
    ensures { (t : Table) → IsQuandle t → (is_dihedral t ≡ true) ↔ (t ≡ dihedral t.order) }
{}
