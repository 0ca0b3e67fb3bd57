//! Laws of quandles, over the definitions alone.
ghost use Rattle.std.specs.Prelude.{◌≡◌, ◌<◌, ◌≤◌, ◌↔◌, ℕ, Some, None, true};
ghost use Rattle.quandle_core.specs.Quandle.{Table, IsQuandle, over, back};
ghost use Rattle.quandle_core.specs.Tables.{trivial, dihedral, alexander, tetrahedral, is_unit};
ghost use Rattle.quandle_core.specs.Fault.{first_fault_within};
ghost use Rattle.quandle_core.specs.QuandleCases.{IsFirstQuandleFault};
ghost use Rattle.quandle_core.specs.declared.fault.QuandleFault.{QuandleFault};

/// A table has no fault exactly where it is a quandle whose order is within the bound.
pub fn no_fault_is_a_quandle()
    ensures { (most : ℕ) (t : Table) → (first_fault_within most t ≡ None) ↔ IsQuandle t × (t.order ≤ most) }
{}

/// The first fault is exactly the one whose case fails, where no earlier law fails and no lexicographically smaller case of its own law.
pub fn the_first_fault_comes_first()
    ensures { (most : ℕ) (t : Table) (fault : QuandleFault) → (first_fault_within most t ≡ Some fault) ↔ IsFirstQuandleFault most t fault }
{}

/// `x ◁ y` is the one z with `z ▷ y = x`.
pub fn back_is_the_inverse()
    ensures { (t : Table) → IsQuandle t → (x y z : ℕ) → x < t.order → y < t.order → z < t.order
        → (back t x y ≡ z) ↔ (over t z y ≡ x) }
{}

/// Each trivial table of an order from 1 on is a quandle.
pub fn trivial_is_a_quandle()
    ensures { (n : ℕ) → 1 ≤ n → IsQuandle (trivial n) }
{}

/// Each dihedral table of an order from 1 on is a quandle.
pub fn dihedral_is_a_quandle()
    ensures { (n : ℕ) → 1 ≤ n → IsQuandle (dihedral n) }
{}

/// An Alexander table of an order from 1 on is a quandle exactly where t has an inverse mod n.
pub fn alexander_is_a_quandle()
    ensures { (n t : ℕ) → 1 ≤ n → IsQuandle (alexander n t) ↔ (is_unit n t ≡ true) }
{}

/// The tetrahedral table is a quandle.
pub fn tetrahedral_is_a_quandle()
    ensures { IsQuandle tetrahedral }
{}
