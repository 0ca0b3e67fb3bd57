//! Laws of cocycles, over the definitions alone.
ghost use Rattle.std.specs.Prelude.{◌≡◌, ◌↔◌, Some, None};
ghost use Rattle.quandle_core.specs.Quandle.{IsQuandle};
ghost use Rattle.cocycle_core.specs.Cocycle.{Cochain, IsCocycle};
ghost use Rattle.cocycle_core.specs.Fault.{first_cocycle_fault};
ghost use Rattle.cocycle_core.specs.CocycleCases.{IsFirstCocycleFault};
ghost use Rattle.cocycle_core.specs.declared.fault.CocycleFault.{CocycleFault};

/// A table of numbers over a quandle has no fault exactly where it is a cocycle.
pub fn no_fault_is_a_cocycle()
    ensures { (w : Cochain) → IsQuandle w.quandle → (first_cocycle_fault w ≡ None) ↔ IsCocycle w }
{}

/// The first fault is exactly the one whose case fails, where no earlier law fails and no lexicographically smaller case of its own law.
pub fn the_first_fault_comes_first()
    ensures { (w : Cochain) (fault : CocycleFault) → (first_cocycle_fault w ≡ Some fault) ↔ IsFirstCocycleFault w fault }
{}
