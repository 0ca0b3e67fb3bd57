//! Laws of the steps between braid words, over the definitions alone.
ghost use Rattle.std.specs.Prelude.{◌≡◌, None, Some, ℕ, List, length};
ghost use Rattle.quandle_core.specs.Quandle.{Table, IsQuandle};
ghost use Rattle.quandle_core.specs.Bijection.{IsBijection};
ghost use Rattle.braid_core.specs.Braid.{Word, IsBraid};
ghost use Rattle.braid_core.specs.FixedPoints.{fixed_points, IsFixedPoint};
ghost use Rattle.braid_moves.specs.Step.{moved};
ghost use Rattle.braid_moves.specs.Fault.{first_step_fault};
ghost use Rattle.braid_moves.specs.Carried.{carried_tuple};
ghost use Rattle.braid_moves.specs.Ruling.{ruling};
ghost use Rattle.braid_moves.specs.declared.step.BraidMove.{BraidMove};
ghost use Rattle.braid_moves.specs.declared.step.BraidMoveFault.TheVariants.{OutOfMemory};
ghost use Rattle.braid_moves.specs.declared.ruling.BraidRuling.TheVariants.{Accepted};

use crate::ruling::BraidRuling;

/// A legal step leads from a braid to a braid.
pub fn a_legal_step_leads_to_a_braid()
    ensures { (w : Word) → IsBraid w → (step : BraidMove) → first_step_fault w step ≡ None → IsBraid (moved w step) }
{}

/// `OutOfMemory` is never the first fault of a step, so no ruling names it.
pub fn a_fault_is_never_want_of_memory()
    ensures step { (w : Word) (step : BraidMove) → first_step_fault w step ≡ Some OutOfMemory → ⊥ }
    ensures ruling { (v w : Word) (steps : List BraidMove) (place : ℕ) → ruling v w steps ≡ BraidRuling.Step place OutOfMemory → ⊥ }
{}

/// A legal step carries the fixed points of the old braid's action one to one to those of the new braid's, for every quandle.
pub fn a_legal_step_carries_the_fixed_points()
    ensures { (t : Table) → IsQuandle t → (w : Word) → IsBraid w → (step : BraidMove) → first_step_fault w step ≡ None
        → IsBijection (IsFixedPoint t w) (IsFixedPoint t (moved w step)) (carried_tuple t w step) }
{}

/// Where a list of steps is accepted, both braids have equally many fixed points, for every quandle.
pub fn accepted_braids_have_equally_many_fixed_points()
    ensures { (t : Table) → IsQuandle t → (v w : Word) → IsBraid v → (steps : List BraidMove) → ruling v w steps ≡ Accepted
        → length (fixed_points t v) ≡ length (fixed_points t w) }
{}
