//! A braid after a step.
ghost use Rattle.std.specs.Prelude.{◌≡◌, ◌≤◌, ◌⊎◌, None, Some, length, IfOk, IfErr, IsOk};
ghost use Rattle.braid_moves.specs.Step.{moved};
ghost use Rattle.braid_moves.specs.Fault.{first_step_fault};
ghost use Rattle.braid_core.specs.declared.braid.TheConstants.{INLINE_LETTERS};
ghost use Rattle.braid_moves.specs.declared.step.BraidMoveFault.TheVariants as fault;

use crate::fault::fault_of;
use crate::letters::{letters_after, strands_after};
use crate::step::{BraidMove, BraidMoveFault};
use braid_core::Braid;
use std::alloc::Global;

/// The braid after a step, or the first reason in the order of `BraidMoveFault` why there is none.
///
/// Takes memory for more than `INLINE_LETTERS` letters only, once nothing else can be refused.
pub fn apply_braid(alloc: Global, braid: &Braid, step: BraidMove) -> Result<Braid, BraidMoveFault>
    ensures braid { IfOk result (λ b. (first_step_fault braid.now step ≡ None) × (b ≡ moved braid.now step)) }
    ensures fault { IfErr result (λ e. (first_step_fault braid.now step ≡ Some e)
        ⊎ (first_step_fault braid.now step ≡ None) × (e ≡ fault.OutOfMemory)) }
    ensures inline { first_step_fault braid.now step ≡ None → length (moved braid.now step).letters ≤ INLINE_LETTERS → IsOk result }
{
    let _strands = braid.strands();
    if let Some(fault) = fault_of(braid, step) {
        return Err(fault);
    }
    let letters = letters_after(braid, step);
    match Braid::new(alloc, strands_after(braid, step), letters.as_slice()) {
        Ok(moved) => Ok(moved),
        Err(_fault) => Err(BraidMoveFault::OutOfMemory),
    }
}
