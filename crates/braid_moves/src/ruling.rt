//! The ruling on a list of steps between two braids.
ghost use Rattle.std.specs.Prelude.{◌≡◌, IfOk};
ghost use Rattle.braid_moves.specs.Ruling.{are_same_words, ruling};

use crate::applying::apply_braid;
use crate::step::{BraidMove, BraidMoveFault};
use braid_core::Braid;
use memory_core::OutOfMemory;
use std::alloc::Global;

/// What a list of steps from one braid to another is worth.
#[derive(Clone, Copy, PartialEq, Eq)]
pub enum BraidRuling {
    /// Each step is legal and they lead from the first braid to the second.
    Accepted,
    /// The first step that is not legal, counted from 0, with its fault, which is never `OutOfMemory`.
    Step { place: usize, fault: BraidMoveFault },
    /// Each step is legal, and they lead to another braid.
    OtherEnd,
}

/// Whether the steps, one after the other, lead from the first braid to the second, letter for letter.
///
/// The answer is the first step that is not legal, with its fault; if all are legal, whether the last braid is the second one; or `OutOfMemory`.
pub fn check_braids(
    alloc: Global,
    first: &Braid,
    second: &Braid,
    steps: &[BraidMove],
) -> Result<BraidRuling, OutOfMemory>
    ensures { IfOk result (λ r. r ≡ ruling first.now second.now steps.now) }
{
    let mut braid = copy_of(alloc, first)?;
    for place in 0..steps.len() {
        match apply_braid(alloc, &braid, steps[place]) {
            Ok(moved) => braid = moved,
            Err(BraidMoveFault::OutOfMemory) => return Err(OutOfMemory),
            Err(fault) => return Ok(BraidRuling::Step { place, fault }),
        }
    }
    if are_same(&braid, second) {
        Ok(BraidRuling::Accepted)
    } else {
        Ok(BraidRuling::OtherEnd)
    }
}

/// The same braid again, or `OutOfMemory`.
fn copy_of(alloc: Global, braid: &Braid) -> Result<Braid, OutOfMemory>
    ensures { IfOk result (λ b. b ≡ braid.now) }
{
    match Braid::new(alloc, braid.strands(), braid.letters()) {
        Ok(copy) => Ok(copy),
        Err(_fault) => Err(OutOfMemory),
    }
}

/// Whether two braids have as many strands and the same letters.
fn are_same(first: &Braid, second: &Braid) -> bool
    ensures { result ≡ are_same_words first.now second.now }
{
    first.strands() == second.strands() && first.letters() == second.letters()
}
