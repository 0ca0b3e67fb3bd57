//! The fixed point of the new braid that a step makes of one of the old braid.
ghost use Rattle.std.specs.Prelude.{◌≡◌, ◌<◌, ◌≤◌, None, length, take};
ghost use Rattle.std.specs.List.{All};
ghost use Rattle.braid_core.specs.Braid.{IsLetter};
ghost use Rattle.braid_core.specs.Action.{IsTuple, letter_action, action};
ghost use Rattle.braid_core.specs.FixedPoints.{IsFixedPoint};
ghost use Rattle.braid_moves.specs.Step.{moved};
ghost use Rattle.braid_moves.specs.Fault.{first_step_fault};
ghost use Rattle.braid_moves.specs.Carried.{carried_tuple};

use crate::step::BraidMove;
use arrayvec::ArrayVec;
use braid_core::{Braid, MAX_STRANDS, act_letters};
use quandle_core::Quandle;

/// The fixed point of the new braid's action that a legal step makes of a fixed point of the old one's.
///
/// A turn lets the letters that go to the end act on it, a new strand repeats the last colour, and a strand that goes takes its colour with it. Every
/// other step keeps the tuple.
/// The tuple has a colour below the order for each strand, position 1 first. Takes no memory.
pub fn carry_tuple(
    braid: &Braid,
    step: BraidMove,
    quandle: &Quandle,
    tuple: &[u8],
) -> ArrayVec<u8, MAX_STRANDS>
    requires legal { first_step_fault braid.now step ≡ None }
    requires point { IsFixedPoint quandle.now braid.now tuple.now }
    ensures carried { result.items ≡ carried_tuple quandle.now braid.now step tuple.now }
    ensures point { IsFixedPoint quandle.now (moved braid.now step) result.items }
{
    let _order = quandle.order();
    let _strands = braid.strands();
    carried(braid, step, quandle, tuple)
}

/// The tuple that a legal step makes of a tuple of colours.
fn carried(
    braid: &Braid,
    step: BraidMove,
    quandle: &Quandle,
    tuple: &[u8],
) -> ArrayVec<u8, MAX_STRANDS>
    requires legal { first_step_fault braid.now step ≡ None }
    requires tuple { IsTuple quandle.now braid.now.strands tuple.now }
    ensures { result.items ≡ carried_tuple quandle.now braid.now step tuple.now }
{
    let _order = quandle.order();
    let strands = braid.strands() as usize;
    let mut colours = copy_of(braid, tuple);
    match step {
        BraidMove::Far(_p) | BraidMove::Triple(_p) | BraidMove::Cancel(_p) => colours,
        BraidMove::Insert {
            place: _,
            letter: _,
        } => colours,
        BraidMove::Turn(k) => {
            let (front, _rest) = braid.letters().split_at(k as usize);
            act_letters(front, quandle, colours.as_mut_slice());
            colours
        }
        BraidMove::Grow { positive: _ } => {
            colours.push(tuple[strands - 1]);
            colours
        }
        BraidMove::Shrink => {
            let _last = colours.pop();
            colours
        }
    }
}

/// The colours of all strands again.
fn copy_of(braid: &Braid, tuple: &[u8]) -> ArrayVec<u8, MAX_STRANDS>
    requires { length tuple.now ≡ braid.now.strands }
    ensures { result.items ≡ tuple.now }
{
    let _strands = braid.strands();
    let mut colours = ArrayVec::new();
    colours.try_extend_from_slice(tuple).unwrap();
    colours
}
