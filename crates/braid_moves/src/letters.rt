//! The letters of a braid after a step.
ghost use Rattle.std.specs.Prelude.{◌≡◌, ◌≤◌, ◌+◌, ◌++◌, None, length, take, drop};
ghost use Rattle.braid_core.specs.Braid.{IsBraid};
ghost use Rattle.braid_moves.specs.Step.{moved};
ghost use Rattle.braid_moves.specs.Fault.{first_step_fault};
ghost use Rattle.braid_moves.specs.declared.step.BraidMove.TheVariants as kind;

use crate::step::BraidMove;
use arrayvec::ArrayVec;
use braid_core::Braid;
use grid_core::MAX_SIZE;

/// Letters from first to last.
pub(crate) type Letters = ArrayVec<i8, MAX_SIZE>;

/// The letters of a braid after a legal step. Takes no memory.
pub(crate) fn letters_after(braid: &Braid, step: BraidMove) -> Letters
    requires legal { first_step_fault braid.now step ≡ None }
    ensures { result.items ≡ (moved braid.now step).letters }
{
    match step {
        BraidMove::Far(p) => after_far(braid, p as usize),
        BraidMove::Triple(p) => after_triple(braid, p as usize),
        BraidMove::Cancel(p) => after_cancel(braid, p as usize),
        BraidMove::Insert { place, letter } => after_insert(braid, place as usize, letter),
        BraidMove::Turn(k) => after_turn(braid, k as usize),
        BraidMove::Grow { positive } => after_grow(braid, positive),
        BraidMove::Shrink => after_shrink(braid),
    }
}

/// The number of strands of a braid after a legal step.
pub(crate) fn strands_after(braid: &Braid, step: BraidMove) -> u8
    requires legal { first_step_fault braid.now step ≡ None }
    ensures { result ≡ (moved braid.now step).strands }
{
    let strands = braid.strands();
    match step {
        BraidMove::Far(_p) | BraidMove::Triple(_p) | BraidMove::Cancel(_p) => strands,
        BraidMove::Insert {
            place: _,
            letter: _,
        } => strands,
        BraidMove::Turn(_k) => strands,
        BraidMove::Grow { positive: _ } => strands + 1,
        BraidMove::Shrink => strands - 1,
    }
}

/// Appends so many letters of a list, from a place on.
fn append(out: &mut Letters, letters: &[i8], from: usize, count: usize)
    requires part { from + count ≤ length letters.now }
    requires room { length out.old.items + count ≤ MAX_SIZE }
    ensures { out.new.items ≡ out.old.items ++ take count (drop from letters.now) }
{
    let (_before, rest) = letters.split_at(from);
    let (part, _behind) = rest.split_at(count);
    out.try_extend_from_slice(part).unwrap();
}

fn after_far(braid: &Braid, p: usize) -> Letters
    requires { first_step_fault braid.now (kind.Far p) ≡ None }
    ensures { result.items ≡ (moved braid.now (kind.Far p)).letters }
{
    let letters = braid.letters();
    let mut out = Letters::new();
    append(&mut out, letters, 0, p);
    append(&mut out, letters, p + 1, 1);
    append(&mut out, letters, p, 1);
    append(&mut out, letters, p + 2, letters.len() - 2 - p);
    out
}

fn after_triple(braid: &Braid, p: usize) -> Letters
    requires { first_step_fault braid.now (kind.Triple p) ≡ None }
    ensures { result.items ≡ (moved braid.now (kind.Triple p)).letters }
{
    let letters = braid.letters();
    let mut out = Letters::new();
    append(&mut out, letters, 0, p);
    append(&mut out, letters, p + 1, 1);
    append(&mut out, letters, p, 1);
    append(&mut out, letters, p + 1, 1);
    append(&mut out, letters, p + 3, letters.len() - 3 - p);
    out
}

fn after_cancel(braid: &Braid, p: usize) -> Letters
    requires { first_step_fault braid.now (kind.Cancel p) ≡ None }
    ensures { result.items ≡ (moved braid.now (kind.Cancel p)).letters }
{
    let letters = braid.letters();
    let mut out = Letters::new();
    append(&mut out, letters, 0, p);
    append(&mut out, letters, p + 2, letters.len() - 2 - p);
    out
}

fn after_insert(braid: &Braid, place: usize, letter: i8) -> Letters
    requires { first_step_fault braid.now (kind.Insert place letter) ≡ None }
    ensures { result.items ≡ (moved braid.now (kind.Insert place letter)).letters }
{
    let letters = braid.letters();
    let mut out = Letters::new();
    append(&mut out, letters, 0, place);
    out.push(letter);
    out.push(-letter);
    append(&mut out, letters, place, letters.len() - place);
    out
}

fn after_turn(braid: &Braid, k: usize) -> Letters
    requires { first_step_fault braid.now (kind.Turn k) ≡ None }
    ensures { result.items ≡ (moved braid.now (kind.Turn k)).letters }
{
    let letters = braid.letters();
    let mut out = Letters::new();
    append(&mut out, letters, k, letters.len() - k);
    append(&mut out, letters, 0, k);
    out
}

fn after_grow(braid: &Braid, positive: bool) -> Letters
    requires { first_step_fault braid.now (kind.Grow positive) ≡ None }
    ensures { result.items ≡ (moved braid.now (kind.Grow positive)).letters }
{
    let letters = braid.letters();
    let mut out = Letters::new();
    append(&mut out, letters, 0, letters.len());
    let crossing = braid.strands() as i8;
    out.push(if positive { crossing } else { -crossing });
    out
}

fn after_shrink(braid: &Braid) -> Letters
    requires { first_step_fault braid.now kind.Shrink ≡ None }
    ensures { result.items ≡ (moved braid.now kind.Shrink).letters }
{
    let letters = braid.letters();
    let mut out = Letters::new();
    append(&mut out, letters, 0, letters.len() - 1);
    out
}
