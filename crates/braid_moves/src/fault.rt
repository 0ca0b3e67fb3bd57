//! The first reason why a step is not legal on a braid.
ghost use Rattle.std.specs.Prelude.{◌≡◌, ◌==◌, Bool, not, unsigned_abs};
ghost use Rattle.std.specs.List.{list_all};
ghost use Rattle.braid_moves.specs.Fault.{are_far, is_negative, are_triple, may_shrink, first_step_fault};
ghost use Rattle.braid_moves.specs.declared.step.BraidMove.TheVariants as kind;

use crate::step::{BraidMove, BraidMoveFault};
use braid_core::{Braid, MAX_STRANDS};
use grid_core::MAX_SIZE;

/// The first reason why a step is not legal on a braid, if there is one.
pub(crate) fn fault_of(braid: &Braid, step: BraidMove) -> Option<BraidMoveFault>
    ensures { result ≡ first_step_fault braid.now step }
{
    match step {
        BraidMove::Far(p) => far_fault(braid, p),
        BraidMove::Triple(p) => triple_fault(braid, p),
        BraidMove::Cancel(p) => cancel_fault(braid, p),
        BraidMove::Insert { place, letter } => insert_fault(braid, place, letter),
        BraidMove::Turn(k) => turn_fault(braid, k),
        BraidMove::Grow { positive: _ } => grow_fault(braid),
        BraidMove::Shrink => shrink_fault(braid),
    }
}

/// Of letters p and p + 1 that are to trade places.
fn far_fault(braid: &Braid, p: u8) -> Option<BraidMoveFault>
    ensures { result ≡ first_step_fault braid.now (kind.Far p) }
{
    let letters = braid.letters();
    let place = p as usize;
    if place + 1 >= letters.len() {
        return Some(BraidMoveFault::Range);
    }
    if !are_far(letters[place], letters[place + 1]) {
        return Some(BraidMoveFault::Shape);
    }
    None
}

/// Of letters p to p + 2 that are to become their mirrored three.
fn triple_fault(braid: &Braid, p: u8) -> Option<BraidMoveFault>
    ensures { result ≡ first_step_fault braid.now (kind.Triple p) }
{
    let letters = braid.letters();
    let place = p as usize;
    if place + 2 >= letters.len() {
        return Some(BraidMoveFault::Range);
    }
    if !are_triple(letters[place], letters[place + 1], letters[place + 2]) {
        return Some(BraidMoveFault::Shape);
    }
    None
}

/// Of letters p and p + 1 that are to go.
fn cancel_fault(braid: &Braid, p: u8) -> Option<BraidMoveFault>
    ensures { result ≡ first_step_fault braid.now (kind.Cancel p) }
{
    let letters = braid.letters();
    let place = p as usize;
    if place + 1 >= letters.len() {
        return Some(BraidMoveFault::Range);
    }
    if letters[place + 1] != -letters[place] {
        return Some(BraidMoveFault::Shape);
    }
    None
}

/// Of a letter and its negative that are to be put in.
fn insert_fault(braid: &Braid, place: u8, letter: i8) -> Option<BraidMoveFault>
    ensures { result ≡ first_step_fault braid.now (kind.Insert place letter) }
{
    let count = braid.letters().len();
    let strands = braid.strands();
    let is_letter = 1 <= letter.unsigned_abs() && letter.unsigned_abs() < strands;
    if place as usize > count || !is_letter {
        return Some(BraidMoveFault::Range);
    }
    if count + 2 + 2 * strands as usize > MAX_SIZE {
        return Some(BraidMoveFault::Full);
    }
    None
}

/// Of the first k letters that are to go to the end.
fn turn_fault(braid: &Braid, k: u8) -> Option<BraidMoveFault>
    ensures { result ≡ first_step_fault braid.now (kind.Turn k) }
{
    if k == 0 || k as usize >= braid.letters().len() {
        return Some(BraidMoveFault::Range);
    }
    None
}

/// Of a strand and a letter more.
fn grow_fault(braid: &Braid) -> Option<BraidMoveFault>
    ensures { (positive : Bool) → result ≡ first_step_fault braid.now (kind.Grow positive) }
{
    let strands = braid.strands() as usize;
    if strands >= MAX_STRANDS || braid.letters().len() + 3 + 2 * strands > MAX_SIZE {
        return Some(BraidMoveFault::Full);
    }
    None
}

/// Of the last strand and letter that are to go.
fn shrink_fault(braid: &Braid) -> Option<BraidMoveFault>
    ensures { result ≡ first_step_fault braid.now kind.Shrink }
{
    if may_shrink(braid) {
        None
    } else {
        Some(BraidMoveFault::Shape)
    }
}

/// Whether two letters have no strand in common.
fn are_far(a: i8, b: i8) -> bool
    ensures { result ≡ are_far a b }
{
    a.unsigned_abs() + 2 <= b.unsigned_abs() || b.unsigned_abs() + 2 <= a.unsigned_abs()
}

/// Whether three letters are a, b, a of one sign, of neighbouring positions.
fn are_triple(a: i8, b: i8, c: i8) -> bool
    ensures { result ≡ are_triple a b c }
{
    let of_one_sign = if is_negative(a) {
        is_negative(b)
    } else {
        !is_negative(b)
    };
    c == a
        && of_one_sign
        && (a.unsigned_abs() + 1 == b.unsigned_abs() || b.unsigned_abs() + 1 == a.unsigned_abs())
}

/// Whether a letter is below 0.
fn is_negative(letter: i8) -> bool
    ensures { result ≡ is_negative letter }
{
    letter < 0
}

/// Whether there are two strands or more, and of all letters the last alone crosses the last strand.
fn may_shrink(braid: &Braid) -> bool
    ensures { result ≡ may_shrink braid.now }
{
    let strands = braid.strands();
    if strands < 2 {
        return false;
    }
    let Some((last, front)) = braid.letters().split_last() else {
        return false;
    };
    last.unsigned_abs() == strands - 1 && has_none(front, strands - 1)
}

/// Whether no letter has this absolute value.
fn has_none(letters: &[i8], position: u8) -> bool
    ensures { result ≡ list_all (λ a. not (unsigned_abs a == position)) letters.now }
{
    letters
        .iter()
        .all(|letter| letter.unsigned_abs() != position)
}
