//! Braids, by one line.
ghost use Rattle.std.specs.Prelude.{◌≡◌, ◌++◌, [], ◌∷◌, ℤ, List};
ghost use Rattle.text_items.specs.Reading.{Gives};
ghost use Rattle.text_items.specs.Braids.{letter_of, letters, is_long_letter, braid_at, braid_item, low_letter, TellsLetters, kept_exceeds, refused};
ghost use Rattle.text_items.specs.Numbers.{KeepsOrFails};

use crate::fault::TextFault;
use crate::reading::{MAX_NUMBER, next_line, number, word};
use arrayvec::ArrayVec;
use braid_core::{Braid, BraidFault, MAX_STRANDS};
use grid_core::MAX_SIZE;
use std::alloc::Global;
use text_lines::{Line, Lines};

/// What is kept of the letters of a line.
#[derive(Drop)]
pub struct KeptLetters {
    /// The first `MAX_SIZE` of them, each of an absolute value above 126 cut down to 127.
    pub first: ArrayVec<i8, MAX_SIZE>,
    /// Whether there are more.
    pub more: bool,
    /// Whether one of them has too many digits.
    pub long: bool,
}

/// The letter that a token writes: a number, or a `-` directly followed by a number; `None` exactly where it has another
/// form.
pub fn letter(token: &[u8]) -> Option<i64>
    ensures { result ≡ letter_of token.now }
{
    match token {
        [b'-', rest @ ..] => match text_lines::number(rest) {
            Some(value) => Some(-i64::from(value)),
            None => None,
        },
        _ => match text_lines::number(token) {
            Some(value) => Some(i64::from(value)),
            None => None,
        },
    }
}

/// All tokens that are left of a line, as letters.
fn letters(line: &mut Line) -> Result<KeptLetters, TextFault>
    ensures { KeepsOrFails TellsLetters result (letters line.old) }
{
    let at = line.number();
    let mut kept = no_letters_kept();
    while let Some(token) = line.next_token() {
        let Some(value) = letter(token) else {
            return Err(TextFault::Malformed { line: at });
        };
        keep(&mut kept, value);
    }
    Ok(kept)
}

/// What is kept of no letters.
fn no_letters_kept() -> KeptLetters
    ensures { TellsLetters result [] }
{
    KeptLetters {
        first: ArrayVec::new(),
        more: false,
        long: false,
    }
}

/// Keeps one letter more.
fn keep(kept: &mut KeptLetters, letter: i64)
    ensures { (letters : List ℤ) → TellsLetters kept.old letters → TellsLetters kept.new (letters ++ letter ∷ []) }
{
    kept.long = kept.long || is_long(letter);
    if kept.first.is_full() {
        kept.more = true;
    } else {
        kept.first.push(low_letter(letter));
    }
}

/// Whether a letter has too many digits.
fn is_long(letter: i64) -> bool
    ensures { result ≡ is_long_letter letter }
{
    letter.unsigned_abs() > u64::from(MAX_NUMBER)
}

/// The letter, or 127 where its absolute value is larger.
fn low_letter(letter: i64) -> i8
    ensures { result ≡ low_letter letter }
{
    if letter.unsigned_abs() < 127 {
        letter as i8
    } else {
        127
    }
}

/// Whether so many strands with these letters exceed a limit.
fn exceeds(strands: u32, kept: &KeptLetters) -> bool
    ensures { result ≡ kept_exceeds strands kept.now }
{
    strands as usize > MAX_STRANDS
        || kept.long
        || kept.more
        || kept.first.len() + 2 * strands as usize > MAX_SIZE
}

/// The braid of a line. Takes memory for the letters of the braid alone.
#[tactic(auto, unfolding(crate::specs::Braids::braid_at))]
fn braid_at(alloc: Global, line: &mut Line) -> Result<Braid, TextFault>
    ensures { Gives (λ b. b) result (braid_at line.old) }
{
    let at = line.number();
    word(line, b"braid")?;
    let strands = number(line)?;
    let kept = letters(line)?;
    if exceeds(strands, &kept) {
        return Err(TextFault::Limit { line: at });
    }
    match Braid::new(alloc, strands as u8, kept.first.as_slice()) {
        Ok(braid) => Ok(braid),
        Err(fault) => Err(refused(at, fault)),
    }
}

/// The fault of a line whose word is no braid, or whose letters found no memory.
fn refused(at: usize, fault: BraidFault) -> TextFault
    ensures { result ≡ refused at fault }
{
    match fault {
        BraidFault::OutOfMemory => TextFault::OutOfMemory,
        BraidFault::Strands | BraidFault::Letter { .. } | BraidFault::Size => {
            TextFault::Malformed { line: at }
        }
    }
}

/// A braid item. Otherwise the fault of its line, or `OutOfMemory`.
#[tactic(auto, unfolding(crate::specs::Braids::braid_item))]
pub fn braid_item(alloc: Global, lines: &mut Lines) -> Result<Braid, TextFault>
    ensures { Gives (λ b. (b, lines.new)) result (braid_item lines.old) }
{
    let mut line = next_line(lines)?;
    braid_at(alloc, &mut line)
}
