//! Why a line is no braid.

use crate::numbers::number_of;
use crate::reason::{Due, Reason};
use crate::shown::{Shown, write_blanks};
use braid_core::MAX_STRANDS;
use grid_core::MAX_SIZE;
use std::fmt;
use text_items::letter;
use text_items::reading::MAX_NUMBER;
use text_lines::{Line, MAX_DIGITS};

/// Why a line is no braid.
#[derive(Clone, Copy, PartialEq, Eq)]
pub enum BraidReason<'a> {
    /// Nothing follows `braid`.
    NoStrands,
    /// There are no strands, or more than `MAX_STRANDS`.
    Strands { strands: u32 },
    /// A token is no letter.
    NoLetter { token: Shown<'a> },
    /// A letter is 0, or crosses strands that are not there.
    Letter { letter: i64, strands: u32 },
    /// The closure has too many columns.
    Wide { letters: usize, strands: u32 },
}

impl<'a> fmt::Display for BraidReason<'a> {
    fn fmt<W: fmt::Write>(&self, f: &mut fmt::Formatter<W>) -> fmt::Result {
        match self {
            BraidReason::NoStrands => {
                f.write_str("the number of strands is due after `braid`, and then the letters")
            }
            BraidReason::Strands { strands: 0 } => write!(f, "a braid has one strand or more"),
            BraidReason::Strands { strands } => write!(
                f,
                "{strands} strands are more than the {MAX_STRANDS} that a braid may have"
            ),
            BraidReason::NoLetter { token } => {
                write!(
                    f,
                    "{token} is not a letter: a letter is a number, with a `-` before it for a negative crossing"
                )?;
                write_blanks(f, *token, "letters")
            }
            BraidReason::Letter { letter: 0, .. } => {
                f.write_str("0 is not a letter: the letters of a braid begin with 1 and -1")
            }
            BraidReason::Letter { letter, strands } => write!(
                f,
                "{letter} is not a letter of a braid of {strands} strands: a letter i crosses strands i and i + 1"
            ),
            BraidReason::Wide { letters, strands } => {
                write!(
                    f,
                    "the closure of {letters} letters on {strands} strands has more than the {MAX_SIZE} columns that a diagram may have"
                )?;
                f.write_str(": one a letter and two a strand")
            }
        }
    }
}

/// Why the line of a braid is bad, after its first word.
pub(crate) fn braid_reason<'a>(line: &mut Line<'a>, due: Due) -> Reason<'a> {
    match braid_fault(line) {
        Ok(Some(reason)) => Reason::Braid(reason),
        Ok(None) => Reason::Other { due },
        Err(reason) => reason,
    }
}

/// Why what a line says is no braid, or None; the error is a token that is no number or has too many digits.
fn braid_fault<'a>(line: &mut Line<'a>) -> Result<Option<BraidReason<'a>>, Reason<'a>> {
    let Some(token) = line.next_token() else {
        return Ok(Some(BraidReason::NoStrands));
    };
    let strands = number_of(token)?;
    let word = Word::of(line, strands)?;
    let is_long = token.len() > MAX_DIGITS;
    match (word.long, is_long) {
        (Some(token), _) => Err(Reason::Digits { token }),
        (None, true) => Err(Reason::Digits {
            token: Shown(token),
        }),
        (None, false) => Ok(word.reason(strands)),
    }
}

/// The value of a letter, or why a token is none.
fn letter_of<'a>(token: &'a [u8]) -> Result<i64, Reason<'a>> {
    match letter(token) {
        Some(value) => Ok(value),
        None => Err(Reason::Braid(BraidReason::NoLetter {
            token: Shown(token),
        })),
    }
}

/// The letters of a line.
#[derive(Drop)]
struct Word<'a> {
    /// How many there are.
    count: usize,
    /// The first that crosses strands that are not there.
    bad: Option<i64>,
    /// The first that has too many digits.
    long: Option<Shown<'a>>,
}

impl<'a> Word<'a> {
    /// The letters that are left of a line of a braid of so many strands, or why some token is none.
    fn of(line: &mut Line<'a>, strands: u32) -> Result<Word<'a>, Reason<'a>> {
        let mut word = Word {
            count: 0,
            bad: None,
            long: None,
        };
        for _token in 0..u64::MAX {
            let Some(token) = line.next_token() else {
                break;
            };
            let value = letter_of(token)?;
            word.take(token, value, strands);
        }
        Ok(word)
    }

    /// Why so many strands and these letters are no braid: by a limit, and only then by what they say.
    fn reason(&self, strands: u32) -> Option<BraidReason<'a>> {
        let letters = self.count;
        if strands as usize > MAX_STRANDS {
            return Some(BraidReason::Strands { strands });
        }
        if letters.saturating_add(2 * (strands as usize)) > MAX_SIZE {
            return Some(BraidReason::Wide { letters, strands });
        }
        if strands < 1 {
            return Some(BraidReason::Strands { strands });
        }
        let letter = self.bad?;
        Some(BraidReason::Letter { letter, strands })
    }

    /// Takes one letter more.
    fn take(&mut self, token: &'a [u8], value: i64, strands: u32) {
        self.count = self.count.saturating_add(1);
        let size = value.unsigned_abs();
        if size > u64::from(MAX_NUMBER) && self.long.is_none() {
            self.long = Some(Shown(token));
        }
        let is_bad = value == 0 || size >= u64::from(strands);
        if is_bad && self.bad.is_none() {
            self.bad = Some(value);
        }
    }
}
