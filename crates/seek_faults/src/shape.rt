//! What inputs are made of.
ghost use Rattle.std.specs.Prelude.{◌≤◌};
ghost use Rattle.quandle_core.specs.declared.operations.TheConstants.{MAX_LARGE_ORDER};

use crate::reason::{Due, Which};
use colour_list::MAX_COLOURINGS;
use grid_core::MAX_SIZE;
use quandle_core::{MAX_LARGE_ORDER, MAX_ORDER};
use std::fmt;
use text_items::reading::{MAX_LETTER, MAX_PLACE};
use text_items::{MAX_MODULUS, MAX_QUANDLES};
use text_lines::MAX_DIGITS;

/// What an input is made of: diagrams, and what follows them.
#[derive(Clone, Copy, PartialEq, Eq)]
pub struct Shape {
    /// Two diagrams, or one.
    pub are_two: bool,
    /// Whether each is a braid.
    pub are_braids: bool,
    pub then: Then,
}

/// What follows the diagrams.
#[derive(Clone, Copy, PartialEq, Eq)]
pub enum Then {
    Nothing,
    /// Any number of quandles.
    Quandles,
    /// Any number of quandles, and a further part; a `LargeCocycle` follows its quandle, or there is none.
    QuandlesAnd(Part),
    /// One quandle, and a further part.
    QuandleAnd(Part),
    /// A further part.
    Only(Part),
}

/// A part of an input that isn't read here: its lines are known by where it begins.
#[derive(Clone, Copy, PartialEq, Eq)]
pub enum Part {
    Verdict,
    /// Moves, and what may follow them.
    Moves,
    Steps,
    Cocycle,
    /// A cocycle of a quandle whose table may be large.
    LargeCocycle,
}

/// Two diagrams and any number of quandles.
pub const PROBLEM: Shape = Shape {
    are_two: true,
    are_braids: false,
    then: Then::Quandles,
};

impl Shape {
    /// The diagrams, in their order.
    pub(crate) fn diagrams(self) -> &'static [Which] {
        if self.are_two {
            &[Which::First, Which::Second]
        } else {
            &[Which::Only]
        }
    }

    /// What is due after the diagrams and so many quandles.
    pub(crate) fn due_behind(self, quandles: usize) -> Due {
        let are_two = self.are_two;
        match (self.then, self.then.part(quandles)) {
            (_, Some(part)) => Due::Begin { part },
            (Then::Quandles | Then::QuandlesAnd(_), None) => Due::Quandles { are_two },
            (Then::QuandleAnd(_), None) => Due::Quandle,
            (Then::Nothing | Then::Only(_), None) => Due::Nothing { are_two },
        }
    }
}

impl Then {
    /// Whether a quandle may follow the diagrams and so many quandles.
    pub(crate) fn takes_quandle(self, quandles: usize) -> bool {
        match self {
            Then::Quandles | Then::QuandlesAnd(_) => true,
            Then::QuandleAnd(_) => quandles < 1,
            Then::Nothing | Then::Only(_) => false,
        }
    }

    /// The part that may begin after so many quandles.
    fn part(self, quandles: usize) -> Option<Part> {
        match self {
            Then::QuandlesAnd(Part::LargeCocycle) | Then::QuandleAnd(_) if quandles < 1 => None,
            Then::QuandlesAnd(part) | Then::QuandleAnd(part) | Then::Only(part) => Some(part),
            Then::Nothing | Then::Quandles => None,
        }
    }

    /// The greatest order of a quandle by its table.
    pub(crate) fn most_of_table(self) -> usize
        ensures { result ≤ MAX_LARGE_ORDER }
    {
        match self {
            Then::QuandlesAnd(Part::LargeCocycle) => MAX_LARGE_ORDER,
            _ => MAX_ORDER,
        }
    }
}

impl Part {
    /// Whether its first line may begin with a word.
    pub(crate) fn begins(self, token: &[u8]) -> bool {
        let words: &[&[u8]] = match self {
            Part::Verdict => &[b"certificate", b"equal", b"different", b"unknown"],
            Part::Moves => &[b"moves"],
            Part::Steps => &[b"steps"],
            Part::Cocycle | Part::LargeCocycle => &[b"weight", b"shadow"],
        };
        words.iter().any(|word| *word == token)
    }
}

/// The limits of the lines of a part, in words.
#[derive(Clone, Copy)]
pub(crate) struct Limits(pub(crate) Part);

impl fmt::Display for Limits {
    fn fmt<W: fmt::Write>(&self, f: &mut fmt::Formatter<W>) -> fmt::Result {
        match self.0 {
            Part::Verdict => {
                write!(
                    f,
                    "a list has at most {MAX_COLOURINGS} lines, a quandle at most {MAX_ORDER} elements, "
                )?;
                write!(
                    f,
                    "by a table in evidence by numbers at most {MAX_LARGE_ORDER} without `shadow`, a diagram at most {MAX_SIZE} seeds, "
                )?;
                write!(
                    f,
                    "a modulus or a number of a move is at most {MAX_PLACE}, "
                )
            }
            Part::Moves => write!(
                f,
                "a number of a move is at most {MAX_PLACE}, a quandle has at most {MAX_ORDER} elements, a diagram at most {MAX_SIZE} columns, "
            ),
            Part::Steps => write!(
                f,
                "a number of a step is at most {MAX_PLACE}, a letter at most {MAX_LETTER}, "
            ),
            Part::Cocycle => write!(f, "the modulus is at most {MAX_MODULUS}, "),
            Part::LargeCocycle => {
                write!(
                    f,
                    "an input has at most {MAX_QUANDLES} quandles, a quandle at most {MAX_ORDER} elements, "
                )?;
                write!(
                    f,
                    "by a table without `shadow` at most {MAX_LARGE_ORDER}, the modulus is at most {MAX_MODULUS}, "
                )
            }
        }?;
        write!(f, "and any number has at most {MAX_DIGITS} digits")
    }
}

impl fmt::Display for Part {
    fn fmt<W: fmt::Write>(&self, f: &mut fmt::Formatter<W>) -> fmt::Result {
        f.write_str(match self {
            Part::Verdict => "the verdict begins",
            Part::Moves => "the moves begin",
            Part::Steps => "the steps begin",
            Part::Cocycle | Part::LargeCocycle => "the cocycle begins",
        })
    }
}
