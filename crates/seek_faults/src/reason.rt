//! What is due in a line, and why the line is something else.

use crate::braids::BraidReason;
use crate::grids::GridReason;
use crate::quandles::QuandleReason;
use crate::shape::{Limits, Part};
use crate::shown::{Shown, write_blanks};
use std::fmt;
use text_lines::MAX_DIGITS;

/// Which of the diagrams of an input.
#[derive(Clone, Copy, PartialEq, Eq)]
pub enum Which {
    Only,
    First,
    Second,
}

/// What is due in a line of an input.
#[derive(Clone, Copy, PartialEq, Eq)]
pub enum Due {
    /// The first line of a diagram.
    Diagram { which: Which, is_braid: bool },
    /// The line of the Os of a diagram.
    Rings { which: Which },
    /// A row of the table of a quandle, counted from 0.
    Row { row: usize },
    /// A quandle, or nothing.
    Quandles { are_two: bool },
    /// A quandle.
    Quandle,
    /// Nothing.
    Nothing { are_two: bool },
    /// The first line of a part, or a quandle in its place, if one may come there.
    Begin { part: Part },
    /// A further line of the part that begins in a line.
    Behind { part: Part, line: usize },
}

/// Why a line is not what is due.
#[derive(Clone, Copy, PartialEq, Eq)]
pub enum Reason<'a> {
    /// There is no such line: the text ends before.
    Ends { due: Due },
    /// The line begins with another word.
    Begins { due: Due, token: Shown<'a> },
    /// A token is no number.
    NoNumber { token: Shown<'a> },
    /// A number has too many digits.
    Digits { token: Shown<'a> },
    /// It is no line of a grid.
    Grid(GridReason),
    /// It is no braid.
    Braid(BraidReason<'a>),
    /// It is no quandle.
    Quandle(QuandleReason<'a>),
    /// A limit of a part is exceeded.
    Limit { part: Part },
    /// It isn't what is due, and no more is known: of a line of a part, or of one that isn't the first bad one.
    Other { due: Due },
}

impl Which {
    /// The article and the number of a diagram that isn't there yet.
    fn new(self) -> &'static str {
        match self {
            Which::Only => "a",
            Which::First => "the first",
            Which::Second => "the second",
        }
    }

    /// The article and the number of a diagram that has begun.
    fn begun(self) -> &'static str {
        match self {
            Which::Only => "the",
            Which::First => "the first",
            Which::Second => "the second",
        }
    }
}

/// The diagrams of an input, as they are called.
fn diagrams(are_two: bool) -> &'static str {
    if are_two {
        "the two diagrams"
    } else {
        "the diagram"
    }
}

impl fmt::Display for Due {
    fn fmt<W: fmt::Write>(&self, f: &mut fmt::Formatter<W>) -> fmt::Result {
        match self {
            Due::Diagram { which, is_braid } => {
                let which = which.new();
                if *is_braid {
                    write!(f, "{which} braid is due, as a line `braid ..`")
                } else {
                    write!(
                        f,
                        "{which} diagram is due, as lines `x ..` and `o ..` or as a line `braid ..`"
                    )
                }
            }
            Due::Rings { which } => {
                let which = which.begun();
                write!(f, "the line `o ..` of {which} diagram is due")
            }
            Due::Row { row } => {
                let row = *row;
                write!(f, "row {row} of the table of a quandle is due")
            }
            Due::Quandles { are_two } => {
                let diagrams = diagrams(*are_two);
                write!(f, "only lines `quandle ..` may follow {diagrams}")
            }
            Due::Quandle => write!(f, "a line `quandle ..` is due"),
            Due::Nothing { are_two } => {
                let diagrams = diagrams(*are_two);
                write!(f, "nothing may follow {diagrams}")
            }
            Due::Begin { part } => write_begin(f, *part),
            Due::Behind { part, line } => {
                write!(f, "more is due after line {line}, where {part}")
            }
        }
    }
}

/// Writes what is due where a part may begin.
fn write_begin<W: fmt::Write>(f: &mut fmt::Formatter<W>, part: Part) -> fmt::Result {
    f.write_str(match part {
        Part::Verdict => {
            "lines `quandle ..` or a verdict are due, from `certificate ..`, `equal ..`, `different ..` or `unknown ..` on"
        }
        Part::Moves => "a line `moves ..` with their number is due",
        Part::Steps => "a line `steps ..` with their number is due",
        Part::LargeCocycle => {
            "only a cocycle of the quandle, from a line `weight ..` or `shadow ..` on, or lines `quandle ..` may follow"
        }
        Part::Cocycle => "a line `weight ..` with a modulus or a line `shadow ..` is due",
    })
}

/// Writes who reads a planar diagram code, where one begins in the place of a diagram.
fn write_readers<W: fmt::Write>(f: &mut fmt::Formatter<W>, due: Due, token: Shown) -> fmt::Result {
    match due {
        Due::Diagram { .. } if token.begins_code() => f.write_str(
            "; a planar diagram code, as this may be, is read by `knot grid` and by `seek --pd FILE`",
        ),
        _ => Ok(()),
    }
}

impl<'a> fmt::Display for Reason<'a> {
    fn fmt<W: fmt::Write>(&self, f: &mut fmt::Formatter<W>) -> fmt::Result {
        match self {
            Reason::Ends { due } => write!(f, "the input ends here, and {due}"),
            Reason::Begins { due, token } => {
                write!(f, "the line begins with {token}, and {due}")?;
                write_readers(f, *due, *token)
            }
            Reason::NoNumber { token } => {
                write!(f, "{token} is not a number")?;
                write_blanks(f, *token, "numbers")
            }
            Reason::Digits { token } => write!(
                f,
                "{token} has more than the {MAX_DIGITS} digits of a number"
            ),
            Reason::Grid(reason) => write!(f, "{reason}"),
            Reason::Braid(reason) => write!(f, "{reason}"),
            Reason::Quandle(reason) => write!(f, "{reason}"),
            Reason::Limit { part } => {
                let limits = Limits(*part);
                write!(f, "a limit is exceeded: {limits}")
            }
            Reason::Other {
                due: Due::Behind { part, line },
            } => write!(
                f,
                "the line is not what is due after line {line}, where {part}"
            ),
            Reason::Other { due } => write!(f, "the line is not what is due: {due}"),
        }
    }
}
