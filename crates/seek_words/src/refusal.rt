//! What is said of words that are refused: what `clap` says of them, and the bounds of options.

use crate::command::{ROOM, SEED, STEPS, WORKERS};
use clap::Error;
use clap::error::ErrorKind;
use std::alloc::{AllocError, Global};

/// How a line begins that names an option that doesn't exist.
const NO_OPTION: &str = "error: unexpected argument '-";

/// How a line begins that gives a tip.
const TIP: &str = "  tip: ";

/// How a tip begins that names a similar option.
const LIKE: &str = "  tip: a similar argument exists: '-";

/// What is said of a number below 0 after an option, or of a braid without quotes.
const BELOW_ZERO: &str =
    "no option takes a number below 0, and a braid is written in quotes, as --braid \"2 -1 -1\"";

/// What is said of files that are too many: letters of a braid, as a rule.
const QUOTES: &str = "a braid is written in quotes, as --braid \"2 1 1 1\"";

/// What is said of words that are refused, in lines. Of the tips of `clap` only one is kept: that of an option that begins with the same
/// letter as the one that doesn't exist.
pub fn refusal_text(alloc: Global, error: &Error) -> Result<String, AllocError> {
    let text = format!(in alloc; "{error}")?;
    let mut said = String::new(alloc);
    let (first, rest) = text
        .as_str()
        .split_once("\n")
        .unwrap_or((text.as_str(), ""));
    push_line(&mut said, first)?;
    if let Some(hint) = hint_of(alloc, error.kind(), first)? {
        said.push_str("seek: ")?;
        push_line(&mut said, hint)?;
    }
    let mut is_behind_tip = false;
    for line in rest.lines() {
        let is_tip = line.starts_with(TIP) && !is_alike(first, line);
        if !is_tip && !(is_behind_tip && line.is_empty()) {
            push_line(&mut said, line)?;
        }
        is_behind_tip = is_tip;
    }
    Ok(said)
}

/// Appends a line.
fn push_line(said: &mut String, line: &str) -> Result<(), AllocError> {
    said.push_str(line)?;
    said.push('\n')
}

/// Whether a tip names an option that begins with the same letter as the one that a line says there isn't.
fn is_alike(line: &str, tip: &str) -> bool {
    match (line.strip_prefix(NO_OPTION), tip.strip_prefix(LIKE)) {
        (Some(given), Some(named)) => match (given.as_bytes(), named.as_bytes()) {
            ([b'-', first, ..], [b'-', second, ..]) => first == second,
            _ => false,
        },
        _ => false,
    }
}

/// What is said beside the first line of `clap`: the bounds of the option whose number is refused, or of all. None where no number is.
fn hint_of(alloc: Global, kind: ErrorKind, line: &str) -> Result<Option<&'static str>, AllocError> {
    match kind {
        ErrorKind::ValueValidation => bounds_in(alloc, line),
        ErrorKind::UnknownArgument if is_number(line) => Ok(Some(BELOW_ZERO)),
        ErrorKind::TooManyValues => Ok(Some(QUOTES)),
        _ => Ok(None),
    }
}

/// Whether a line says that there is no option of a name that is a number below 0.
fn is_number(line: &str) -> bool {
    match line.strip_prefix(NO_OPTION) {
        Some(name) => match name.as_bytes() {
            [digit, ..] => digit.is_ascii_digit(),
            [] => false,
        },
        None => false,
    }
}

/// The bounds of the option that a line names, or None where it names none.
fn bounds_in(alloc: Global, line: &str) -> Result<Option<&'static str>, AllocError> {
    let rows = [
        (
            SEED,
            "--seed is a whole number from 0 to 18446744073709551615, in decimal digits",
        ),
        (
            STEPS,
            "--steps is a whole number from 0 to 18446744073709551615, in decimal digits",
        ),
        (
            ROOM,
            "--room is a whole number from 0 to 4294967295, in decimal digits",
        ),
        (
            WORKERS,
            "--workers is a whole number from 1 to 64, in decimal digits",
        ),
    ];
    for (name, bounds) in rows {
        let option = format!(in alloc; "for '--{name} ")?;
        if line.contains(option.as_str()) {
            return Ok(Some(bounds));
        }
    }
    Ok(None)
}
