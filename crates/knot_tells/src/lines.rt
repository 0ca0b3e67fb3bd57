//! The line that an answer names.

use std::str;
use text_lines::Lines;

/// What an answer to a bad input names.
#[derive(Clone, Copy, PartialEq, Eq)]
pub(crate) enum Named {
    /// This line, counted from 1.
    Line(usize),
    /// The number of bytes.
    Bytes,
    /// How many columns a drawing takes.
    Columns(usize),
}

/// What the text of an answer names, if it is one to a bad input.
pub(crate) fn named_in(text: &[u8]) -> Option<Named> {
    if text == b"limit bytes\n".as_slice() {
        return Some(Named::Bytes);
    }
    if let Some(columns) = number_behind(b"limit columns ", text) {
        return Some(Named::Columns(columns));
    }
    if let Some(line) = number_behind(b"limit line ", text) {
        return Some(Named::Line(line));
    }
    let line = number_behind(b"malformed line ", text)?;
    Some(Named::Line(line))
}

/// The number after these bytes, where the text is one line of both.
pub(crate) fn number_behind(before: &[u8], text: &[u8]) -> Option<usize> {
    let digits = text.strip_prefix(before)?.strip_suffix(b"\n".as_slice())?;
    match str::from_utf8(digits) {
        Ok(digits) => digits.parse::<usize>().ok(),
        Err(_) => None,
    }
}

/// Whether the first line of an input is that of a table of knots.
pub(crate) fn begins_table(input: &[u8]) -> bool {
    let mut lines = Lines::new(input);
    let Some(mut line) = lines.next_line() else {
        return false;
    };
    let (Some(word), Some(version)) = (line.next_token(), line.next_token()) else {
        return false;
    };
    word == b"certificate".as_slice() && version == b"4".as_slice()
}
