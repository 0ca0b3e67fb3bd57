//! Tokens in sentences.

use std::fmt;

/// How many bytes of a token are shown.
const MOST: usize = 24;
/// The bytes of a byte order mark, U+FEFF, which some programs put before a text.
const MARK: &[u8] = b"\xef\xbb\xbf";
/// The bytes of U+2212, the minus sign of typeset texts.
const MINUS: &[u8] = b"\xe2\x88\x92";

/// The marks with which a text in UTF-16 begins.
const WIDE_MARKS: [&[u8]; 2] = [b"\xff\xfe", b"\xfe\xff"];
/// With what the first token of a planar diagram code may begin, as programs print one.
const CODE_FRONTS: [&[u8]; 8] = [
    b"PD[",
    b"PD(",
    b"X[",
    b"[[",
    b"[(",
    b"((",
    b"{{",
    b"crossings",
];

/// A token of a text, as it is shown in a sentence: its first bytes, and a `?` for each that is no printable ASCII. A byte order mark, which
/// nobody sees, and the minus sign of typeset texts, which looks like another one, are named after it, and so is UTF-16.
#[derive(Clone, Copy, PartialEq, Eq)]
pub struct Shown<'a>(pub &'a [u8]);

impl<'a> Shown<'a> {
    /// Whether it may be the first token of a planar diagram code.
    pub(crate) fn begins_code(self) -> bool {
        begins_with_any(self.0, &CODE_FRONTS)
    }
}

/// Whether bytes begin with one of these fronts.
fn begins_with_any(bytes: &[u8], fronts: &[&[u8]]) -> bool {
    fronts
        .iter()
        .any(|front| bytes.strip_prefix(*front).is_some())
}

/// Writes that tokens of a kind are separated by blanks, if this one has a comma.
pub(crate) fn write_blanks<W: fmt::Write>(
    f: &mut fmt::Formatter<W>,
    token: Shown,
    kind: &str,
) -> fmt::Result {
    if token.0.contains(&b',') {
        write!(f, "; {kind} are separated by blanks")
    } else {
        Ok(())
    }
}

impl<'a> fmt::Display for Shown<'a> {
    fn fmt<W: fmt::Write>(&self, f: &mut fmt::Formatter<W>) -> fmt::Result {
        let text = match self.0.strip_prefix(MARK) {
            Some(rest) => rest,
            None => self.0,
        };
        let has_minus = write_token(f, text)?;
        write_notes(f, self.0, has_minus)
    }
}

/// Writes the first bytes of a token, and answers whether a minus sign of typeset texts is among them.
fn write_token<W: fmt::Write>(f: &mut fmt::Formatter<W>, text: &[u8]) -> Result<bool, fmt::Error> {
    let mut has_minus = false;
    let mut rest = text;
    f.write_str("`")?;
    for _shown in 0..MOST {
        let Some((shown, behind)) = first_shown(rest) else {
            break;
        };
        has_minus = has_minus || shown == '−';
        f.write_char(shown)?;
        rest = behind;
    }
    f.write_str(if rest.is_empty() { "`" } else { "…`" })?;
    Ok(has_minus)
}

/// The sign that stands for the first bytes of a text, and the bytes after these.
fn first_shown(text: &[u8]) -> Option<(char, &[u8])> {
    match (text.strip_prefix(MINUS), text.split_first()) {
        (Some(behind), _) => Some(('−', behind)),
        (None, Some((byte, behind))) => Some((printable(*byte), behind)),
        (None, None) => None,
    }
}

/// Writes what can't be seen in a token.
fn write_notes<W: fmt::Write>(
    f: &mut fmt::Formatter<W>,
    token: &[u8],
    has_minus: bool,
) -> fmt::Result {
    if token.strip_prefix(MARK).is_some() {
        f.write_str(" (after a byte order mark, which must be removed)")?;
    }
    if has_minus {
        f.write_str(" (with U+2212, a minus sign from a text; write -)")?;
    }
    if begins_with_any(token, &WIDE_MARKS) {
        f.write_str(" (of a text in UTF-16; `iconv -f UTF-16 -t UTF-8` makes one that is read)")?;
    }
    Ok(())
}

/// What represents a byte.
fn printable(byte: u8) -> char {
    if b' ' <= byte && byte <= b'~' {
        char::from(byte)
    } else {
        '?'
    }
}
