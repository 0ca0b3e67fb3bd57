//! Signed Gauss lines.
ghost use Rattle.std.specs.Prelude.{◌≡◌, []};
ghost use Rattle.std.specs.List.{list_any};
ghost use Rattle.text_items.specs.Reading.{Gives, each_token};
ghost use Rattle.code_text.specs.GaussLines.{over_of, sign_of, passage_by, passage_of, is_beyond, walk_at, walks_from};

use code_rows::MAX_CROSSINGS;
use memory_core::Items;
use std::alloc::Global;
use text_items::TextFault;
use text_items::reading::word;
use text_lines::{Line, Lines, number};

/// A passage of a strand through a crossing.
#[derive(Clone, Copy, PartialEq, Eq)]
pub struct GaussPassage {
    /// Whether the strand is the one over.
    pub over: bool,
    /// The number of the crossing, from 1.
    pub crossing: u32,
    /// Whether the sign of the crossing is positive.
    pub positive: bool,
}

/// Whether the strand is the one over: `O` says that it is, `U` that it isn't, and any other byte nothing.
fn over_of(byte: u8) -> Option<bool>
    ensures { result ≡ over_of byte }
{
    if byte == b'O' {
        Some(true)
    } else if byte == b'U' {
        Some(false)
    } else {
        None
    }
}

/// Whether a sign is positive: `+` says that it is, `-` that it isn't, and any other bytes nothing.
fn sign_of(bytes: &[u8]) -> Option<bool>
    ensures { result ≡ sign_of bytes.now }
{
    if bytes == b"+".as_slice() {
        Some(true)
    } else if bytes == b"-".as_slice() {
        Some(false)
    } else {
        None
    }
}

/// The passage that a token writes.
fn passage_of(token: &[u8]) -> Option<GaussPassage>
    ensures { result ≡ passage_of token.now }
{
    let [kind, rest @ ..] = token else {
        return None;
    };
    let (digits, sign) = rest.split_at(rest.len().saturating_sub(1));
    passage_by(over_of(*kind), number(digits), sign_of(sign))
}

/// The passage of three parts, if each is one.
fn passage_by(
    over: Option<bool>,
    crossing: Option<u32>,
    positive: Option<bool>,
) -> Option<GaussPassage>
    ensures { result ≡ passage_by over crossing positive }
{
    Some(GaussPassage {
        over: over?,
        crossing: crossing?,
        positive: positive?,
    })
}

/// All tokens that are left of a line, as passages.
fn passages(alloc: Global, line: &mut Line) -> Result<Vec<GaussPassage>, TextFault>
    ensures { Gives (λ v. v.items) result (each_token passage_of line.old.number line.old.tokens) }
{
    let at = line.number();
    let mut found = Vec::new(alloc);
    while let Some(token) = line.next_token() {
        let Some(passage) = passage_of(token) else {
            return Err(TextFault::Malformed { line: at });
        };
        found.push(passage)?;
    }
    Ok(found)
}

/// Whether one of the passages has a number above those of crossings.
fn any_beyond(passages: &[GaussPassage]) -> bool
    ensures { result ≡ list_any is_beyond passages.now }
{
    passages
        .iter()
        .any(|passage| passage.crossing > MAX_CROSSINGS as u32)
}

/// The passages of a line.
#[tactic(auto, unfolding(crate::specs::GaussLines::walk_at))]
fn walk_at(alloc: Global, line: &mut Line) -> Result<Vec<GaussPassage>, TextFault>
    ensures { Gives (λ v. v.items) result (walk_at line.old) }
{
    word(line, b"gauss")?;
    let at = line.number();
    let found = passages(alloc, line)?;
    if found.is_empty() {
        return Err(TextFault::Malformed { line: at });
    }
    if any_beyond(found.as_slice()) {
        return Err(TextFault::Limit { line: at });
    }
    Ok(found)
}

/// The passages of all lines up to the first that doesn't begin with `gauss`.
#[tactic(auto, unfolding(crate::specs::GaussLines::walks_from))]
pub(crate) fn walks_from(
    alloc: Global,
    lines: &mut Lines,
) -> Result<Vec<Items<GaussPassage>>, TextFault>
    ensures { Gives (λ v. (v.items, lines.new)) result (walks_from [] lines.old) }
{
    let mut walks = Vec::new(alloc);
    while lines.begins(b"gauss") {
        let Some(mut line) = lines.next_line() else {
            return Ok(walks);
        };
        let walk = walk_at(alloc, &mut line)?;
        walks.push(Items::from_vec(walk))?;
    }
    Ok(walks)
}
