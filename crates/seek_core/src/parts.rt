//! A problem that comes in parts.
ghost use Rattle.std.specs.Prelude.{◌≡◌, [], IfOk, IfSome, IfNone, OnOk};
ghost use Rattle.text_lines.specs.Lines.{are_whole_lines, line_count};
ghost use Rattle.verdict_laws.specs.VerdictDecision.{put_behind};
ghost use Rattle.seek_core.specs.Parts.{joined, StandsIn};

use memory_core::{Items, OutOfMemory};
use std::alloc::Global;
use text_lines::Lines;

/// The parts one after the other, each from the beginning of a line on. It fails only if memory runs out.
pub fn join_parts(alloc: Global, parts: &[Items<u8>]) -> Result<Vec<u8>, OutOfMemory>
    ensures { IfOk result (λ whole. whole.items ≡ joined parts.now) }
{
    let mut whole = Vec::new(alloc);
    for part in parts {
        put_behind(&mut whole, part.as_slice())?;
    }
    Ok(whole)
}

/// Where a line of the parts, one after the other, is: which part it is in, counted from 0, and its number there; lines are counted from 1.
/// A line after the last one is after those of the last part. None comes if there are no parts. Takes no memory.
pub fn part_with_line(parts: &[Items<u8>], line: usize) -> Option<(usize, usize)>
    ensures some { IfSome result (λ at. StandsIn parts.now line at.0 at.1) }
    ensures none { IfNone result (parts.now ≡ []) }
{
    let count = parts.len();
    let mut left = line;
    for part in 0..count {
        let lines = line_count(parts[part].as_slice());
        if left <= lines || part + 1 == count {
            return Some((part, left));
        }
        left -= lines;
    }
    None
}

/// How many lines there are, of which the last may lack its line feed.
fn line_count(bytes: &[u8]) -> usize
    ensures { result ≡ line_count bytes.now }
{
    Lines::new(bytes).ending() - 1
}

/// Appends a part, after a line feed where the last line lacks one.
fn put_behind(whole: &mut Vec<u8>, part: &[u8]) -> Result<(), OutOfMemory>
    ensures { OnOk result (whole.new.items ≡ put_behind whole.old.items part.now) }
{
    if are_whole_lines(whole.as_slice()) {
        whole.extend_from_slice(part)?;
        return Ok(());
    }
    whole.extend_from_slice(b"\n")?;
    whole.extend_from_slice(part)?;
    Ok(())
}

/// Whether there are no bytes, or the last one is a line feed.
fn are_whole_lines(bytes: &[u8]) -> bool
    ensures { result ≡ are_whole_lines bytes.now }
{
    let size = bytes.len();
    if size == 0 {
        return true;
    }
    bytes[size - 1] == b'\n'
}
