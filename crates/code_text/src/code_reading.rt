//! The whole text of a code.
ghost use Rattle.std.specs.Prelude.{◌≡◌, ◌≤◌, length, IfOk};
ghost use Rattle.code_rows.specs.declared.code_fault.TheConstants.{MAX_CROSSINGS};
ghost use Rattle.text_items.specs.Reading.{Gives};
ghost use Rattle.code_text.specs.CodeReading.{counted_item, perhaps_counted, most_rows, next_number, are_due, rows_item, walks_behind, code_in, code_text_of};

use crate::blanks::blanked;
use crate::gauss_lines::{GaussPassage, walks_from};
use crate::row_lines::rows_from;
use code_rows::{CodeRow, MAX_CROSSINGS};
use grid_core::MAX_SIZE;
use memory_core::Items;
use std::alloc::Global;
use text_items::TextFault;
use text_items::reading::{at_most, last_number, next_line, text_end, word};
use text_lines::Lines;

/// The most components without a crossing: a grid diagram takes two columns for each.
pub const MAX_LOOPS: usize = MAX_SIZE / 2;

/// What the text of a code says.
#[derive(Drop)]
pub struct CodeText {
    /// The edges at each crossing, by the names that the text has for them.
    pub rows: Items<CodeRow>,
    /// How many components have no crossing.
    pub loops: u32,
    /// The passages of each component that has a crossing, where the text has signed Gauss lines.
    pub walks: Items<Items<GaussPassage>>,
}

/// A word and a number, alone in a line.
#[tactic(auto, unfolding(crate::specs::CodeReading::counted_item))]
fn counted_item(lines: &mut Lines, expected: &[u8], most: u32) -> Result<u32, TextFault>
    ensures { Gives (λ n. (n, lines.new)) result (counted_item expected.now most lines.old) }
{
    let mut line = next_line(lines)?;
    word(&mut line, expected)?;
    let value = last_number(&mut line)?;
    at_most(most, &line, value)
}

/// A word and a number, alone in a line, where a line that begins with the word is next; else nothing.
#[tactic(auto, unfolding(crate::specs::CodeReading::perhaps_counted))]
fn perhaps_counted(lines: &mut Lines, expected: &[u8], most: u32) -> Result<Option<u32>, TextFault>
    ensures { Gives (λ n. (n, lines.new)) result (perhaps_counted expected.now most lines.old) }
{
    if !lines.begins(expected) {
        return Ok(None);
    }
    Ok(Some(counted_item(lines, expected, most)?))
}

/// How many rows there may be.
fn most_rows(due: Option<u32>) -> usize
    ensures { result ≡ most_rows due }
{
    match due {
        Some(due) => due as usize,
        None => MAX_CROSSINGS,
    }
}

/// Whether there are as many rows as were announced.
fn are_due(due: Option<u32>, rows: &[CodeRow]) -> bool
    ensures { result ≡ are_due due rows.now }
{
    match due {
        Some(due) => rows.len() == due as usize,
        None => true,
    }
}

/// The number of the line that is next, or the one where the text ends.
fn next_number(lines: &mut Lines) -> usize
    ensures { result ≡ next_number lines.old.lines lines.old.ending }
{
    match lines.next_line() {
        Some(line) => line.number(),
        None => lines.ending(),
    }
}

/// The rows, and how many they are if that is announced.
#[tactic(auto, unfolding(crate::specs::CodeReading::rows_item))]
fn rows_item(alloc: Global, lines: &mut Lines) -> Result<Vec<CodeRow>, TextFault>
    ensures rows { Gives (λ v. (v.items, lines.new)) result (rows_item lines.old) }
    ensures few { IfOk result (λ v. length v.items ≤ MAX_CROSSINGS) }
{
    let due = perhaps_counted(lines, b"crossings", MAX_CROSSINGS as u32)?;
    let rows = rows_from(alloc, most_rows(due), lines)?;
    if !are_due(due, rows.as_slice()) {
        return Err(TextFault::Malformed {
            line: next_number(lines),
        });
    }
    Ok(rows)
}

/// Signed Gauss lines, which follow rows alone.
fn walks_behind(
    alloc: Global,
    rows: &[CodeRow],
    lines: &mut Lines,
) -> Result<Vec<Items<GaussPassage>>, TextFault>
    ensures { Gives (λ v. (v.items, lines.new)) result (walks_behind rows.now lines.old) }
{
    if rows.is_empty() {
        return Ok(Vec::new(alloc));
    }
    walks_from(alloc, lines)
}

/// The text of a code, and nothing after it: the line `crossings` with their number, which may be missing; rows, four numbers each;
/// the line `loops` with their number, which may be missing; and signed Gauss lines, of which there may be none. Brackets, commas and
/// semicolons count as blanks, and the words `X` and `PD` are ignored.
///
/// Otherwise the fault of the first bad line, or `OutOfMemory`. Whether it is the code of a diagram is not checked.
#[tactic(auto, unfolding(crate::specs::CodeReading::code_in))]
pub fn read_code(alloc: Global, bytes: &[u8]) -> Result<CodeText, TextFault>
    ensures code { Gives (λ c. c) result (code_text_of bytes.now) }
    ensures few { IfOk result (λ c. length c.rows ≤ MAX_CROSSINGS) }
{
    let plain = blanked(alloc, bytes)?;
    let mut lines = Lines::new(plain.as_slice());
    let rows = rows_item(alloc, &mut lines)?;
    let loops = perhaps_counted(&mut lines, b"loops", MAX_LOOPS as u32)?;
    let walks = walks_behind(alloc, rows.as_slice(), &mut lines)?;
    text_end(&mut lines)?;
    Ok(CodeText {
        rows: Items::from_vec(rows),
        loops: loops.unwrap_or(0),
        walks: Items::from_vec(walks),
    })
}
