//! Lines of rows.
ghost use Rattle.std.specs.Prelude.{◌≡◌, ◌≤◌, ◌++◌, [], length, IfOk, OnOk};
ghost use Rattle.code_rows.specs.declared.code_fault.TheConstants.{MAX_CROSSINGS};
ghost use Rattle.text_items.specs.Reading.{Gives};
ghost use Rattle.code_text.specs.RowLines.{says_something, row_numbers, rows_of_numbers, rows_or_fault, with_rows, are_behind, rows_from};

use code_rows::{CodeRow, MAX_CROSSINGS};
use std::alloc::{AllocError, Global};
use text_items::{TextFault, any_long};
use text_lines::{Line, Lines, number};

/// Whether a token says something: it is neither `X` nor `PD`.
fn says_something(token: &[u8]) -> bool
    ensures { result ≡ says_something token.now }
{
    !(token == b"X".as_slice() || token == b"PD".as_slice())
}

/// All tokens that are left of a line and say something, as numbers.
fn row_numbers(alloc: Global, line: &mut Line) -> Result<Vec<u32>, TextFault>
    ensures { Gives (λ v. v.items) result (row_numbers line.old) }
{
    let at = line.number();
    let mut names = Vec::new(alloc);
    while let Some(token) = line.next_token() {
        if says_something(token) {
            let Some(name) = number(token) else {
                return Err(TextFault::Malformed { line: at });
            };
            names.push(name)?;
        }
    }
    Ok(names)
}

/// The row of four numbers.
fn row_of(first: u32, second: u32, third: u32, fourth: u32) -> CodeRow
    ensures { result ≡ record { first = first; second = second; third = third; fourth = fourth } }
{
    CodeRow {
        first,
        second,
        third,
        fourth,
    }
}

/// Appends the rows of these numbers, four to a row.
fn push_rows(rows: &mut Vec<CodeRow>, names: &[u32]) -> Result<(), AllocError>
    ensures { OnOk result (rows.new.items ≡ rows.old.items ++ rows_of_numbers names.now) }
{
    let mut left = names;
    while let [first, second, third, fourth, after @ ..] = left {
        rows.push(row_of(*first, *second, *third, *fourth))?;
        left = after;
    }
    Ok(())
}

/// Appends the rows of a line, of which there may be so many in all.
#[tactic(auto, unfolding(crate::specs::RowLines::with_rows))]
fn push_line(
    alloc: Global,
    most: usize,
    rows: &mut Vec<CodeRow>,
    line: &mut Line,
) -> Result<(), TextFault>
    ensures rows { Gives (λ _. rows.new.items) result (with_rows most rows.old.items line.old) }
    ensures few { OnOk result (length rows.new.items ≤ MAX_CROSSINGS) }
{
    let at = line.number();
    let names = row_numbers(alloc, line)?;
    if names.len() % 4 != 0 {
        return Err(TextFault::Malformed { line: at });
    }
    push_rows(rows, names.as_slice())?;
    check_rows(most, at, any_long(names.as_slice()), rows.as_slice())
}

/// `Limit` if a number of the line is too long, or if there are more than `MAX_CROSSINGS` rows; else `Malformed` if there are more than `most`.
fn check_rows(most: usize, line: usize, has_long: bool, rows: &[CodeRow]) -> Result<(), TextFault>
    ensures rows { Gives (λ _. rows.now) result (rows_or_fault most line has_long rows.now) }
    ensures few { OnOk result (length rows.now ≤ MAX_CROSSINGS) }
{
    if has_long || rows.len() > MAX_CROSSINGS {
        return Err(TextFault::Limit { line });
    }
    if rows.len() > most {
        return Err(TextFault::Malformed { line });
    }
    Ok(())
}

/// Whether a line that follows the rows is next.
fn are_behind(lines: &Lines) -> bool
    ensures { result ≡ are_behind lines.now }
{
    lines.begins(b"loops") || lines.begins(b"gauss")
}

/// The rows of all lines up to the first that follows them, of which there may be so many.
#[tactic(auto, unfolding(crate::specs::RowLines::rows_from))]
pub(crate) fn rows_from(
    alloc: Global,
    most: usize,
    lines: &mut Lines,
) -> Result<Vec<CodeRow>, TextFault>
    ensures rows { Gives (λ v. (v.items, lines.new)) result (rows_from most [] lines.old) }
    ensures few { IfOk result (λ v. length v.items ≤ MAX_CROSSINGS) }
{
    let mut rows = Vec::new(alloc);
    while !are_behind(lines) {
        let Some(mut line) = lines.next_line() else {
            return Ok(rows);
        };
        push_line(alloc, most, &mut rows, &mut line)?;
    }
    Ok(rows)
}
