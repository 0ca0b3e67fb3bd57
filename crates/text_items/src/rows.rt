//! Rows of numbers, read onto the heap.
ghost use Rattle.std.specs.Prelude.{◌≡◌, ◌≤◌, ◌-◌, ◌==◌, length, map, IfOk};
ghost use Rattle.text_items.specs.Reading.{Gives};
ghost use Rattle.text_items.specs.Numbers.{numbers_below, low};
ghost use Rattle.text_items.specs.Quandles.{table_row, table_rows};

use crate::fault::TextFault;
use crate::number_lists::{any_long, number_list};
use crate::numbers::{is_row, low};
use crate::reading::next_line;
use std::alloc::{AllocFailed, Global};
use text_lines::{Line, Lines};

/// A row of `width` numbers below a bound, which is at most 255, on the heap. Otherwise the fault of the line, or `OutOfMemory`.
#[tactic(auto, unfolding(crate::specs::Numbers::numbers_below))]
pub fn number_row(
    alloc: Global,
    width: u8,
    bound: u8,
    line: &mut Line,
) -> Result<Vec<u8>, TextFault>
    ensures { Gives (λ v. v.items) result (numbers_below width bound line.old) }
{
    let at = line.number();
    let list = number_list(alloc, line)?;
    if any_long(list.as_slice()) {
        return Err(TextFault::Limit { line: at });
    }
    // A line of another length is bad, whether or not there is memory for its bytes.
    if !has_width(list.as_slice(), width) {
        return Err(TextFault::Malformed { line: at });
    }
    let row = narrowed(alloc, list.as_slice())?;
    if !is_row(row.as_slice(), width, bound) {
        return Err(TextFault::Malformed { line: at });
    }
    Ok(row)
}

/// Whether a list has so many numbers.
fn has_width(list: &[u32], width: u8) -> bool
    ensures { result ≡ (length list.now == width) }
{
    list.len() == width as usize
}

/// The numbers of a list, each cut down to at most 255.
fn narrowed(alloc: Global, list: &[u32]) -> Result<Vec<u8>, AllocFailed<u8>>
    ensures { IfOk result (λ v. v.items ≡ map low list.now) }
{
    let mut bytes = Vec::new(alloc);
    for value in list {
        bytes.push(low(*value))?;
    }
    Ok(bytes)
}

/// A line of a square table of numbers below the bound.
#[tactic(auto, unfolding(crate::specs::Quandles::table_row))]
fn table_row(alloc: Global, order: u8, bound: u8, lines: &mut Lines) -> Result<Vec<u8>, TextFault>
    ensures { Gives (λ v. (v.items, lines.new)) result (table_row order bound lines.old) }
{
    let mut line = next_line(lines)?;
    number_row(alloc, order, bound, &mut line)
}

/// The entries of `count` lines, each of `order` numbers below the bound.
///
/// Otherwise the fault of the first bad line, or `OutOfMemory`.
pub fn table_rows(
    alloc: Global,
    order: u8,
    bound: u8,
    count: usize,
    lines: &mut Lines,
) -> Result<Vec<u8>, TextFault>
    ensures { Gives (λ v. (v.items, lines.new)) result (table_rows order bound count lines.old) }
{
    let mut entries = Vec::new(alloc);
    for _ in 0..count {
        let row = table_row(alloc, order, bound, lines)?;
        entries.extend_from_slice(row.as_slice())?;
    }
    Ok(entries)
}

/// The entries of all lines of a square table but the last, each below the bound. Otherwise the fault of the first bad line, or `OutOfMemory`.
pub fn table_front(
    alloc: Global,
    order: u8,
    bound: u8,
    lines: &mut Lines,
) -> Result<Vec<u8>, TextFault>
    requires { 1 ≤ order }
    ensures { Gives (λ v. (v.items, lines.new)) result (table_rows order bound (order - 1) lines.old) }
{
    table_rows(alloc, order, bound, order as usize - 1, lines)
}
