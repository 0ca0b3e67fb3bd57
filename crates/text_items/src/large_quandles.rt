//! Quandles on the heap, by name or by a table that may have up to `MAX_LARGE_ORDER` colours. Those in place are in `quandles.rt`.
ghost use Rattle.std.specs.Prelude.{◌≡◌, ◌≤◌, false, true, is_none, None, IfErr, IfOk, IfSome};
ghost use Rattle.quandle_core.specs.declared.operations.TheConstants.{MAX_LARGE_ORDER};
ghost use Rattle.quandle_core.specs.declared.quandle.TheConstants.{MAX_ORDER};
ghost use Rattle.quandle_core.specs.Fault.{first_fault_within};
ghost use Rattle.quandle_core.specs.declared.names.QuandleName.TheVariants as name;
ghost use Rattle.quandle_core.specs.Names.{called};
ghost use Rattle.text_items.specs.declared.fault.TextFault.TheVariants as fault;
ghost use Rattle.text_items.specs.declared.quandles.Written.TheVariants as written;
ghost use Rattle.text_items.specs.Reading.{Gives};
ghost use Rattle.text_items.specs.Quandles.{table_item, judged, quandle_at, large_quandle_item};

use crate::fault::TextFault;
use crate::quandles::{Written, is_over, quandle_of, written_at};
use crate::reading::{next_line, word};
use crate::rows::{number_row, table_front};
use quandle_core::{LargeFault, LargeListed, LargeQuandle};
use std::alloc::Global;
use text_lines::{Line, Lines};

/// Where the name of a quandle is written.
#[derive(Clone, Copy)]
struct NamePlace {
    /// How many colours a table may have there.
    most: usize,
    /// The number of the line.
    at: usize,
}

/// The lines of a table of up to `MAX_LARGE_ORDER` colours, which has the three laws of a quandle, or is malformed at its last line.
#[tactic(auto, unfolding(crate::specs::Quandles::table_item))]
fn large_table_item(alloc: Global, order: u8, lines: &mut Lines) -> Result<LargeQuandle, TextFault>
    requires { (1 ≤ order) × (order ≤ MAX_LARGE_ORDER) }
    ensures { Gives (λ q. (called name.Table q, lines.new)) result (table_item order lines.old) }
{
    let mut entries = table_front(alloc, order, order, lines)?;
    let mut line = next_line(lines)?;
    let at = line.number();
    let row = number_row(alloc, order, order, &mut line)?;
    entries.extend_from_slice(row.as_slice())?;
    match large_quandle_by(alloc, order, entries.as_slice())? {
        Some(quandle) => Ok(quandle),
        None => Err(TextFault::Malformed { line: at }),
    }
}

/// The quandle of a table, if it has the laws.
fn large_quandle_by(
    alloc: Global,
    order: u8,
    table: &[u8],
) -> Result<Option<LargeQuandle>, TextFault>
    requires { order ≤ MAX_LARGE_ORDER }
    ensures some { IfOk result (λ o. IfSome o (λ q. (is_none (first_fault_within order (record { order = order; entries = table.now })) ≡ true)
        × (q ≡ record { order = order; entries = table.now }))) }
    ensures none { IfOk result (λ o. o ≡ None → is_none (first_fault_within order (record { order = order; entries = table.now })) ≡ false) }
    ensures memory { IfErr result (λ e. e ≡ fault.OutOfMemory) }
{
    match LargeQuandle::new(alloc, order, table) {
        Ok(quandle) => Ok(Some(quandle)),
        Err(LargeFault::Broken { .. }) => Ok(None),
        Err(LargeFault::OutOfMemory) => Err(TextFault::OutOfMemory),
    }
}

/// A name at the end of a line, with the lines after it that a table takes. A table has at most `most` colours, a name `MAX_ORDER`.
///
/// Otherwise the fault of the first bad line, or `OutOfMemory`.
#[tactic(auto, unfolding(crate::specs::Quandles::quandle_at))]
pub fn large_quandle_at(
    alloc: Global,
    most: usize,
    line: &mut Line,
    lines: &mut Lines,
) -> Result<LargeListed, TextFault>
    requires { most ≤ MAX_LARGE_ORDER }
    ensures { Gives (λ q. (q, lines.new)) result (quandle_at most line.old lines.old) }
{
    let written = written_at(line)?;
    let place = NamePlace {
        most,
        at: line.number(),
    };
    quandle_written(alloc, place, written, lines)
}

/// A quandle, by a table of at most `most` colours or by a name. Otherwise the fault of the first bad line, or `OutOfMemory`.
#[tactic(auto, unfolding(crate::specs::Quandles::large_quandle_item))]
pub fn large_quandle_item(
    alloc: Global,
    most: usize,
    lines: &mut Lines,
) -> Result<LargeListed, TextFault>
    requires { most ≤ MAX_LARGE_ORDER }
    ensures { Gives (λ q. (q, lines.new)) result (large_quandle_item most lines.old) }
{
    let mut line = next_line(lines)?;
    word(&mut line, b"quandle")?;
    large_quandle_at(alloc, most, &mut line, lines)
}

/// What a name means, with the lines after it that a table takes.
fn quandle_written(
    alloc: Global,
    place: NamePlace,
    written: Written,
    lines: &mut Lines,
) -> Result<LargeListed, TextFault>
    requires { place.most ≤ MAX_LARGE_ORDER }
    ensures { Gives (λ q. (q, lines.new)) result (judged place.most place.at written lines.old) }
{
    match written {
        Written::Table(order) => table_written(alloc, place, order, lines),
        Written::Trivial(_)
        | Written::Dihedral(_)
        | Written::Tetrahedral
        | Written::Alexander(_, _) => { name_written(alloc, place.at, written, lines) }
    }
}

/// What `table` and an order mean, with the lines after them.
fn table_written(
    alloc: Global,
    place: NamePlace,
    order: u32,
    lines: &mut Lines,
) -> Result<LargeListed, TextFault>
    requires { place.most ≤ MAX_LARGE_ORDER }
    ensures { Gives (λ q. (q, lines.new)) result (judged place.most place.at (written.Table order) lines.old) }
{
    if order as usize > place.most {
        return Err(TextFault::Limit { line: place.at });
    }
    if order < 1 {
        return Err(TextFault::Malformed { line: place.at });
    }
    let quandle = large_table_item(alloc, order as u8, lines)?;
    Ok(LargeListed::table(quandle))
}

/// What a name in line `at` means that takes no lines after it.
fn name_written(
    alloc: Global,
    at: usize,
    written: Written,
    lines: &mut Lines,
) -> Result<LargeListed, TextFault>
    ensures { Gives (λ q. (q, lines.new)) result (judged MAX_ORDER at written lines.old) }
{
    if is_over(written) {
        return Err(TextFault::Limit { line: at });
    }
    let listed = quandle_of(alloc, at, written, lines)?;
    Ok(LargeListed::listed(alloc, &listed)?)
}
