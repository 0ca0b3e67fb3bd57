//! Quandles in place, of at most `MAX_ORDER` colours, by name or by table.
ghost use Rattle.std.specs.Prelude.{◌≡◌, ◌≤◌, false, is_none, is_some, IfOk, IfErr, IfSome};
ghost use Rattle.quandle_core.specs.declared.quandle.TheConstants.{MAX_ORDER};
ghost use Rattle.quandle_core.specs.Fault.{first_fault_within};
ghost use Rattle.text_items.specs.Reading.{Gives};
ghost use Rattle.text_items.specs.Quandles.{written_at, alexander_at, tetrahedral_at, is_over, meant, table_item, quandle_of};
ghost use Rattle.text_items.specs.Quandles.{quandle_at, quandle_item, surplus_quandle, quandles, quandle_list, built_in};

use crate::fault::TextFault;
use crate::reading::{MAX_NUMBER, last_number, line_end, next_line, next_token, number, word};
use crate::rows::{number_row, table_front};
use memory_core::Items;
use quandle_core::{Listed, MAX_ORDER, Quandle, QuandleName};
use std::alloc::Global;
use text_lines::{Line, Lines};

/// How many quandle items a text may have. The quandle of a verdict is not counted.
pub const MAX_QUANDLES: usize = 64;

/// The name of a quandle as it is written, with numbers of any size.
#[derive(Clone, Copy, PartialEq, Eq)]
pub enum Written {
    Trivial(u32),
    Dihedral(u32),
    Tetrahedral,
    Alexander(u32, u32),
    Table(u32),
}

/// Order and factor of an Alexander quandle.
#[tactic(auto, unfolding(crate::specs::Quandles::alexander_at))]
fn alexander_at(line: &mut Line) -> Result<Written, TextFault>
    ensures { Gives (λ w. (w, line.new)) result (alexander_at line.old) }
{
    let order = number(line)?;
    let factor = last_number(line)?;
    Ok(Written::Alexander(order, factor))
}

/// The end of the line of the tetrahedral quandle.
#[tactic(auto, unfolding(crate::specs::Quandles::tetrahedral_at))]
fn tetrahedral_at(line: &mut Line) -> Result<Written, TextFault>
    ensures { Gives (λ w. (w, line.new)) result (tetrahedral_at line.old) }
{
    line_end(line)?;
    Ok(Written::Tetrahedral)
}

/// A name at the end of a line, with numbers of any size. A line of another form is malformed.
#[tactic(auto, unfolding(crate::specs::Quandles::written_at))]
pub fn written_at(line: &mut Line) -> Result<Written, TextFault>
    ensures { Gives (λ w. (w, line.new)) result (written_at line.old) }
{
    let family = next_token(line)?;
    if family == b"trivial".as_slice() {
        Ok(Written::Trivial(last_number(line)?))
    } else if family == b"dihedral".as_slice() {
        Ok(Written::Dihedral(last_number(line)?))
    } else if family == b"tetrahedral".as_slice() {
        tetrahedral_at(line)
    } else if family == b"alexander".as_slice() {
        alexander_at(line)
    } else if family == b"table".as_slice() {
        Ok(Written::Table(last_number(line)?))
    } else {
        Err(TextFault::Malformed {
            line: line.number(),
        })
    }
}

/// Whether a name exceeds a limit: it has more than `MAX_ORDER` colours, or a factor above `MAX_NUMBER`.
pub(crate) fn is_over(written: Written) -> bool
    ensures { result ≡ is_over MAX_ORDER written }
{
    match written {
        Written::Trivial(n) | Written::Dihedral(n) | Written::Table(n) => n as usize > MAX_ORDER,
        Written::Tetrahedral => false,
        Written::Alexander(n, factor) => n as usize > MAX_ORDER || factor > MAX_NUMBER,
    }
}

/// The quandle of a name without a table, which exceeds no limit.
fn meant(written: Written) -> Option<Listed>
    requires { is_over MAX_ORDER written ≡ false }
    ensures { result ≡ meant written }
{
    match written {
        Written::Trivial(n) => Listed::named(QuandleName::Trivial(n as u8)),
        Written::Dihedral(n) => Listed::named(QuandleName::Dihedral(n as u8)),
        Written::Tetrahedral => Listed::named(QuandleName::Tetrahedral),
        Written::Alexander(n, factor) if factor < n => {
            Listed::named(QuandleName::Alexander(n as u8, factor as u8))
        }
        Written::Alexander(_, _) | Written::Table(_) => None,
    }
}

/// The lines of a table, which has the three laws of a quandle, or is malformed at its last line.
#[tactic(auto, unfolding(crate::specs::Quandles::table_item))]
fn table_item(alloc: Global, order: u8, lines: &mut Lines) -> Result<Listed, TextFault>
    requires { (1 ≤ order) × (order ≤ MAX_ORDER) }
    ensures { Gives (λ q. (q, lines.new)) result (table_item order lines.old) }
{
    let mut entries = table_front(alloc, order, order, lines)?;
    let mut line = next_line(lines)?;
    let at = line.number();
    let row = number_row(alloc, order, order, &mut line)?;
    entries.extend_from_slice(row.as_slice())?;
    match quandle_by(order, entries.as_slice()) {
        Some(quandle) => Ok(Listed::table(quandle)),
        None => Err(TextFault::Malformed { line: at }),
    }
}

/// The quandle of a table, if it has the laws.
fn quandle_by(order: u8, table: &[u8]) -> Option<Quandle>
    requires { order ≤ MAX_ORDER }
    ensures laws { is_some result ≡ is_none (first_fault_within order (record { order = order; entries = table.now })) }
    ensures quandle { IfSome result (λ q. q ≡ record { order = order; entries = table.now }) }
{
    match Quandle::new(order, table) {
        Ok(quandle) => Some(quandle),
        Err(_) => None,
    }
}

/// What a name in line `at` means, with the lines after it that a table takes. The name exceeds no limit.
pub(crate) fn quandle_of(
    alloc: Global,
    at: usize,
    written: Written,
    lines: &mut Lines,
) -> Result<Listed, TextFault>
    requires { is_over MAX_ORDER written ≡ false }
    ensures { Gives (λ q. (q, lines.new)) result (quandle_of at written lines.old) }
{
    if let Written::Table(order) = written {
        if order < 1 {
            return Err(TextFault::Malformed { line: at });
        }
        return table_item(alloc, order as u8, lines);
    }
    match meant(written) {
        Some(listed) => Ok(listed),
        None => Err(TextFault::Malformed { line: at }),
    }
}

/// A name at the end of a line, with the lines after it that a table takes. Otherwise the fault of the first bad line, or `OutOfMemory`.
#[tactic(auto, unfolding(crate::specs::Quandles::quandle_at))]
pub fn quandle_at(alloc: Global, line: &mut Line, lines: &mut Lines) -> Result<Listed, TextFault>
    ensures { Gives (λ q. (q, lines.new)) result (quandle_at MAX_ORDER line.old lines.old) }
{
    let written = written_at(line)?;
    let at = line.number();
    if is_over(written) {
        return Err(TextFault::Limit { line: at });
    }
    quandle_of(alloc, at, written, lines)
}

/// A quandle item. Otherwise the fault of the first bad line, or `OutOfMemory`.
#[tactic(auto, unfolding(crate::specs::Quandles::quandle_item))]
pub fn quandle_item(alloc: Global, lines: &mut Lines) -> Result<Listed, TextFault>
    ensures { Gives (λ q. (q, lines.new)) result (quandle_item lines.old) }
{
    let mut line = next_line(lines)?;
    word(&mut line, b"quandle")?;
    quandle_at(alloc, &mut line, lines)
}

/// The fault of one quandle more than a text may have.
#[tactic(auto, unfolding(crate::specs::Quandles::surplus_quandle))]
fn surplus_quandle(lines: &mut Lines) -> Result<Vec<Listed>, TextFault>
    ensures { Gives (λ v. (v.items, lines.new)) result (surplus_quandle lines.old) }
{
    let mut line = next_line(lines)?;
    word(&mut line, b"quandle")?;
    let _name = written_at(&mut line)?;
    Err(TextFault::Limit {
        line: line.number(),
    })
}

/// All quandle items up to the first line that does not begin with `quandle`.
fn quandles(alloc: Global, lines: &mut Lines) -> Result<Vec<Listed>, TextFault>
    ensures { Gives (λ v. (v.items, lines.new)) result (quandles MAX_QUANDLES lines.old) }
{
    let mut listed = Vec::new(alloc);
    for _ in 0..MAX_QUANDLES {
        if !lines.begins(b"quandle") {
            return Ok(listed);
        }
        listed.push(quandle_item(alloc, lines)?)?;
    }
    if lines.begins(b"quandle") {
        return surplus_quandle(lines);
    }
    Ok(listed)
}

/// The names of the quandles that take the place of an empty list.
const BUILT_IN: [QuandleName; 5] = [
    QuandleName::Trivial(2),
    QuandleName::Dihedral(3),
    QuandleName::Tetrahedral,
    QuandleName::Dihedral(5),
    QuandleName::Dihedral(7),
];

/// The quandles that take the place of an empty list. It fails only if memory runs out.
pub fn built_in(alloc: Global) -> Result<Vec<Listed>, TextFault>
    ensures ok { IfOk result (λ v. v.items ≡ built_in) }
    ensures err { IfErr result (λ e. e ≡ TextFault.OutOfMemory) }
{
    let mut listed = Vec::new(alloc);
    for name in BUILT_IN {
        if let Some(quandle) = Listed::named(name) {
            listed.push(quandle)?;
        }
    }
    Ok(listed)
}

/// All quandle items, or the built-in list where there are none. Otherwise the fault of the first bad line, or `OutOfMemory`.
#[tactic(auto, unfolding(crate::specs::Quandles::quandle_list))]
pub fn quandle_list(alloc: Global, lines: &mut Lines) -> Result<Items<Listed>, TextFault>
    ensures { Gives (λ q. (q, lines.new)) result (quandle_list lines.old) }
{
    let listed = quandles(alloc, lines)?;
    if listed.is_empty() {
        return Ok(Items::from_vec(built_in(alloc)?));
    }
    Ok(Items::from_vec(listed))
}
