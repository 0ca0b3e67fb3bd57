//! Cocycles.
ghost use Rattle.std.specs.Prelude.{◌≡◌};
ghost use Rattle.text_items.specs.Reading.{Gives};
ghost use Rattle.verdict_text.specs.Cocycles.{cochain_item, cocycle_item};

use cocycle_core::Cocycle;
use quandle_core::Quandle;
use std::alloc::Global;
use text_items::reading::next_line;
use text_items::rows::{number_row, table_front};
use text_items::{TextFault, modulus_at};
use text_lines::Lines;

/// A cocycle of a quandle. Otherwise the fault of the first bad line, or `OutOfMemory`.
#[tactic(auto, unfolding(crate::specs::Cocycles::cocycle_item))]
pub fn cocycle_item(
    alloc: Global,
    quandle: &Quandle,
    lines: &mut Lines,
) -> Result<Cocycle, TextFault>
    ensures { Gives (λ c. (c, lines.new)) result (cocycle_item quandle.now lines.old) }
{
    let mut line = next_line(lines)?;
    let modulus = modulus_at(&mut line)?;
    cochain_item(alloc, quandle, modulus, lines)
}

/// The lines of a table of numbers below the modulus, which has the laws of a cocycle, or is malformed at its last line.
#[tactic(auto, unfolding(crate::specs::Cocycles::cochain_item))]
fn cochain_item(
    alloc: Global,
    quandle: &Quandle,
    modulus: u8,
    lines: &mut Lines,
) -> Result<Cocycle, TextFault>
    ensures { Gives (λ c. (c, lines.new)) result (cochain_item quandle.now modulus lines.old) }
{
    let order = quandle.order();
    let mut entries = table_front(alloc, order, modulus, lines)?;
    let mut line = next_line(lines)?;
    let at = line.number();
    let row = number_row(alloc, order, modulus, &mut line)?;
    entries.extend_from_slice(row.as_slice())?;
    match Cocycle::new(quandle, modulus, entries.as_slice()) {
        Ok(cocycle) => Ok(cocycle),
        Err(_) => Err(TextFault::Malformed { line: at }),
    }
}
