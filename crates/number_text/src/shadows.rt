//! Shadow cocycles.
ghost use Rattle.std.specs.Prelude.{◌≡◌, ◌≤◌, true, IfOk};
ghost use Rattle.quandle_core.specs.declared.quandle.TheConstants.{MAX_ORDER};
ghost use Rattle.text_items.specs.Reading.{Gives, at_most};
ghost use Rattle.number_text.specs.Shadows.{spelled, shadow_head_at, head_of, formula_of, modulus_of, shadow_cochain_item, shadow_of, shadow_item};
ghost use Rattle.cocycle_core.specs.Formula.{has_formula, mochizuki};

use cocycle_core::{ShadowCocycle, has_formula, mochizuki};
use evidence_core::{SpelledShadow, Spelling};
use quandle_core::{MAX_ORDER, Operations, Quandle};
use std::alloc::{AllocFailed, Global};
use text_items::reading::{line_end, next_line, next_token, word};
use text_items::rows::{number_row, table_rows};
use text_items::{MAX_MODULUS, TextFault};
use text_lines::{Line, Lines};

/// What the first line of a shadow cocycle says.
#[derive(Clone, Copy)]
pub enum Head {
    /// The formula is meant.
    Mochizuki,
    /// A table of numbers below this modulus follows.
    Table(u8),
}

/// A shadow cocycle of a quandle: the line `shadow k` with its modulus, from 2 to `MAX_MODULUS`, and for each colour w of a region and each colour x
/// a line of numbers below k, the y-th of which is `θ(w, x, y)`. Or the line `shadow mochizuki`, of a dihedral quandle of prime order.
///
/// Otherwise the fault of the first bad line, or `OutOfMemory`. The first line exceeds a limit where the quandle has more than `MAX_ORDER` colours.
/// A table that fails a law of shadow cocycles is malformed at its last line.
#[tactic(auto, unfolding(crate::specs::Shadows::shadow_item))]
pub fn shadow_item(
    alloc: Global,
    quandle: &Operations,
    lines: &mut Lines,
) -> Result<SpelledShadow, TextFault>
    ensures { Gives (λ s. (s, lines.new)) result (shadow_item quandle.now lines.old) }
{
    let mut line = next_line(lines)?;
    let head = shadow_head_at(quandle, &mut line)?;
    shadow_of(alloc, quandle, head, lines)
}

/// What the first line of a shadow cocycle says.
#[tactic(auto, unfolding(crate::specs::Shadows::shadow_head_at))]
fn shadow_head_at(quandle: &Operations, line: &mut Line) -> Result<Head, TextFault>
    ensures head { Gives (λ h. h) result (shadow_head_at quandle.now line.old) }
    ensures few { IfOk result (λ h. quandle.now.order ≤ MAX_ORDER) }
    ensures formula { IfOk result (λ h. h ≡ Head.Mochizuki → has_formula quandle.now ≡ true) }
{
    let at = line.number();
    word(line, b"shadow")?;
    let token = next_token(line)?;
    line_end(line)?;
    head_of(quandle, at, token)
}

/// The name of the formula, or a modulus, in line `at`.
fn head_of(quandle: &Operations, at: usize, token: &[u8]) -> Result<Head, TextFault>
    ensures head { Gives (λ h. h) result (head_of quandle.now at token.now) }
    ensures few { IfOk result (λ h. quandle.now.order ≤ MAX_ORDER) }
    ensures formula { IfOk result (λ h. h ≡ Head.Mochizuki → has_formula quandle.now ≡ true) }
{
    if token == b"mochizuki".as_slice() {
        return formula_of(quandle, at);
    }
    match text_lines::number(token) {
        Some(value) => modulus_of(quandle, at, value),
        None => Err(TextFault::Malformed { line: at }),
    }
}

/// The name of the formula, in line `at`.
fn formula_of(quandle: &Operations, at: usize) -> Result<Head, TextFault>
    ensures head { Gives (λ h. h) result (formula_of quandle.now at) }
    ensures few { IfOk result (λ h. quandle.now.order ≤ MAX_ORDER) }
    ensures formula { IfOk result (λ h. has_formula quandle.now ≡ true) }
{
    few_colours(quandle, at)?;
    if is_of_formula(quandle) {
        Ok(Head::Mochizuki)
    } else {
        Err(TextFault::Malformed { line: at })
    }
}

/// Whether a quandle of few colours has the formula.
fn is_of_formula(quandle: &Operations) -> bool
    requires few { quandle.now.order ≤ MAX_ORDER }
    ensures { result ≡ has_formula quandle.now }
{
    has_formula(&Quandle::of(quandle))
}

/// Line `at` exceeds a limit where the quandle has more than `MAX_ORDER` colours.
fn few_colours(quandle: &Operations, at: usize) -> Result<(), TextFault>
    ensures order { Gives (λ _. quandle.now.order) result (at_most MAX_ORDER at quandle.now.order) }
    ensures few { IfOk result (λ _. quandle.now.order ≤ MAX_ORDER) }
{
    if quandle.order() as usize <= MAX_ORDER {
        Ok(())
    } else {
        Err(TextFault::Limit { line: at })
    }
}

/// A modulus, in line `at`.
fn modulus_of(quandle: &Operations, at: usize, value: u32) -> Result<Head, TextFault>
    ensures head { Gives (λ h. h) result (modulus_of quandle.now at value) }
    ensures few { IfOk result (λ h. quandle.now.order ≤ MAX_ORDER) }
    ensures table { IfOk result (λ h. h ≡ Head.Mochizuki → ⊥) }
{
    few_colours(quandle, at)?;
    if value > MAX_MODULUS {
        return Err(TextFault::Limit { line: at });
    }
    if value < 2 {
        return Err(TextFault::Malformed { line: at });
    }
    Ok(Head::Table(value as u8))
}

/// What the first line means, with the lines after it that a table takes.
fn shadow_of(
    alloc: Global,
    quandle: &Operations,
    head: Head,
    lines: &mut Lines,
) -> Result<SpelledShadow, TextFault>
    requires few { quandle.now.order ≤ MAX_ORDER }
    requires formula { head ≡ Head.Mochizuki → has_formula quandle.now ≡ true }
    ensures { Gives (λ s. (s, lines.new)) result (shadow_of quandle.now head lines.old) }
{
    let own = Quandle::of(quandle);
    shadow_by(alloc, &own, head, lines)
}

/// What the first line means, of a quandle of at most `MAX_ORDER` colours, with the lines after it that a table takes.
fn shadow_by(
    alloc: Global,
    quandle: &Quandle,
    head: Head,
    lines: &mut Lines,
) -> Result<SpelledShadow, TextFault>
    requires formula { head ≡ Head.Mochizuki → has_formula quandle.now ≡ true }
    ensures { Gives (λ s. (s, lines.new)) result (shadow_of quandle.now head lines.old) }
{
    match head {
        Head::Mochizuki => Ok(by_formula(alloc, quandle)?),
        Head::Table(modulus) => shadow_cochain_item(alloc, quandle, modulus, lines),
    }
}

/// The cocycle of the formula.
fn by_formula(alloc: Global, quandle: &Quandle) -> Result<SpelledShadow, AllocFailed<u8>>
    requires { has_formula quandle.now ≡ true }
    ensures { IfOk result (λ s. s ≡ spelled Spelling.Mochizuki (mochizuki quandle.now.order)) }
{
    let order = quandle.order();
    let cocycle = mochizuki(alloc, order)?;
    Ok(SpelledShadow {
        spelling: Spelling::Mochizuki,
        cocycle,
    })
}

/// The lines of a table of numbers below the modulus, which has the laws of a shadow cocycle, or is malformed at its last line.
#[tactic(auto, unfolding(crate::specs::Shadows::shadow_cochain_item))]
fn shadow_cochain_item(
    alloc: Global,
    quandle: &Quandle,
    modulus: u8,
    lines: &mut Lines,
) -> Result<SpelledShadow, TextFault>
    ensures { Gives (λ s. (s, lines.new)) result (shadow_cochain_item quandle.now modulus lines.old) }
{
    let order = quandle.order();
    let front = order as usize * order as usize - 1;
    let mut entries = table_rows(alloc, order, modulus, front, lines)?;
    let mut line = next_line(lines)?;
    let at = line.number();
    let row = number_row(alloc, order, modulus, &mut line)?;
    entries.extend_from_slice(row.as_slice())?;
    match ShadowCocycle::new(quandle, modulus, entries) {
        Ok(cocycle) => Ok(SpelledShadow {
            spelling: Spelling::Table,
            cocycle,
        }),
        Err(_) => Err(TextFault::Malformed { line: at }),
    }
}
