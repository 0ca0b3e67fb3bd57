//! Verdicts of either version, up to their last line.
ghost use Rattle.std.specs.Prelude.{◌≡◌, ◌≤◌};
ghost use Rattle.grid_core.specs.declared.grid.TheConstants.{MAX_SIZE};
ghost use Rattle.text_items.specs.Reading.{Gives, in_turn};
ghost use Rattle.verdict_text.specs.Verdicts.{moves_of, equal_at, colour_line, list_item, different_at, budget_at, exhausted_at, unknown_at};
ghost use Rattle.verdict_text.specs.Verdicts.{unknown_item, verdict_at, verdict_of, version_at, tidy_item, plain_item, versioned_item, verdict_item};

use crate::moves::{malformed, move_lines, tidy_moves};
use colour_list::MAX_COLOURINGS;
use colour_rows::Colouring;
use grid_moves::Move;
use memory_core::Items;
use std::alloc::Global;
use text_items::numbers::numbers_below;
use text_items::reading::{
    MAX_NUMBER, at_most, last_count, last_number, next_line, next_token, number, word,
};
use text_items::{TextFault, quandle_at};
use text_lines::{Line, Lines};
use verdict_core::Verdict;

/// The number in the head line of a verdict whose list of moves is tidy.
pub const TIDY_VERSION: u32 = 2;

/// The two texts that a verdict has.
#[derive(Clone, Copy, PartialEq, Eq)]
pub enum Version {
    /// Without a head line: it may have any list of moves.
    Plain,
    /// After the line `certificate 2`: its list of moves is tidy.
    Tidy,
}

/// The numbers of columns of two diagrams, each at most `MAX_SIZE`.
#[derive(Clone, Copy)]
struct Widths {
    first: u8,
    second: u8,
    ghost first_most: { first ≤ MAX_SIZE },
    ghost second_most: { second ≤ MAX_SIZE },
}

/// So many moves.
fn moves_of(
    alloc: Global,
    version: Version,
    count: u32,
    lines: &mut Lines,
) -> Result<Vec<Move>, TextFault>
    ensures { Gives (λ v. (v.items, lines.new)) result (moves_of version count lines.old) }
{
    match version {
        Version::Plain => move_lines(alloc, count, lines),
        Version::Tidy => tidy_moves(alloc, count, lines),
    }
}

/// A number of moves, and the moves.
#[tactic(auto, unfolding(crate::specs::Verdicts::equal_at))]
fn equal_at(
    alloc: Global,
    version: Version,
    line: &mut Line,
    lines: &mut Lines,
) -> Result<Verdict, TextFault>
    ensures { Gives (λ v. (v, lines.new)) result (equal_at version line.old lines.old) }
{
    let count = last_count(line)?;
    let moves = moves_of(alloc, version, count, lines)?;
    Ok(Verdict::Equal(Items::from_vec(moves)))
}

/// A line of colours.
#[tactic(auto, unfolding(crate::specs::Verdicts::colour_line))]
fn colour_line(width: u8, order: u8, lines: &mut Lines) -> Result<Colouring, TextFault>
    requires { width ≤ MAX_SIZE }
    ensures { Gives (λ c. (c, lines.new)) result (colour_line width order lines.old) }
{
    let mut line = next_line(lines)?;
    numbers_below(width, order, &mut line)
}

/// So many lines of colours.
fn colour_lines(
    alloc: Global,
    count: u32,
    width: u8,
    order: u8,
    lines: &mut Lines,
) -> Result<Vec<Colouring>, TextFault>
    requires { width ≤ MAX_SIZE }
    ensures { Gives (λ v. (v.items, lines.new)) result (in_turn (colour_line width order) count lines.old) }
{
    let mut colourings = Vec::new(alloc);
    for _ in 0..count {
        colourings.push(colour_line(width, order, lines)?)?;
    }
    Ok(colourings)
}

/// A number of lines of colours, and the lines.
#[tactic(auto, unfolding(crate::specs::Verdicts::list_item))]
fn list_item(
    alloc: Global,
    width: u8,
    order: u8,
    lines: &mut Lines,
) -> Result<Vec<Colouring>, TextFault>
    requires { width ≤ MAX_SIZE }
    ensures { Gives (λ v. (v.items, lines.new)) result (list_item width order lines.old) }
{
    let mut line = next_line(lines)?;
    word(&mut line, b"list")?;
    let count = last_number(&mut line)?;
    let few = at_most(MAX_COLOURINGS as u32, &line, count)?;
    colour_lines(alloc, few, width, order, lines)
}

/// A quandle, and a list for each of two diagrams with so many columns.
#[tactic(auto, unfolding(crate::specs::Verdicts::different_at))]
fn different_at(
    alloc: Global,
    widths: Widths,
    line: &mut Line,
    lines: &mut Lines,
) -> Result<Verdict, TextFault>
    ensures { Gives (λ v. (v, lines.new)) result (different_at widths.first widths.second line.old lines.old) }
{
    let listed = quandle_at(alloc, line, lines)?;
    let order = listed.quandle().order();
    let first = list_item(alloc, widths.first, order, lines)?;
    let second = list_item(alloc, widths.second, order, lines)?;
    Ok(Verdict::Different {
        listed,
        first: Items::from_vec(first),
        second: Items::from_vec(second),
    })
}

/// A budget.
#[tactic(auto, unfolding(crate::specs::Verdicts::budget_at))]
fn budget_at(line: &mut Line) -> Result<Verdict, TextFault>
    ensures { Gives (λ v. v) result (budget_at line.old) }
{
    Ok(Verdict::UnknownBudget {
        budget: last_count(line)?,
    })
}

/// A cap, and a number of diagrams.
#[tactic(auto, unfolding(crate::specs::Verdicts::exhausted_at))]
fn exhausted_at(line: &mut Line) -> Result<Verdict, TextFault>
    ensures { Gives (λ v. v) result (exhausted_at line.old) }
{
    let cap = number(line)?;
    let admitted = last_number(line)?;
    Ok(Verdict::UnknownExhausted {
        cap: at_most(MAX_NUMBER, line, cap)?,
        admitted: at_most(MAX_NUMBER, line, admitted)?,
    })
}

/// Why a search said nothing.
#[tactic(auto, unfolding(crate::specs::Verdicts::unknown_at))]
fn unknown_at(line: &mut Line) -> Result<Verdict, TextFault>
    ensures { Gives (λ v. v) result (unknown_at line.old) }
{
    let cause = next_token(line)?;
    if cause == b"budget".as_slice() {
        budget_at(line)
    } else if cause == b"exhausted".as_slice() {
        exhausted_at(line)
    } else {
        Err(malformed(line))
    }
}

/// A verdict of a version from a line and what follows it, on two diagrams with so many columns.
#[tactic(auto, unfolding(crate::specs::Verdicts::verdict_at, crate::specs::Verdicts::unknown_item))]
fn verdict_at(
    alloc: Global,
    version: Version,
    widths: Widths,
    line: &mut Line,
    lines: &mut Lines,
) -> Result<Verdict, TextFault>
    ensures { Gives (λ v. (v, lines.new)) result (verdict_at version widths.first widths.second line.old lines.old) }
{
    let kind = next_token(line)?;
    if kind == b"equal".as_slice() {
        equal_at(alloc, version, line, lines)
    } else if kind == b"different".as_slice() {
        different_at(alloc, widths, line, lines)
    } else if kind == b"unknown".as_slice() {
        unknown_at(line)
    } else {
        Err(malformed(line))
    }
}

/// A verdict of a version, on two diagrams with so many columns.
#[tactic(auto, unfolding(crate::specs::Verdicts::verdict_of))]
fn verdict_of(
    alloc: Global,
    version: Version,
    widths: Widths,
    lines: &mut Lines,
) -> Result<Verdict, TextFault>
    ensures { Gives (λ v. (v, lines.new)) result (verdict_of version widths.first widths.second lines.old) }
{
    let mut line = next_line(lines)?;
    verdict_at(alloc, version, widths, &mut line, lines)
}

/// The line `certificate 2`.
#[tactic(auto, unfolding(crate::specs::Verdicts::version_at))]
fn version_at(line: &mut Line) -> Result<(), TextFault>
    ensures { Gives (λ _. tt) result (version_at line.old) }
{
    let number = line.number();
    word(line, b"certificate")?;
    if last_count(line)? == TIDY_VERSION {
        Ok(())
    } else {
        Err(TextFault::Malformed { line: number })
    }
}

/// A verdict of the second version, after its head line.
#[tactic(auto, unfolding(crate::specs::Verdicts::tidy_item))]
fn tidy_item(
    alloc: Global,
    widths: Widths,
    lines: &mut Lines,
) -> Result<(Version, Verdict), TextFault>
    ensures { Gives (λ v. (v, lines.new)) result (tidy_item widths.first widths.second lines.old) }
{
    let mut line = next_line(lines)?;
    version_at(&mut line)?;
    let verdict = verdict_of(alloc, Version::Tidy, widths, lines)?;
    Ok((Version::Tidy, verdict))
}

/// A verdict of the first version.
#[tactic(auto, unfolding(crate::specs::Verdicts::plain_item))]
fn plain_item(
    alloc: Global,
    widths: Widths,
    lines: &mut Lines,
) -> Result<(Version, Verdict), TextFault>
    ensures { Gives (λ v. (v, lines.new)) result (plain_item widths.first widths.second lines.old) }
{
    let verdict = verdict_of(alloc, Version::Plain, widths, lines)?;
    Ok((Version::Plain, verdict))
}

/// A verdict, and the version of its text, which the verdict doesn't keep.
#[tactic(auto, unfolding(crate::specs::Verdicts::versioned_item))]
fn versioned_item(
    alloc: Global,
    widths: Widths,
    lines: &mut Lines,
) -> Result<(Version, Verdict), TextFault>
    ensures { Gives (λ v. (v, lines.new)) result (versioned_item widths.first widths.second lines.old) }
{
    if lines.begins(b"certificate") {
        tidy_item(alloc, widths, lines)
    } else {
        plain_item(alloc, widths, lines)
    }
}

/// A verdict of either version from the front of the lines, on two diagrams with so many columns, each at most `MAX_SIZE`; what
/// follows it is left. Otherwise the fault of the first bad line, or `OutOfMemory`, and nothing is proved of the lines.
#[tactic(auto, unfolding(crate::specs::Verdicts::verdict_item))]
pub fn verdict_item(
    alloc: Global,
    first_width: u8,
    second_width: u8,
    lines: &mut Lines,
) -> Result<Verdict, TextFault>
    requires { (first_width ≤ MAX_SIZE) × (second_width ≤ MAX_SIZE) }
    ensures { Gives (λ v. (v, lines.new)) result (verdict_item first_width second_width lines.old) }
{
    let widths = Widths {
        first: first_width,
        second: second_width,
    };
    let (_, verdict) = versioned_item(alloc, widths, lines)?;
    Ok(verdict)
}
