//! Steps between braids, a line each, and the item of several.
ghost use Rattle.std.specs.Prelude.{◌≡◌};
ghost use Rattle.text_items.specs.Reading.{Gives};
ghost use Rattle.knot_text.specs.BraidSteps.{last_letter, bounded_letter, insert, grow, shrink, step_at, braid_step_item, step_lines, steps_item};

use braid_moves::BraidMove;
use std::alloc::Global;
use text_items::reading::{
    MAX_LETTER, last_count, line_end, next_line, next_token, number, place, word,
};
use text_items::{TextFault, letter};
use text_lines::{Line, Lines};
use verdict_text::last_place;

/// A letter of any size, and no token after it.
#[tactic(auto, unfolding(crate::specs::BraidSteps::last_letter))]
fn last_letter(line: &mut Line) -> Result<i64, TextFault>
    ensures { Gives (λ a. (a, line.new)) result (last_letter line.old) }
{
    let number = line.number();
    let token = next_token(line)?;
    let Some(value) = letter(token) else {
        return Err(TextFault::Malformed { line: number });
    };
    line_end(line)?;
    Ok(value)
}

/// A letter of a line, which exceeds a limit where its absolute value is above the most.
fn bounded_letter(line: &Line, value: i64) -> Result<i8, TextFault>
    ensures { Gives (λ a. a) result (bounded_letter line.now.number value) }
{
    if value.unsigned_abs() <= MAX_LETTER {
        Ok(value as i8)
    } else {
        Err(TextFault::Limit {
            line: line.number(),
        })
    }
}

/// A place and a letter, after `insert`.
#[tactic(auto, unfolding(crate::specs::BraidSteps::insert))]
fn insert(line: &mut Line) -> Result<BraidMove, TextFault>
    ensures { Gives (λ m. m) result (insert line.old) }
{
    let value = number(line)?;
    let last = last_letter(line)?;
    Ok(BraidMove::Insert {
        place: place(line, value)?,
        letter: bounded_letter(line, last)?,
    })
}

/// The sign of the new crossing, after `grow`.
#[tactic(auto, unfolding(crate::specs::BraidSteps::grow))]
fn grow(line: &mut Line) -> Result<BraidMove, TextFault>
    ensures { Gives (λ m. m) result (grow line.old) }
{
    let sign = next_token(line)?;
    line_end(line)?;
    if sign == b"plus".as_slice() {
        Ok(BraidMove::Grow { positive: true })
    } else if sign == b"minus".as_slice() {
        Ok(BraidMove::Grow { positive: false })
    } else {
        Err(TextFault::Malformed {
            line: line.number(),
        })
    }
}

/// Nothing, after `shrink`.
#[tactic(auto, unfolding(crate::specs::BraidSteps::shrink))]
fn shrink(line: &mut Line) -> Result<BraidMove, TextFault>
    ensures { Gives (λ m. m) result (shrink line.old) }
{
    line_end(line)?;
    Ok(BraidMove::Shrink)
}

/// A step line.
#[tactic(auto, unfolding(crate::specs::BraidSteps::step_at))]
fn step_at(line: &mut Line) -> Result<BraidMove, TextFault>
    ensures { Gives (λ m. m) result (step_at line.old) }
{
    let name = next_token(line)?;
    if name == b"far".as_slice() {
        Ok(BraidMove::Far(last_place(line)?))
    } else if name == b"triple".as_slice() {
        Ok(BraidMove::Triple(last_place(line)?))
    } else if name == b"cancel".as_slice() {
        Ok(BraidMove::Cancel(last_place(line)?))
    } else if name == b"insert".as_slice() {
        insert(line)
    } else if name == b"turn".as_slice() {
        Ok(BraidMove::Turn(last_place(line)?))
    } else if name == b"grow".as_slice() {
        grow(line)
    } else if name == b"shrink".as_slice() {
        shrink(line)
    } else {
        Err(TextFault::Malformed {
            line: line.number(),
        })
    }
}

/// The next step line.
#[tactic(auto, unfolding(crate::specs::BraidSteps::braid_step_item))]
fn braid_step_item(lines: &mut Lines) -> Result<BraidMove, TextFault>
    ensures { Gives (λ m. (m, lines.new)) result (braid_step_item lines.old) }
{
    let mut line = next_line(lines)?;
    step_at(&mut line)
}

/// So many steps, a line each.
fn step_lines(alloc: Global, count: u32, lines: &mut Lines) -> Result<Vec<BraidMove>, TextFault>
    ensures { Gives (λ v. (v.items, lines.new)) result (step_lines count lines.old) }
{
    let mut steps = Vec::new(alloc);
    for _ in 0..count {
        steps.push(braid_step_item(lines)?)?;
    }
    Ok(steps)
}

/// The item `steps`: their number, and as many steps. Otherwise the fault of the first bad line, or `OutOfMemory`.
#[tactic(auto, unfolding(crate::specs::BraidSteps::steps_item))]
pub fn steps_item(alloc: Global, lines: &mut Lines) -> Result<Vec<BraidMove>, TextFault>
    ensures { Gives (λ v. (v.items, lines.new)) result (steps_item lines.old) }
{
    let mut line = next_line(lines)?;
    word(&mut line, b"steps")?;
    let count = last_count(&mut line)?;
    step_lines(alloc, count, lines)
}
