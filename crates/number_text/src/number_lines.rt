//! Lines of numbers of a diagram, as they are read.
ghost use Rattle.std.specs.Prelude.{◌≡◌};
ghost use Rattle.std.specs.List.{list_any};
ghost use Rattle.text_items.specs.Reading.{Gives};
ghost use Rattle.text_items.specs.Braids.{is_long_letter, letters};
ghost use Rattle.number_text.specs.NumberLines.{seeds_at, numbers_line_at, seeded_numbers_item, components_at, linking_numbers_at, linked_item};

use evidence_core::{Counted, Linked};
use grid_core::Rows;
use memory_core::Items;
use std::alloc::Global;
use text_items::numbers::numbers_behind;
use text_items::reading::{MAX_NUMBER, last_count, next_line, word};
use text_items::{TextFault, any_long, letter, number_list};
use text_lines::{Line, Lines};

/// The word `numbers`, and `count` numbers. Otherwise the fault of the line, or `OutOfMemory`.
#[tactic(auto, unfolding(crate::specs::NumberLines::numbers_line_at))]
pub fn numbers_line_at(alloc: Global, count: u8, line: &mut Line) -> Result<Vec<u32>, TextFault>
    ensures { Gives (λ v. v.items) result (numbers_line_at count line.old) }
{
    word(line, b"numbers")?;
    let at = line.number();
    let list = number_list(alloc, line)?;
    if any_long(list.as_slice()) {
        return Err(TextFault::Limit { line: at });
    }
    if list.len() != count as usize {
        return Err(TextFault::Malformed { line: at });
    }
    Ok(list)
}

/// The word `seeds`, and at most `MAX_SIZE` numbers; one above 254 is read as 255, which is no column. Otherwise the fault of the line.
#[tactic(auto, unfolding(crate::specs::NumberLines::seeds_at))]
pub fn seeds_at(line: &mut Line) -> Result<Rows, TextFault>
    ensures { Gives (λ r. r) result (seeds_at line.old) }
{
    numbers_behind(b"seeds", line)
}

/// The seeds of a diagram, and so many numbers of its colourings.
#[tactic(auto, unfolding(crate::specs::NumberLines::seeded_numbers_item))]
pub(crate) fn seeded_numbers_item(
    alloc: Global,
    count: u8,
    lines: &mut Lines,
) -> Result<Counted, TextFault>
    ensures { Gives (λ c. (c, lines.new)) result (seeded_numbers_item count lines.old) }
{
    let mut first = next_line(lines)?;
    let seeds = seeds_at(&mut first)?;
    let mut second = next_line(lines)?;
    let numbers = numbers_line_at(alloc, count, &mut second)?;
    Ok(Counted {
        seeds,
        numbers: Items::from_vec(numbers),
    })
}

/// All tokens that are left of a line, as numbers of any size, negative or not.
fn letter_list(alloc: Global, line: &mut Line) -> Result<Vec<i64>, TextFault>
    ensures { Gives (λ v. v.items) result (letters line.old) }
{
    let at = line.number();
    let mut list = Vec::new(alloc);
    while let Some(token) = line.next_token() {
        let Some(value) = letter(token) else {
            return Err(TextFault::Malformed { line: at });
        };
        list.push(value)?;
    }
    Ok(list)
}

/// Whether one of the numbers, negative or not, has too many digits.
fn any_long_letter(list: &[i64]) -> bool
    ensures { result ≡ list_any is_long_letter list.now }
{
    list.iter()
        .any(|value| value.unsigned_abs() > u64::from(MAX_NUMBER))
}

/// Linking numbers: the word `numbers`, and any number of numbers, negative or not.
#[tactic(auto, unfolding(crate::specs::NumberLines::linking_numbers_at))]
fn linking_numbers_at(alloc: Global, line: &mut Line) -> Result<Vec<i64>, TextFault>
    ensures { Gives (λ v. v.items) result (linking_numbers_at line.old) }
{
    word(line, b"numbers")?;
    let at = line.number();
    let list = letter_list(alloc, line)?;
    if any_long_letter(list.as_slice()) {
        return Err(TextFault::Limit { line: at });
    }
    Ok(list)
}

/// The word `components`, and a number.
#[tactic(auto, unfolding(crate::specs::NumberLines::components_at))]
fn components_at(line: &mut Line) -> Result<u32, TextFault>
    ensures { Gives (λ n. n) result (components_at line.old) }
{
    word(line, b"components")?;
    last_count(line)
}

/// How many components a link has, and its linking numbers.
#[tactic(auto, unfolding(crate::specs::NumberLines::linked_item))]
pub(crate) fn linked_item(alloc: Global, lines: &mut Lines) -> Result<Linked, TextFault>
    ensures { Gives (λ l. (l, lines.new)) result (linked_item lines.old) }
{
    let mut first = next_line(lines)?;
    let components = components_at(&mut first)?;
    let mut second = next_line(lines)?;
    let numbers = linking_numbers_at(alloc, &mut second)?;
    Ok(Linked {
        components,
        numbers: Items::from_vec(numbers),
    })
}
