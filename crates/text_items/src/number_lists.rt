//! Lists of numbers of a line, however many.
ghost use Rattle.std.specs.Prelude.{◌≡◌};
ghost use Rattle.std.specs.List.{list_any};
ghost use Rattle.text_items.specs.Reading.{Gives};
ghost use Rattle.text_items.specs.NumberLists.{is_long, line_numbers};

use crate::fault::TextFault;
use crate::reading::MAX_NUMBER;
use std::alloc::Global;
use text_lines::Line;

/// All tokens that are left of a line, as numbers of any size. Otherwise the fault of the line, or `OutOfMemory`.
pub fn number_list(alloc: Global, line: &mut Line) -> Result<Vec<u32>, TextFault>
    ensures { Gives (λ v. v.items) result (line_numbers line.old) }
{
    let at = line.number();
    let mut list = Vec::new(alloc);
    while let Some(token) = line.next_token() {
        let Some(value) = text_lines::number(token) else {
            return Err(TextFault::Malformed { line: at });
        };
        list.push(value)?;
    }
    Ok(list)
}

/// Whether one of the numbers has too many digits.
pub fn any_long(list: &[u32]) -> bool
    ensures { result ≡ list_any is_long list.now }
{
    list.iter().any(|value| *value > MAX_NUMBER)
}
