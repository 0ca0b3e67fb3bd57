//! Lines that say how many items follow.
ghost use Rattle.std.specs.Prelude.{◌≡◌};
ghost use Rattle.text_items.specs.Reading.{Gives};
ghost use Rattle.table_check.specs.Tables.{how_many};

use text_items::TextFault;
use text_items::reading::{last_count, next_line, word};
use text_lines::Lines;

/// A word and a number, which end their line.
#[tactic(auto, unfolding(crate::specs::Tables::how_many))]
pub(crate) fn how_many(expected: &[u8], lines: &mut Lines) -> Result<u32, TextFault>
    ensures { Gives (λ n. (n, lines.new)) result (how_many expected.now lines.old) }
{
    let mut line = next_line(lines)?;
    word(&mut line, expected)?;
    last_count(&mut line)
}
