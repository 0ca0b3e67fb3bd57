//! The colours of a replay, after their quandle.
ghost use Rattle.std.specs.Prelude.{◌≡◌};
ghost use Rattle.text_items.specs.Reading.{Gives};
ghost use Rattle.colour_rows.specs.Colouring.{are_colours};
ghost use Rattle.knot_text.specs.Colours.{colours_at, colours_item, coloured_item, coloured};

use colour_rows::Colouring;
use grid_core::all_below;
use std::alloc::Global;
use text_items::numbers::numbers_behind;
use text_items::reading::next_line;
use text_items::{TextFault, quandle_item};
use text_lines::{Line, Lines};
use verdict_core::Listed;

/// The word `colours`, and a colour below the order, which is at most 255, for each of so many columns.
#[tactic(auto, unfolding(crate::specs::Colours::colours_at))]
fn colours_at(width: u8, order: u8, line: &mut Line) -> Result<Colouring, TextFault>
    ensures { Gives (λ c. c) result (colours_at width order line.old) }
{
    let at = line.number();
    let colours = numbers_behind(b"colours", line)?;
    if !are_colours(colours.as_slice(), width, order) {
        return Err(TextFault::Malformed { line: at });
    }
    Ok(colours)
}

/// Whether there are so many colours, each below the order.
fn are_colours(colours: &[u8], width: u8, order: u8) -> bool
    ensures { result ≡ are_colours width order colours.now }
{
    colours.len() == width as usize && all_below(colours, order)
}

/// The item `colours`.
#[tactic(auto, unfolding(crate::specs::Colours::colours_item))]
fn colours_item(width: u8, order: u8, lines: &mut Lines) -> Result<Colouring, TextFault>
    ensures { Gives (λ c. (c, lines.new)) result (colours_item width order lines.old) }
{
    let mut line = next_line(lines)?;
    colours_at(width, order, &mut line)
}

/// A quandle, and colours below its order.
#[tactic(auto, unfolding(crate::specs::Colours::coloured_item))]
fn coloured_item(
    alloc: Global,
    width: u8,
    lines: &mut Lines,
) -> Result<(Listed, Colouring), TextFault>
    ensures { Gives (λ q. (q, lines.new)) result (coloured_item width lines.old) }
{
    let listed = quandle_item(alloc, lines)?;
    let order = listed.quandle().order();
    let colours = colours_item(width, order, lines)?;
    Ok((listed, colours))
}

/// A quandle and colours where a line that begins with `quandle` is next, or nothing. Otherwise the fault of the first bad line, or `OutOfMemory`.
#[tactic(auto, unfolding(crate::specs::Colours::coloured))]
pub fn coloured(
    alloc: Global,
    width: u8,
    lines: &mut Lines,
) -> Result<Option<(Listed, Colouring)>, TextFault>
    ensures { Gives (λ q. (q, lines.new)) result (coloured width lines.old) }
{
    if !lines.begins(b"quandle") {
        return Ok(None);
    }
    Ok(Some(coloured_item(alloc, width, lines)?))
}
