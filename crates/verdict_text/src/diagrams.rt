//! Diagrams.
ghost use Rattle.std.specs.Prelude.{◌≡◌};
ghost use Rattle.text_items.specs.Reading.{Gives};
ghost use Rattle.verdict_text.specs.Diagrams.{diagram_item};

use std::alloc::Global;
use text_items::{TextFault, braid_item, grid_item};
use text_lines::Lines;
use verdict_core::Diagram;

/// A braid where a line that begins with `braid` is next, else a grid; or the fault of the first bad line. Only letters of a braid take memory.
#[tactic(auto, unfolding(crate::specs::Diagrams::diagram_item))]
pub fn diagram_item(alloc: Global, lines: &mut Lines) -> Result<Diagram, TextFault>
    ensures { Gives (λ d. (d, lines.new)) result (diagram_item lines.old) }
{
    if lines.begins(b"braid") {
        Ok(Diagram::Braid(braid_item(alloc, lines)?))
    } else {
        Ok(Diagram::Grid(grid_item(lines)?))
    }
}
