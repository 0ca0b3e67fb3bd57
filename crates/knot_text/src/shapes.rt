//! The whole texts of the jobs.
ghost use Rattle.std.specs.Prelude.{◌≡◌};
ghost use Rattle.text_items.specs.Reading.{Gives};
ghost use Rattle.knot_text.specs.Shapes.{replay_of, colour_of, close_of, lone_diagram_of};

use crate::colours::coloured;
use braid_core::Braid;
use colour_rows::Colouring;
use grid_moves::Move;
use memory_core::Items;
use std::alloc::Global;
use text_items::reading::text_end;
use text_items::{TextFault, braid_item, quandle_list};
use text_lines::Lines;
use verdict_core::{Diagram, Listed};
use verdict_text::{diagram_item, moves_item};

/// A diagram, moves to be made on it, and perhaps a quandle with a colour below its order for each column of the diagram,
/// which are to be carried.
#[derive(Drop)]
pub struct ReplayText {
    pub diagram: Diagram,
    pub moves: Items<Move>,
    pub colours: Option<(Listed, Colouring)>,
}

/// A diagram, and the quandles by which it is to be coloured.
#[derive(Drop)]
pub struct ColourText {
    pub diagram: Diagram,
    pub quandles: Items<Listed>,
}

/// A braid that is to be closed, and the quandles by which the fixed points of its action are to be listed.
#[derive(Drop)]
pub struct CloseText {
    pub braid: Braid,
    pub quandles: Items<Listed>,
}

/// A diagram and moves to be made on it, and then nothing, or a quandle and a colour below its order for each column of
/// the diagram. Otherwise the fault of the first bad line, or `OutOfMemory`. Whether the moves are legal and the colours a colouring is not checked.
#[tactic(auto, unfolding(crate::specs::Shapes::replay_in))]
pub fn read_replay(alloc: Global, bytes: &[u8]) -> Result<ReplayText, TextFault>
    ensures { Gives (λ r. r) result (replay_of bytes.now) }
{
    let mut lines = Lines::new(bytes);
    let diagram = diagram_item(alloc, &mut lines)?;
    let moves = moves_item(alloc, &mut lines)?;
    let colours = coloured(alloc, diagram.columns(), &mut lines)?;
    text_end(&mut lines)?;
    Ok(ReplayText {
        diagram,
        moves: Items::from_vec(moves),
        colours,
    })
}

/// A diagram and any number of quandles; if there are none, the built-in list is taken. Otherwise the fault of the first bad line, or `OutOfMemory`.
#[tactic(auto, unfolding(crate::specs::Shapes::colour_in))]
pub fn read_colour(alloc: Global, bytes: &[u8]) -> Result<ColourText, TextFault>
    ensures { Gives (λ c. c) result (colour_of bytes.now) }
{
    let mut lines = Lines::new(bytes);
    let diagram = diagram_item(alloc, &mut lines)?;
    let quandles = quandle_list(alloc, &mut lines)?;
    text_end(&mut lines)?;
    Ok(ColourText { diagram, quandles })
}

/// A braid and any number of quandles; if there are none, the built-in list is taken. Otherwise the fault of the first bad line, or `OutOfMemory`.
#[tactic(auto, unfolding(crate::specs::Shapes::close_in))]
pub fn read_close(alloc: Global, bytes: &[u8]) -> Result<CloseText, TextFault>
    ensures { Gives (λ c. c) result (close_of bytes.now) }
{
    let mut lines = Lines::new(bytes);
    let braid = braid_item(alloc, &mut lines)?;
    let quandles = quandle_list(alloc, &mut lines)?;
    text_end(&mut lines)?;
    Ok(CloseText { braid, quandles })
}

/// A diagram, and nothing after it. Otherwise the fault of the first bad line, or `OutOfMemory`.
#[tactic(auto, unfolding(crate::specs::Shapes::lone_diagram_in))]
pub fn read_diagram(alloc: Global, bytes: &[u8]) -> Result<Diagram, TextFault>
    ensures { Gives (λ d. d) result (lone_diagram_of bytes.now) }
{
    let mut lines = Lines::new(bytes);
    let lone = diagram_item(alloc, &mut lines)?;
    text_end(&mut lines)?;
    Ok(lone)
}
