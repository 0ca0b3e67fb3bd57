//! What is said of two diagrams.

use colour_rows::Colouring;
use grid_moves::Move;
use memory_core::Items;
use quandle_core::Listed;

/// What is said of two diagrams, with the evidence.
#[derive(Drop)]
pub enum Verdict {
    /// These moves join the first diagram to the second.
    Equal(Items<Move>),
    /// By this quandle the first diagram has the first list of colourings and the second the second, and the lists have
    /// different lengths.
    Different {
        listed: Listed,
        first: Items<Colouring>,
        second: Items<Colouring>,
    },
    /// A search admitted as many diagrams as this budget, and refused a further one.
    UnknownBudget {
        budget: u32,
    },
    /// Moves within size `cap` reach this many canonical diagrams from the two, and no list of moves within `cap` joins them.
    UnknownExhausted {
        cap: u32,
        admitted: u32,
    },
}
