//! What becomes of the colourings of a grid diagram under each move: the carried colouring, and the laws of carrying, with their lemmas.
//! Each legal move carries the colourings of the old diagram one to one to those of the new one, so equivalent diagrams have equally many.
#![tactic(auto)]

mod blocks;
mod carrying;
pub mod laws;
mod passing;

pub use carrying::carry;
