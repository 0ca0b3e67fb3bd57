//! What is asked of two diagrams.

use crate::diagrams::Diagram;
use memory_core::Items;
use quandle_core::Listed;

/// Two diagrams, and the quandles by which they are to be compared, in the listed order.
#[derive(Drop)]
pub struct ProblemText {
    pub first: Diagram,
    pub second: Diagram,
    pub quandles: Items<Listed>,
}
