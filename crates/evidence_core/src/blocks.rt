//! Blocks: a quandle, and perhaps a cocycle of it, which may look at regions too.

use crate::shadows::SpelledShadow;
use cocycle_core::LargeCocycle;
use quandle_core::LargeListed;

/// A cocycle by which colourings are to be weighed. Its quandle may be a larger one if the cocycle looks at strands alone.
#[derive(Drop)]
pub enum LargeWeighing {
    /// A 2-cocycle, written after the word `weight`: it looks at the two strands of a crossing.
    Strands(LargeCocycle),
    /// A shadow cocycle, written after the word `shadow`: it looks at a region too. Its quandle has at most `MAX_ORDER` colours.
    Regions(SpelledShadow),
}

/// A quandle by which colourings are to be counted, and perhaps a cocycle by which they are to be weighed.
/// A cocycle that was read is one of this quandle.
#[derive(Drop)]
pub struct Block {
    pub listed: LargeListed,
    pub cocycle: Option<LargeWeighing>,
}
