//! The types of planar diagram codes.

use memory_core::Items;

/// The four edges at a crossing, counterclockwise from the one on which the strand under comes, in the order of the KnotTheory package.
/// Edges are numbered from 1.
#[derive(Clone, Copy, PartialEq, Eq)]
pub struct Crossing {
    /// The edge on which the strand under comes.
    pub first: u32,
    /// The edge of the strand over on the right of the strand under: at a positive crossing the one on which it leaves.
    pub second: u32,
    /// The edge on which the strand under leaves.
    pub third: u32,
    /// The edge of the strand over on the left of the strand under: at a positive crossing the one on which it comes.
    pub fourth: u32,
    /// Whether the sign of the crossing is positive.
    pub positive: bool,
}

/// The code of a diagram.
#[derive(Drop)]
pub struct Code {
    /// The crossings, by row from the lowest, and in a row by column from the left.
    pub crossings: Items<Crossing>,
    /// How many edges there are.
    pub edges: u32,
    /// How many components have no crossing, and so no edge.
    pub loops: u32,
}
