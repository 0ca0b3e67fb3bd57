//! Shadow cocycles, as they are spelled.

use cocycle_core::ShadowCocycle;

/// How a shadow cocycle is spelled.
#[derive(Clone, Copy, PartialEq, Eq)]
pub enum Spelling {
    /// By the name of Mochizuki's formula.
    Mochizuki,
    /// By its table.
    Table,
}

/// A shadow cocycle, and how it is spelled.
#[derive(Drop)]
pub struct SpelledShadow {
    pub spelling: Spelling,
    pub cocycle: ShadowCocycle,
}
