//! One name for all translates of a grid diagram: the least of them with the shifts that reach it, and its key. Lists of moves, tidied.
//! Two diagrams are translates of each other exactly where their canonical forms have one key. The rows of a grid of few columns are the
//! digits of two numbers: one step of arithmetic moves all marks, finds the least translate, or finds which neighbours may trade places.
#![tactic(auto)]

mod canonical_form;
mod digits;
pub mod laws;
mod short_grid;
mod short_trades;
mod spread;
mod tidying;

pub use canonical_form::{canonical, canonical_key};
pub use digits::MAX_SHORT_SIZE;
pub use short_grid::ShortGrid;
pub use short_trades::ShortTrades;
pub use tidying::tidy;
