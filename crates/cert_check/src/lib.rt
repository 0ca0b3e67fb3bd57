//! The checker of evidence: it rules on a verdict on two diagrams that somebody else found.
//! It accepts exactly what holds, and otherwise names the first cause.
#![tactic(auto)]

mod lists;
mod moves;
mod ruling;
mod verdict;

pub use moves::check_moves;
pub use ruling::{Ruling, Why};
pub use verdict::check;
