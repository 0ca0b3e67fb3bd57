//! The verdict on two diagrams: different by the first listed quandle that separates them, else what a search for moves between the
//! simplified diagrams comes to. What it says is true, and the search that it rests on is handed out with it.
#![tactic(auto)]

mod decision;
pub mod laws;
mod searched;
mod separating;

pub use decision::{Decision, decide, decide_alone};
pub use separating::told_apart;
