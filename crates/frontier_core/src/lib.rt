//! The ids that wait to be worked on, kept by size: the next one is the id of the least size that was pushed first.
//! All memory is taken at the start; a push and a pop take none, and are written to take constant time, which is not proved.
#![tactic(auto)]

mod frontier;
mod laws;
mod queue;
mod sizes;

pub use frontier::Frontier;
pub use laws::{comes_out_once, same_size_in_order};
pub use memory_core::OutOfMemory;
pub use sizes::SIZES;
