//! The error that memory ran out, as one type for all crates, and a list that a public field holds.
#![tactic(auto)]

mod items;
mod out_of_memory;

pub use items::Items;
pub use out_of_memory::OutOfMemory;
