//! Laws of the book of a search: of its machine and of sound books, and of what their entries and ends say, over the definitions alone.
#![tactic(auto)]

pub mod ended;
pub mod machine;
