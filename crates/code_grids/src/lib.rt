//! Grid diagrams of planar diagram codes, by the drafts of code_drafts. The code of an answered diagram is the given one, with other names
//! of crossings and edges.
//! That a draft is a diagram of the code is not proved; `grid_of_code` computes the code of the diagram and compares it.
#![tactic(auto)]

mod drawing;
mod edge_names;
pub mod laws;
mod refusal;
mod renaming;
mod same_code;

pub use drawing::{Drawing, grid_of_code};
pub use refusal::DrawingRefusal;
pub use renaming::Renaming;
pub use same_code::renaming_between;
