//! Drafts of grid diagrams of planar diagram codes, drawn with few columns.
//! That a draft is a diagram of the code is not proved here: code_grids computes the code of the diagram and compares it.
#![tactic(auto)]

mod bends;
mod draft;
mod lines;
mod order;
mod rectangles;
mod sphere;
mod tables;

pub use draft::{Draft, draft_of};
