//! Grid diagrams of knots and links: the type, its readers, and the words for marks, intervals and faults.
//! Two lists are accepted exactly where they are a grid, and each reader answers what its definition says.
#![tactic(auto)]

mod crossing;
mod fault;
mod grid;
mod mark;
mod parts;
mod span;

pub use fault::{GridFault, all_below, is_repeated};
pub use grid::{Grid, MAX_SIZE, Rows};
pub use mark::{Corner, Kind};
pub use span::Span;
