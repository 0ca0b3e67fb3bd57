//! Planar diagram codes: why one is that of no diagram in the plane; and codes made of rows without signs, in which each strand gets the
//! direction of its passages under.
#![tactic(auto)]

mod code_fault;
mod code_from;
mod code_map;
mod joined_edges;
pub mod laws;
mod numbers;
mod row;
mod row_signs;
mod rows_fault;

pub use code_fault::{CodeFault, MAX_CROSSINGS, first_fault};
pub use code_from::code_of_rows;
pub use code_map::own_places;
pub use joined_edges::are_joined;
pub use row::CodeRow;
pub use rows_fault::RowsFault;
