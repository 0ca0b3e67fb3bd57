//! Crossing codes of grid diagrams: planar diagram codes and signed Gauss codes, and their colourings.
//! A code is exactly that of its definition, and has as many colourings by each quandle as the diagram.
#![tactic(auto)]

mod code;
mod code_colouring;
mod components;
mod crossing;
mod edge_colouring;
mod edges;
pub mod laws;
mod layout;
mod passages;
mod printed;

pub use code::code_of;
pub use code_colouring::{is_code_colouring, is_edge, names_edges};
pub use crossing::{Code, Crossing};
pub use edge_colouring::edge_colours;
pub use printed::{gauss_text, pd_text};
