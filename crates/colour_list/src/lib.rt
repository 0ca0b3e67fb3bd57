//! The complete list of colourings of a grid diagram by a quandle, in lexicographic order, by a sweep from the lowest row upward.
//! The list is all of them, each once, wherever the quandle has few enough choices of a colour for each bottom of the diagram; else it is refused.
#![tactic(auto)]

mod complete;
mod grouping;
mod level;
mod limits;

pub use complete::{in_order, list, list_fitting};
pub use limits::{ListFault, MAX_COLOURINGS, fits};
