//! Laws of grid diagrams and of their moves, over the definitions of grid_core and grid_moves alone.
#![tactic(auto)]

pub mod diagrams;
pub mod moves;
