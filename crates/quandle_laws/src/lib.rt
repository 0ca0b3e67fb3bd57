//! Laws of quandles, of their cocycles, and of colourings of grid diagrams, over definitions alone.
#![tactic(auto)]

pub mod cocycles;
pub mod lists;
pub mod quandles;
pub mod rows;
