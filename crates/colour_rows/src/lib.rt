//! Colourings of grid diagrams by quandles, row by row: the walk of a row, and the test whether a list of colours is a colouring.
//! Both answer exactly what their definitions say, and a row can be read off its diagram once and walked under many lists.
#![tactic(auto)]

mod colouring;
mod equation;
mod spans;
mod walking;

pub use colouring::{Colouring, is_colouring};
pub use equation::{Pass, Row};
pub use spans::Spans;
pub use walking::{leftward, passed_leftward, passed_rightward, rightward, walk};
