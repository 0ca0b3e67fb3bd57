//! The closure of a braid as a grid diagram, with the columns of its feet.
//! The closure is exactly that of its definition, and its colourings by a quandle, read at the feet, are the fixed points of the braid's action, each once.
#![tactic(auto)]

mod closure;
mod columns;

pub use closure::{Closure, close};
pub use columns::Column;
