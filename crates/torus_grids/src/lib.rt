//! Grid diagrams on the torus: a diagram changed in place, one name for all its translates, moves drawn at random, and shorter paths
//! from one name to another.
#![tactic(auto)]

mod draws;
mod form;
mod graph;
mod lines;
mod shortening;
mod torus;

pub use draws::{
    below, destabilise_at_random, exchange_at_random, mark_and_corner, stabilise_at_random,
};
pub use form::Form;
pub use shortening::shortened;
pub use torus::{Torus, TorusMove, TorusMoves};
