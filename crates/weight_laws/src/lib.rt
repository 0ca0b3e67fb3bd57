//! Laws of linking numbers, of weights of colourings, and of numbers of colourings, over definitions alone.
#![tactic(auto)]

pub mod linking;
pub mod numbers;
pub mod seeds;
pub mod shadows;
pub mod weights;
