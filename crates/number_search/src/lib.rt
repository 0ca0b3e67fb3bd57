//! Two diagrams distinguished by numbers: by linking numbers, or by the numbers of their colourings by blocks, counted from few seeds.
//! What is found is evidence that `rule` of number_check accepts, so that no moves join the two; nothing is found exactly where these numbers agree.
#![tactic(auto)]

mod copied;
pub mod laws;
mod seed_pair;
mod told;

pub use seed_pair::SeedPair;
pub use told::{count_fitting, tell_apart, tell_apart_by_blocks, tell_apart_by_linking};
