//! How many colourings a diagram has by quandles, and how many of each weight by a cocycle of either kind, counted from few seeds.
#![tactic(auto)]

mod counting;
mod lane;
mod lane_weight;
mod regions;
mod strands;
mod tally;
mod weigher;

pub use counting::{choices_of, fits_by, numbers};
pub use regions::shadow_weights_by_seeds;
pub use strands::weights_by_seeds;
