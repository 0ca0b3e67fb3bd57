//! Colourings of a diagram from few seeds, columns whose colours give those of all others, row by row; and few seeds, sought.
#![tactic(auto)]

mod connected;
mod counting;
mod progress;
mod seeding;
mod seeking;
pub mod settling;

pub use connected::is_connected;
pub use counting::{CountFault, MAX_CANDIDATES, count, few_ways, rows_of};
pub use progress::Step;
pub use seeding::{SeedFault, Seeding};
pub use seeking::seeds_of;
