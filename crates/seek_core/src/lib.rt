//! What can be said of two diagrams, sought in rounds by numbers, by quandles and by walks, and its text.
//! Nothing is proved of what walks find. What is answered is a decision on the input or evidence by numbers on it, which is true and which
//! `check` accepts after it, where both are within its limit of bytes.
#![tactic(auto)]

mod answer;
mod blocks;
mod bounds;
mod candidates;
mod ending;
mod finding;
mod formulas;
pub mod laws;
mod pair;
mod parts;
mod separating;
mod sizes;

pub use answer::{Answer, Tried, answer_to};
pub use blocks::Blocks;
pub use bounds::{Bounds, Resources, SHORT_STEPS};
pub use ending::{Ending, run};
pub use finding::{FIRST_QUANDLES, SearchOutcome, find};
pub use formulas::formula_quandles;
pub use parts::{join_parts, part_with_line};
