//! The words of the seeker's command line, read by `clap`: which diagrams, within which bounds, and where the verdict goes.
#![tactic(auto)]

mod asked;
mod command;
mod given;
mod inputs;
pub mod laws;
mod refusal;

pub use asked::{Asked, Talk, read_words};
pub use command::VERSION;
pub use given::{Diagrams, Given};
pub use refusal::refusal_text;
