//! The words of `knot`: which jobs there are, and what a command line asks for, as `clap` reads it.
#![tactic(auto)]

mod job;
pub mod laws;
mod words;

pub use job::{Job, PlainJob};
pub use words::{Asked, MAX_BUDGET, WordsFault, read_words};
