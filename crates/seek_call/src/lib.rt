//! A call of the seeker, over any words, files, places and writer: what is asked is sought, answered and reported.
#![tactic(auto)]

mod blocks;
mod call;
mod failure;
mod inputs;
pub mod outlets;
pub mod program;
mod progress;
mod report;
mod search;
