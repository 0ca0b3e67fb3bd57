//! The lines in which the jobs answer, and replies: a status, and the text that is written with it.
#![tactic(auto)]

pub mod lines;
mod reply;

pub use knot_ports::Status;
pub use reply::PlainReply;
