//! The top call: words, read, length, text, job, write.
//! For all words, sources and sinks it ends as its contract says, and each job answers its input exactly.
#![tactic(auto)]

mod answer;
mod call;
pub mod laws;
mod ports;

pub use call::{run, run_alone};
pub use knot_ports::Status;
pub use knot_words::{Asked, Job, PlainJob, WordsFault, read_words};
pub use ports::Ports;
