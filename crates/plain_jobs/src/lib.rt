//! The jobs of knot that need no search and no option: what they answer rests on the bytes of their inputs alone.
//! Each answers its input exactly, and what it says of diagrams and braids is true.
#![tactic(auto)]

mod comparison;
mod job;
mod jobs;
pub mod laws;

pub use job::answer;
pub use knot_words::PlainJob;
pub use reply_text::PlainReply;
