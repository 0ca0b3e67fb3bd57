//! What `knot` reports on standard error, in words, beside its answer.
//! The answer is that of knot_jobs, with a proof; here the words and the input are looked at once more, for whoever wrote them.
#![tactic(auto)]

mod jobs;
mod lines;
mod refusals;
mod sentence;
mod shapes;
mod words;

pub use refusals::Refusal;
pub use sentence::{Sentence, reading, sentence_of};
