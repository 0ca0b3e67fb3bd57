//! The jobs of `knot` that search or take an option: `decide`, `simplify`, `least` and `sample`, with the sample walks, picked by a seeded generator.
//! What each replies rests on the bytes of its input, its options, and the search made for it.
#![tactic(auto)]

mod candidates;
pub mod decide;
pub mod laws;
pub mod least;
mod reply;
pub mod sample;
pub mod sample_laws;
pub mod simplify;
mod text;
mod walk;

pub use reply::Reply;
pub use text::sample_text;
pub use walk::{LARGEST, STREAM, TURNS, sample_walk};
