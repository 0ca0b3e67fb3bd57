//! What is said of two diagrams, and when the evidence for it holds: diagrams, problems and verdicts, below the texts that they are
//! read from and the checker that rules on them.
#![tactic(auto)]

mod diagrams;
mod problem;
mod verdict;

pub use diagrams::Diagram;
pub use problem::ProblemText;
pub use quandle_core::{LargeListed, Listed, QuandleName};
pub use verdict::Verdict;
