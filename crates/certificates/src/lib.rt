//! Numbers of colourings as texts, and what is said of two diagrams as it is in a certificate: printed, and read back as it was printed.
#![tactic(auto)]

pub mod laws;
mod lines;
mod printed;
mod said;
mod shadows;

pub use lines::{numbers_text, push_labelled_line};
pub use printed::print_evidence;
pub use said::print_said;
