//! The job `check`: what is said of two diagrams, or a table of knots, is read, ruled on, and answered.
//! What accepted bytes say is true, and all others are refused by their length, their first bad line or their first cause.
#![tactic(auto)]

mod call;
mod checker;
mod checking;
mod evidence;
mod ports;

pub use call::run;
pub use checker::program;
pub use checking::answer;
pub use evidence::check_evidence;
pub use knot_ports::Status;
pub use number_text::{Said, read_said};
pub use ports::{read_input, write_text};
pub use reply_text::PlainReply;
