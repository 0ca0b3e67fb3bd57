//! Why a line of an input is bad, in words, for whoever wrote it.
//! The readers say, with a proof, that a line is bad (text_items and above); here the items are read once more,
//! up to the bad one, to find out what is wrong with it.
#![tactic(auto)]

mod alone;
mod braids;
mod grids;
mod numbers;
mod quandles;
mod reader;
mod reason;
mod shape;
mod shown;

pub use alone::{NotOne, one_diagram};
pub use braids::BraidReason;
pub use grids::GridReason;
pub use quandles::{Family, QuandleReason};
pub use reader::{reason_at, reason_in};
pub use reason::{Due, Reason, Which};
pub use shape::{PROBLEM, Part, Shape, Then};
pub use shown::Shown;
