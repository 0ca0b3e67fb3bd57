//! Finite quandles by their tables: the type, its two operations, the built-in tables, and quandles by name.
//! A table is accepted exactly where the three laws hold, and refused with the first law that fails and its first case.
//! Each name except `Table` gives one quandle at most, and any quandle may have the name `Table`.
#![tactic(auto)]

mod fault;
mod large;
mod large_names;
mod names;
mod operations;
mod quandle;
mod tables;

pub use fault::QuandleFault;
pub use large::{LargeFault, LargeQuandle};
pub use large_names::LargeListed;
pub use names::{Listed, QuandleName};
pub use operations::{MAX_LARGE_ORDER, Operations};
pub use quandle::{MAX_ORDER, MAX_TABLE, Quandle};
