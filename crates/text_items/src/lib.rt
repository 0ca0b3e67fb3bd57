//! The items of a text, read: grids, braids, quandles and lists of numbers.
//! Each is read exactly as its definition says, or refused at its first bad line.
#![tactic(auto)]

mod braids;
mod fault;
mod grids;
mod large_quandles;
mod modulus;
mod number_lists;
pub mod numbers;
mod quandles;
pub mod reading;
pub mod rows;

pub use braids::{braid_item, letter};
pub use fault::TextFault;
pub use grids::grid_item;
pub use large_quandles::{large_quandle_at, large_quandle_item};
pub use modulus::{MAX_MODULUS, modulus_at};
pub use number_lists::{any_long, number_list};
pub use quandles::{
    MAX_QUANDLES, Written, built_in, quandle_at, quandle_item, quandle_list, written_at,
};
