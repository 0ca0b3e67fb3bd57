//! Braids as words in Artin's generators, their action on tuples of quandle colours, and the fixed points of that action.
//! A word is accepted exactly where it is a braid whose closure has room, the action is the letters' from first to last, and the list of fixed points
//! is complete and in order.
#![tactic(auto)]

mod action;
mod braid;
mod fault;
mod tuples;

pub use action::{act, act_letter, act_letters};
pub use braid::{Braid, INLINE_LETTERS, MAX_STRANDS};
pub use fault::BraidFault;
pub use tuples::{FixFault, MAX_TUPLES, Tuple, fixed_points};
