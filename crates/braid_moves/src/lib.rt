//! Steps between braids: the relations of Artin, conjugation, and the moves of Markov; what they make of fixed points; and a ruling on a list of them.
//! For every quandle each legal step carries the fixed points of the old braid's action one to one to those of the new one's.
#![tactic(auto)]

mod applying;
mod carrying;
mod fault;
pub mod laws;
mod letters;
mod ruling;
mod step;

pub use applying::apply_braid;
pub use carrying::carry_tuple;
pub use ruling::{BraidRuling, check_braids};
pub use step::{BraidMove, BraidMoveFault};
