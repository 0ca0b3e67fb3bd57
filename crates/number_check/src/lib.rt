//! The checker of evidence by numbers: it rules on evidence that numbers of colourings, their weights or linking numbers
//! distinguish two diagrams. It accepts exactly what holds, and otherwise names the first cause.
#![tactic(auto)]

mod counts;
mod ruling;

pub use counts::{SaidNumbers, colouring_quandle, numbers_by, settled_cause};
pub use evidence_core::{Cause, NumberRuling, are_same, linked_of};
pub use ruling::{laws_of, rule};
