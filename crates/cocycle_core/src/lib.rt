//! Cocycles of quandles: 2-cocycles, and shadow cocycles, by which strands and regions have weights that are the same on equivalent diagrams;
//! Mochizuki's formula gives one of each dihedral quandle of prime order.
//! A table is a cocycle exactly if it breaks no law; of any other table the first law that it breaks is found.
#![tactic(auto)]

mod cocycle;
mod dihedral;
mod draft;
mod fault;
mod formula;
mod large;
pub mod laws;
mod shadow_cocycle;
mod shadow_fault;
mod values;

pub use cocycle::Cocycle;
pub use dihedral::has_formula;
pub use fault::CocycleFault;
pub use formula::mochizuki;
pub use large::LargeCocycle;
pub use shadow_cocycle::{ShadowCocycle, of_table};
pub use shadow_fault::ShadowFault;
pub use values::Values;
