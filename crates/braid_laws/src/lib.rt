//! Laws of braids, of their action, and of their closures, over definitions alone.
#![tactic(auto)]

pub mod braids;
pub mod closures;
