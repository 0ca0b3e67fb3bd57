//! The moves of grid diagrams: shifts, exchanges, slides, stabilisations and destabilisations, as relations between the marks before and after.
//! A move is applied exactly where it is legal and else refused with its first fault, and its inverse leads back.
#![tactic(auto)]

mod applying;
mod destabilisation;
mod exchange;
mod shift;
mod slide;
mod stabilisation;
mod step;
mod tidy;
mod undoing;

pub use applying::{apply, apply_all, apply_in_place, inverse};
pub use destabilisation::{Narrowing, narrowing_of};
pub use shift::number_after_shift;
pub use stabilisation::{Widening, widening_of};
pub use step::{Move, MoveFault};
pub use tidy::{is_tidy, may_follow};
pub use undoing::push_undone;
