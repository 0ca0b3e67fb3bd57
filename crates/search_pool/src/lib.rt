//! Workers at a book: they claim entries and settle them until it is over.
#![tactic(auto)]

mod finding;
mod gate;
mod hand;
mod hints;
mod holding;
mod locked;
mod many;
mod searcher;
mod seat;
mod shared;
mod shared_problem;
mod task_offers;

pub use finding::Finding;
pub use gate::{Gate, OpenGate};
pub use many::{MAX_WORKERS, pool};
pub use searcher::{alone, alone_by};
pub use seat::Seat;
pub use shared::SharedBook;
pub use shared_problem::OfProblem;
