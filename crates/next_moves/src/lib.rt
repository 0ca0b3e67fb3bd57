//! Neighbours of canonical diagrams: the complete ordered list of offers within a cap, each with a link that leads there.
//! Every neighbour, over all translates and all moves but shifts, has its key in some offer, and the key of every offer is that of a neighbour.
#![tactic(auto)]

pub mod laws;
mod links;
mod offer_list;
mod offers;
mod side_by_side;
mod spans;
mod trading;
mod tries;

pub use links::{Link, Offer, push_link, push_link_back};
pub use offers::{MAX_OFFERS, Offers};
