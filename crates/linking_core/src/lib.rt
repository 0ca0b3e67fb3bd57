//! Components and linking numbers of links, read off their grid diagrams.
//! Each legal move, of every kind, keeps the number of components and the list of linking numbers, so equivalent diagrams have equal lists.
#![tactic(auto)]

mod components;
mod linking_numbers;

pub use components::component;
pub use linking_numbers::linking;
