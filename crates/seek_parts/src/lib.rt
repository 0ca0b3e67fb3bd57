//! The parts of an input of `seek`, read as the words give them: diagrams and quandles from files, standard input, braids and codes.
//! The parts are in the order of what is given, and each has the bytes that `Texts` reports; else the answer says what went wrong.
//! A file that is written comes to its place whole or not at all, and the place is as it was where a step fails.
#![tactic(auto)]

mod clash;
mod disk;
mod fault;
mod part;
mod parts;
mod place;
mod places;
mod put;
mod streams;
mod text_sink;
mod texts;

pub use clash::read_and_written;
pub use disk::DiskPlaces;
pub use fault::{PartFault, text_status, write_memory};
pub use parts::Parts;
pub use place::Place;
pub use places::Places;
pub use put::{put_whole, try_place};
pub use text_sink::TextSink;
pub use texts::{SystemTexts, Texts};
