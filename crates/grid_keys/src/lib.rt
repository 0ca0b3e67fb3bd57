//! Translates of a grid diagram, and keys. A grid's key, its size and the words of its rows, names it; a brief key is the same in fewer
//! bytes. The least translate, the canonical form, is defined here, with its key and the shifts that reach it.
#![tactic(auto)]

mod brief;
mod key;
pub mod laws;
mod least_form;
mod shifts;
mod translation;

pub use brief::BriefKey;
pub use key::{
    BASE, DIGIT_BITS, Packed, WORD_COLUMNS, WORDS, compare_keys, grid_of, pack, translated_key,
    unpack,
};
pub use least_form::{LeastForm, LeastKey};
pub use shifts::{push_shifts, push_shifts_back};
pub use translation::translate;
