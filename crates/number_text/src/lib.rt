//! Texts of evidence by numbers that two diagrams are not equivalent, read, with shadow cocycles and blocks; and what `check` reads of two
//! diagrams, a problem and a verdict or evidence by numbers.
#![tactic(auto)]

mod block_cocycles;
mod blocks;
mod evidence_items;
mod number_lines;
mod numbered;
mod said;
mod shadows;
mod weighed;

pub use block_cocycles::perhaps_cocycle;
pub use blocks::{block_item, read_blocks};
pub use evidence_core::{Block, Counted, Evidence, LargeWeighing, Linked, SpelledShadow, Spelling};
pub use evidence_items::{THIRD_VERSION, count_of, evidence_item};
pub use number_lines::{numbers_line_at, seeds_at};
pub use numbered::{NumbersText, read_numbers};
pub use said::{Said, read_said};
pub use shadows::shadow_item;
pub use weighed::{WeighedText, Weighing, read_weighed};
