//! Texts of lines and tokens: bytes cut into lines, lines into tokens, and tokens read as numbers; and lines of words and numbers written.
//! A text is seen as its numbered lines of tokens and the place where it ends, and each cursor takes the next of them without memory.
#![tactic(auto)]

mod cutting;
mod line;
mod lines;
mod numbers;
mod writing;

pub use line::Line;
pub use lines::Lines;
pub use numbers::{MAX_DIGITS, OVERLONG, number};
pub use writing::{push_counted, push_number, push_number_line, push_paired, push_word_line};
