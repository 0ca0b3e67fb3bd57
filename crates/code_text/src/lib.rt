//! Texts of planar diagram codes: rows as other programs print them, loops, and signed Gauss lines; and grid diagrams of them.
//! A text is read exactly as its definition says, and the code of the grid is that of the text, under other names.
#![tactic(auto)]

mod blanks;
mod code_reading;
mod gauss_check;
mod gauss_lines;
mod gauss_signs;
mod refusal;
mod row_lines;
mod text_grid;

pub use code_reading::{CodeText, MAX_LOOPS, read_code};
pub use gauss_lines::GaussPassage;
pub use refusal::TextRefusal;
pub use text_grid::grid_of_text;
