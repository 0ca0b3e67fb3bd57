//! Texts of jobs, both ways: inputs are read, but for problems and verdicts (verdict_text), and what the programs answer is printed.
//! A text is read exactly as its definition says, or refused at its first bad line, and what is printed is read back.
#![tactic(auto)]

mod braid_checks;
mod braid_steps;
mod colours;
mod letters;
mod pairs;
mod printed;
mod shapes;
mod spelled_colours;
mod weights;

pub use braid_checks::{BraidCheckText, read_braidcheck};
pub use braid_steps::steps_item;
pub use letters::{push_braid, push_letter_line};
pub use pairs::read_pair;
pub use printed::{print_grid, print_moves, print_verdict, push_large, push_list, push_quandle};
pub use shapes::{
    CloseText, ColourText, ReplayText, read_close, read_colour, read_diagram, read_replay,
};
pub use verdict_core::{Diagram, Listed, ProblemText, QuandleName, Verdict};
pub use verdict_text::{
    TIDY_VERSION, Version, problem_item, read_check, read_problem, verdict_item,
};
pub use weights::{WeightText, read_weights};
