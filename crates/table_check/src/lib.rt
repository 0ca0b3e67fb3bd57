//! Tables of knots: read exactly as their definition says, or refused at their first bad line; ruled on, and answered by a line.
//! The checker accepts exactly what holds, and otherwise names the first cause.
#![tactic(auto)]

mod answer;
mod cause;
mod class_items;
mod classes;
mod heads;
mod lines;
mod pairs;
mod row_items;
mod rows;
mod ruling;
mod tables;

pub use answer::answer_table;
pub use cause::{ClassCause, TableCause, TableRuling};
pub use cert_check::Why;
pub use class_items::Class;
pub use lines::table_ruling_line;
pub use row_items::{KnotRow, OpenPair};
pub use ruling::rule;
pub use tables::{FOURTH_VERSION, KnotTable, begins_table, read_table};
