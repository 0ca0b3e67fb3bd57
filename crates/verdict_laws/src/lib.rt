//! Laws of the rulings on a verdict, on evidence by numbers or on a table of knots, over definitions alone; and of decisions:
//! whoever found a verdict whose evidence holds has found what is true of the diagrams that were read, and accepted after them.
#![tactic(auto)]

pub mod counts;
pub mod decisions;
pub mod rulings;
pub mod tables;
pub mod verdicts;
