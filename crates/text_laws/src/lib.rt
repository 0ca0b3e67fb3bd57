//! Laws of the workbench's texts: what is printed is read back, a text has one reading, and what is read is there.
//! Each fault is that of the first bad line, by its form, its limits and then its content.
//! Laws of first faults and of single rules, which are broken if a definition is changed together with its body.
#![tactic(auto)]

pub mod first_faults;
pub mod laws;
pub mod lines;
pub mod small_laws;
