//! Tests of whole calls: with a fault at each call of the source and the sink, at each step of writing a file, what is said of faults in the middle, and
//! how many workers are at a book at once; and of functions that no program calls.
#![tactic(auto)]

#[cfg(test)]
mod tests;
