//! What is proved of a text that a program has written after its problem, a verdict or evidence by numbers: it is true of the two diagrams that were
//! read, and accepted after them. Whoever found what holds of the diagrams has found such a text.
#![tactic(auto)]

pub mod laws;
