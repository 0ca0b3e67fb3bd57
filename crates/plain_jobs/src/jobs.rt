//! What each job answers to its input: a file a job.
pub(crate) mod braid;
pub(crate) mod braidcheck;
pub(crate) mod close;
pub(crate) mod code;
pub(crate) mod colour;
pub(crate) mod grid;
pub(crate) mod linking;
pub(crate) mod numbers;
pub(crate) mod replay;
pub(crate) mod weights;
