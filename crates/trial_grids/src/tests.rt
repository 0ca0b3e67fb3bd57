//! A file a crate.
mod moves;
mod shorter;
mod torus;
mod walks;
