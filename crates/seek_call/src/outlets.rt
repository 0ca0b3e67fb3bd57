//! What a call is lent, and what it may change.

use knot_ports::StdSink;
use std::alloc::Global;

/// Where to a verdict may go: a file at one of all paths, or standard output, or what takes the place of these.
#[derive(Drop)]
pub struct Outlets<P, W> {
    pub places: P,
    pub output: StdSink<W>,
}

/// Which streams are a terminal.
#[derive(Clone, Copy)]
pub struct Terminals {
    /// Standard input.
    pub input: bool,
    /// Standard error.
    pub messages: bool,
}

/// What a call is lent besides files: `rt` has threads, standard error and the clock.
#[derive(Drop)]
pub(crate) struct Host<'a, R> {
    pub(crate) rt: &'a R,
    pub(crate) alloc: Global,
    pub(crate) terminals: Terminals,
}
