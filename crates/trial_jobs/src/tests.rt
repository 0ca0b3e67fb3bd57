//! Whole calls, a file for each thing that no program shows.
mod faults;
mod files;
mod gate;
mod lines;
mod std_ports;
mod told;
mod uncalled;
mod workers;
mod writes;

use crate::tests::gate::Meeting;
use crate::tests::lines::words_of;
use knot_jobs::{Ports, run};
use knot_ports::{MemSink, MemSource, Status};
use search_book::End;
use search_pool::Finding;
use std::alloc::Global;
use std::sync::Wait;
use std::test::Fail;
use std::thread::Threads;

/// The left trefoil and the right one.
const TREFOILS: &[u8] = b"x 0 1 2 3 4\no 2 3 4 0 1\nx 4 3 2 1 0\no 2 1 0 4 3\n";

/// The status of a call. The search that it kept is left behind.
fn call<R: Threads + Wait + Sync>(
    rt: &R,
    alloc: Global,
    line: &str,
    input: &[u8],
    gate: &Meeting,
    kept: &mut Option<Finding>,
) -> Result<Status, Fail> {
    let words = words_of(alloc, line)?;
    let mut ports = Ports {
        source: MemSource::new(Vec::from_slice(alloc, input)?, 4096, Vec::new(alloc)),
        sink: MemSink::new(alloc, 4096, 4096, Vec::new(alloc)).map_err(|_| "no memory")?,
        kept: kept.take(),
        input: Vec::new(alloc),
    };
    let status = run(rt, alloc, words.as_slice(), &mut ports, gate);
    *kept = ports.kept;
    Ok(status)
}

/// Whether every entry of a search was settled, and its sides did not meet.
fn is_exhausted(finding: &Finding) -> bool {
    matches!(finding.book.end(), Some(End::Exhausted))
}
