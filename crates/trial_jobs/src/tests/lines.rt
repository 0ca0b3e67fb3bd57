//! Calls with the words of a line, over a source and a sink in memory.
use knot_jobs::{Ports, run_alone};
use knot_ports::{MemSink, MemSource, Status};
use std::alloc::{AllocError, Global};
use std::test::Fail;

/// Which calls of a source and a sink fail, and how many bytes the sink has room for.
#[derive(Clone, Copy)]
pub(crate) struct Outside<'a> {
    pub(crate) reading: &'a [u64],
    pub(crate) writing: &'a [u64],
    pub(crate) room: usize,
}

/// The words of a line, parted by spaces.
pub(crate) fn words_of(alloc: Global, line: &str) -> Result<Vec<String>, AllocError> {
    let mut all = Vec::new(alloc);
    for word in line.split(' ') {
        all.push(String::from_str(alloc, word)?)?;
    }
    Ok(all)
}

/// The status and the written bytes of a call that reads in pieces of 4 bytes and writes in pieces of 3.
pub(crate) fn run_line(
    alloc: Global,
    line: &str,
    input: &[u8],
    outside: &Outside,
) -> Result<(Status, Vec<u8>), Fail> {
    let words = words_of(alloc, line)?;
    let reading = Vec::from_slice(alloc, outside.reading)?;
    let writing = Vec::from_slice(alloc, outside.writing)?;
    let mut ports = Ports {
        source: MemSource::new(Vec::from_slice(alloc, input)?, 4, reading),
        sink: MemSink::new(alloc, 3, outside.room, writing).map_err(|_| "no memory")?,
        kept: None,
        input: Vec::new(alloc),
    };
    let status = run_alone(alloc, words.as_slice(), &mut ports);
    let written = Vec::from_slice(alloc, ports.sink.bytes())?;
    Ok((status, written))
}
