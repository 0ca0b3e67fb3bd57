//! What is said of streams that fail in the middle, and of a bad line, for which the input must be kept.
use crate::tests::lines::words_of;
use knot_jobs::{Ports, Status, run_alone};
use knot_ports::{StdSink, StdSource};
use knot_tells::sentence_of;
use std::alloc::Global;
use std::io;
use std::io::{Read, Write};
use std::test::Fail;

/// A reader of bytes, which fails after them if it is to.
#[derive(Drop)]
struct Bytes<'a> {
    left: &'a [u8],
    fails: bool,
}

impl<'a> Read for Bytes<'a> {
    fn read(&mut self, buf: &mut [u8]) -> io::Result<usize> {
        if self.left.is_empty() && self.fails {
            return Err(io::Error::from(io::ErrorKind::PermissionDenied));
        }
        let count = self.left.len().min(buf.len());
        let (front, behind) = self.left.split_at(count);
        buf[..count].copy_from_slice(front);
        self.left = behind;
        Ok(count)
    }
}

/// A writer that takes so many bytes, and then fails.
#[derive(Drop)]
struct Room {
    left: usize,
}

impl Write for Room {
    fn write(&mut self, buf: &[u8]) -> io::Result<usize> {
        let count = self.left.min(buf.len());
        if count == 0 && !buf.is_empty() {
            return Err(io::Error::from(io::ErrorKind::StorageFull));
        }
        self.left -= count;
        Ok(count)
    }

    fn flush(&mut self) -> io::Result<()> {
        Ok(())
    }
}

/// The status of a call of `code`.
fn code(alloc: Global, ports: &mut Ports<StdSource<Bytes>, StdSink<Room>>) -> Result<Status, Fail> {
    let words = words_of(alloc, "knot code")?;
    Ok(run_alone(alloc, words.as_slice(), ports))
}

/// What is said of a call with the words of a line that ended with a status; nothing, where nothing is.
fn said<'a>(
    rt: &HostRuntime,
    line: &str,
    status: Status,
    source: &'a StdSource<Bytes>,
    input: &'a [u8],
    sink: &'a StdSink<Room>,
) -> Result<String, Fail> {
    let alloc = rt.alloc();
    let words = words_of(alloc, line)?;
    match sentence_of(rt, alloc, words.as_slice(), status, source, input, sink) {
        Some(sentence) => Ok(format!(in alloc; "{sentence}")?),
        None => Ok(String::new(alloc)),
    }
}

/// Whether a call of `code` over this reader, with so much room to write, ends with a status, and its sentence begins with these words.
fn ends(
    rt: &HostRuntime,
    reader: Bytes,
    room: usize,
    status: Status,
    words: &str,
) -> Result<bool, Fail> {
    let alloc = rt.alloc();
    let mut ports = Ports {
        source: StdSource::new(reader),
        sink: StdSink::new(Room { left: room }),
        kept: None,
        input: Vec::new(alloc),
    };
    let ended = code(alloc, &mut ports)?;
    let said = said(
        rt,
        "knot code",
        ended,
        &ports.source,
        ports.input.as_slice(),
        &ports.sink,
    )?;
    Ok(ended == status && said.as_str().starts_with(words))
}

#[test]
fn faults_of_streams_are_told(rt: HostRuntime) -> Result<(), Fail> {
    let reader = Bytes {
        left: b"x 0 1\n",
        fails: true,
    };
    let words = "standard input can't be read: ";
    assert!(rt; ends(&rt, reader, 100, Status::ReadFault, words)?);
    let reader = Bytes {
        left: b"x 0 1\no 1 0\n",
        fails: false,
    };
    let words = "standard output can't be written: ";
    assert!(rt; ends(&rt, reader, 10, Status::WriteFault, words)?);
    Ok(())
}

#[test]
fn a_bad_line_is_told_from_the_input_that_is_left(rt: HostRuntime) -> Result<(), Fail> {
    let reader = Bytes {
        left: b"x 0 1\no 1 7\n",
        fails: false,
    };
    let words = "line 2: 7 is not a row of a diagram of 2 columns";
    assert!(rt; ends(&rt, reader, 100, Status::Malformed, words)?);
    Ok(())
}
