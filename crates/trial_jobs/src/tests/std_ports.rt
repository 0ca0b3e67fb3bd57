//! Ports of streams: what their calls return, the last error, and the first bytes of what was written.
use knot_ports::{Failed, Sink, Source, StdSink, StdSource};
use std::io;
use std::io::{Read, Write};
use std::test::Fail;

/// At each call it gives the next byte of its script, or an error where there is none.
#[derive(Drop)]
struct ScriptReader {
    script: [Option<u8>; 4],
    call: usize,
}

impl Read for ScriptReader {
    fn read(&mut self, buf: &mut [u8]) -> io::Result<usize> {
        if self.call >= 4 || buf.is_empty() {
            return Ok(0);
        }
        self.call += 1;
        match self.script[self.call - 1] {
            Some(byte) => {
                buf[0] = byte;
                Ok(1)
            }
            None => Err(io::Error::from(io::ErrorKind::Other)),
        }
    }
}

/// At each call it takes as many bytes as its script says, or answers an error where it says nothing.
#[derive(Drop)]
struct ScriptWriter {
    script: [Option<usize>; 5],
    call: usize,
}

impl Write for ScriptWriter {
    fn write(&mut self, buf: &[u8]) -> io::Result<usize> {
        if self.call >= 5 {
            return Ok(0);
        }
        self.call += 1;
        match self.script[self.call - 1] {
            Some(most) => { Ok(most.min(buf.len())) }
            None => Err(io::Error::from(io::ErrorKind::Other)),
        }
    }

    fn flush(&mut self) -> io::Result<()> {
        Ok(())
    }
}

#[test]
fn std_source_passes_reads_on(rt: HostRuntime) -> Result<(), Fail> {
    let script = [Some(7), None, Some(9), None];
    let mut source = StdSource::new(ScriptReader { script, call: 0 });
    let expected = [
        (Ok(1), 7),
        (Err(Failed), 0),
        (Ok(1), 9),
        (Err(Failed), 0),
        (Ok(0), 0),
    ];
    for (answer, byte) in expected {
        let mut room = [0; 3];
        assert_eq!(rt; source.take(&mut room), answer);
        assert_eq!(rt; room, [byte, 0, 0]);
    }
    assert!(rt; source.error().is_some());
    assert!(rt; source.into_error().is_some());
    Ok(())
}

/// It gives what it has, as many bytes a call as there is room for.
#[derive(Drop)]
struct WholeReader<'a> {
    left: &'a [u8],
}

impl<'a> Read for WholeReader<'a> {
    fn read(&mut self, buf: &mut [u8]) -> io::Result<usize> {
        let count = self.left.len().min(buf.len());
        let (front, behind) = self.left.split_at(count);
        buf[..count].copy_from_slice(front);
        self.left = behind;
        Ok(count)
    }
}

#[test]
fn std_source_passes_on_all_bytes_of_a_read(rt: HostRuntime) -> Result<(), Fail> {
    let mut source = StdSource::new(WholeReader { left: b"abcdefg" });
    let expected: [(usize, [u8; 4]); 3] = [
        (4, [b'a', b'b', b'c', b'd']),
        (3, [b'e', b'f', b'g', 0]),
        (0, [0; 4]),
    ];
    for (count, bytes) in expected {
        let mut room = [0; 4];
        assert_eq!(rt; source.take(&mut room), Ok(count));
        assert_eq!(rt; room, bytes);
    }
    assert!(rt; source.into_error().is_none());
    Ok(())
}

#[test]
fn std_sink_passes_writes_on(rt: HostRuntime) -> Result<(), Fail> {
    let script = [Some(2), Some(0), None, Some(9), Some(9)];
    let mut sink = StdSink::new(ScriptWriter { script, call: 0 });
    // An empty answer is an error too.
    let pieces: [(&[u8], Result<usize, Failed>); 5] = [
        (b"abcd", Ok(2)),
        (b"cd", Err(Failed)),
        (b"cd", Err(Failed)),
        (b"cd", Ok(2)),
        (b"", Ok(0)),
    ];
    for (piece, answer) in pieces {
        assert_eq!(rt; sink.give(piece), answer);
    }
    assert_eq!(rt; sink.front(), b"abcd".as_slice());
    assert!(rt; sink.error().is_some());
    Ok(())
}
