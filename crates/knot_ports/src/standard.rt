//! The edge: std's readers and writers, whose bytes contracts know as far as std specifies them. Nothing is proved of what they keep for messages.
ghost use Rattle.std.specs.Prelude.{◌≡◌, ◌<◌, ◌≤◌, length, take, IfOk, OnOk, OnErr};
ghost use Rattle.std.specs.Io.KnownBytes.{Keeps, Appends, Consumes, IsAtEnd};
ghost use Rattle.knot_ports.specs.Faults.{Rose, one_more};
ghost use Rattle.knot_ports.specs.Standard.{uncounted};

use crate::failure::Failed;
use crate::sink::Sink;
use crate::source::Source;
use arrayvec::ArrayVec;
use std::io;
use std::io::{Read, Write};
use std::marker::Model;

/// How many bytes of what is written a sink keeps: the line that names a bad line is no longer.
const SHORT: usize = 40;

/// A source over a reader, whose bytes are those that remain in the reader, where std specifies them. It counts the reader's errors, and keeps
/// the last one, so that it can be reported. A contract sees it as the reader and the count.
#[derive(Drop)]
pub struct StdSource<R> {
    reader: R,
    error: Option<io::Error>,
    errors: u64,
}

impl<R> Model for StdSource<R> {
    ghost use Rattle.knot_ports.specs.Standard.{Counted};

    ghost Value = { Counted R };

    ghost view = { λ s. record { port = s.reader; errors = s.errors } };
}

impl<R: Read + Drop> StdSource<R> {
    /// A source over this reader, with no error counted.
    pub fn new(reader: R) -> StdSource<R>
        ensures { result ≡ uncounted reader }
    {
        StdSource {
            reader,
            error: None,
            errors: 0,
        }
    }

    /// The last error.
    pub fn error(&self) -> Option<&io::Error> {
        self.error.as_ref()
    }

    /// The last error, given away.
    pub fn into_error(self) -> Option<io::Error> {
        self.error
    }
}

impl<R: Read + Drop> Source for StdSource<R> {
    ghost left = { λ s. R.remaining s.port };

    ghost faults = { λ s. s.errors };

    /// Reads once. An error is counted.
    fn take(&mut self, room: &mut [u8]) -> Result<usize, Failed>
        ensures within { IfOk result (λ n. n ≤ length room.old) }
        ensures bytes { IfOk result (λ n. Consumes (R.remaining self.old.port) (R.remaining self.new.port) (take n room.new)) }
        ensures end { IfOk result (λ n. n ≡ 0 → 0 < length room.old → IsAtEnd (R.remaining self.new.port)) }
        ensures failed { OnErr result (Rose self.old.errors self.new.errors) }
        ensures kept { OnErr result (Keeps (R.remaining self.old.port) (R.remaining self.new.port)) }
        ensures count { self.old.errors ≤ self.new.errors }

        // Beside what each source promises: the count rises by one at each error, and only there.
        ensures ok { OnOk result (self.new.errors ≡ self.old.errors) }
        ensures err { OnErr result (self.new.errors ≡ one_more self.old.errors) }
    {
        match self.reader.read(room) {
            Ok(count) => Ok(count),
            Err(error) => {
                self.error = Some(error);
                self.errors = self.errors.saturating_add(1);
                Err(Failed)
            }
        }
    }
}

/// A sink over a writer, whose bytes are the contents of the writer, where std specifies them. It counts the writer's errors and its empty
/// writes, and keeps the last error and the first bytes. A contract sees it as the writer and the count.
#[derive(Drop)]
pub struct StdSink<W> {
    writer: W,
    error: Option<io::Error>,
    errors: u64,
    front: ArrayVec<u8, SHORT>,
}

impl<W> Model for StdSink<W> {
    ghost use Rattle.knot_ports.specs.Standard.{Counted};

    ghost Value = { Counted W };

    ghost view = { λ s. record { port = s.writer; errors = s.errors } };
}

impl<W: Write + Drop> StdSink<W> {
    /// A sink over this writer, with no error counted.
    pub fn new(writer: W) -> StdSink<W>
        ensures { result ≡ uncounted writer }
    {
        StdSink {
            writer,
            error: None,
            errors: 0,
            front: ArrayVec::new(),
        }
    }

    /// The error of the last fault; an empty write has none.
    pub fn error(&self) -> Option<&io::Error> {
        self.error.as_ref()
    }

    /// The error of the last fault, given away: it is kept no longer.
    pub fn take_error(&mut self) -> Option<io::Error>
        ensures { self.new ≡ self.old }
    {
        self.error.take()
    }

    /// The first bytes that were written, 40 at most.
    pub fn front(&self) -> &[u8] {
        self.front.as_slice()
    }

    /// Keeps bytes, as far as there is room.
    fn keep(&mut self, piece: &[u8])
        ensures { self.new ≡ self.old }
    {
        let left = SHORT.saturating_sub(self.front.len());
        let (kept, _) = piece.split_at(left.min(piece.len()));
        let _fits = self.front.try_extend_from_slice(kept);
    }
}

impl<W: Write + Drop> Sink for StdSink<W> {
    ghost held = { λ s. W.contents s.port };

    ghost faults = { λ s. s.errors };

    /// Writes once. An error is counted and fails, and so does a write that took nothing of a piece that isn't empty.
    fn give(&mut self, piece: &[u8]) -> Result<usize, Failed>
        ensures within { IfOk result (λ n. n ≤ length piece.now) }
        ensures bytes { IfOk result (λ n. Appends (W.contents self.old.port) (W.contents self.new.port) (take n piece.now)) }
        ensures none { IfOk result (λ n. n ≡ 0 → 0 < length piece.now → Rose self.old.errors self.new.errors) }
        ensures failed { OnErr result (Rose self.old.errors self.new.errors) }
        ensures kept { OnErr result (Keeps (W.contents self.old.port) (W.contents self.new.port)) }
        ensures count { self.old.errors ≤ self.new.errors }

        // Beside what each sink promises: the count rises by one at each error, and only there. An empty write is one.
        ensures some { IfOk result (λ n. 0 < length piece.now → 0 < n) }
        ensures ok { OnOk result (self.new.errors ≡ self.old.errors) }
        ensures err { OnErr result (self.new.errors ≡ one_more self.old.errors) }
    {
        let written = self.writer.write(piece);
        match written {
            Ok(count) if count > 0 || piece.is_empty() => {
                let (taken, _) = piece.split_at(count);
                self.keep(taken);
                Ok(count)
            }
            other => {
                self.error = other.err();
                self.errors = self.errors.saturating_add(1);
                Err(Failed)
            }
        }
    }
}
