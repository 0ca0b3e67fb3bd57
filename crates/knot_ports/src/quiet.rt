//! A source and a sink that never fail.
ghost use Rattle.std.specs.Prelude.{◌≡◌, ◌≤◌, ◌<◌, Some, None, length, take, drop, min, IsOk, IfOk, OnErr};
ghost use Rattle.std.specs.Io.KnownBytes.{Keeps, Appends, Consumes, IsAtEnd};
ghost use Rattle.knot_ports.specs.Faults.{Rose};

use crate::failure::Failed;
use crate::memory_source::fill_front;
use crate::sink::Sink;
use crate::source::Source;
use std::marker::Model;

/// Gives bytes that contracts know, and never fails: its count of faults is the constant 0.
#[derive(Drop)]
pub struct QuietSource {
    bytes: Vec<u8>,
    at: usize,
}

impl Model for QuietSource {
    ghost use Rattle.std.specs.Prelude.{◌≤◌, ℕ, List, drop, length};

    ghost Value = { List ℕ };

    ghost view = { λ s. drop s.at s.bytes.items };

    ghost invariant = { λ s. s.at ≤ length s.bytes.items };
}

impl QuietSource {
    /// A source of these bytes.
    pub fn new(bytes: Vec<u8>) -> QuietSource
        ensures { result ≡ bytes.items }
    {
        QuietSource { bytes, at: 0 }
    }
}

impl Source for QuietSource {
    ghost left = { λ s. Some s };

    ghost faults = { λ s. 0 };

    /// Gives as many bytes as the room and the bytes left allow.
    fn take(&mut self, room: &mut [u8]) -> Result<usize, Failed>
        ensures within { IfOk result (λ n. n ≤ length room.old) }
        ensures bytes { IfOk result (λ n. Consumes (Some self.old) (Some self.new) (take n room.new)) }
        ensures end { IfOk result (λ n. n ≡ 0 → 0 < length room.old → IsAtEnd (Some self.new)) }
        ensures failed { OnErr result (Rose 0 0) }
        ensures kept { OnErr result (Keeps (Some self.old) (Some self.new)) }
        ensures count { 0 ≤ 0 }

        // Beside what each source promises: it never fails, and gives as much as there is room for.
        ensures never { IsOk result }
        ensures least { IfOk result (λ n. n ≡ min (length room.old) (length self.old)) }
    {
        let (_, rest) = self.bytes.split_at(self.at);
        let count = room.len().min(rest.len());
        fill_front(room, rest, count);
        self.at += count;
        Ok(count)
    }
}

/// Takes every piece whole, keeps nothing that contracts know, and never fails: its count of faults is the constant 0.
#[derive(Clone, Copy, Debug)]
pub struct QuietSink;

impl QuietSink {
    /// A sink.
    pub fn new() -> QuietSink
        ensures { ⟦<QuietSink as Sink>⟧.faults result ≡ 0 }
    {
        QuietSink
    }
}

impl Sink for QuietSink {
    ghost held = { λ s. None };

    ghost faults = { λ s. 0 };

    /// Takes the whole piece.
    fn give(&mut self, piece: &[u8]) -> Result<usize, Failed>
        ensures within { IfOk result (λ n. n ≤ length piece.now) }
        ensures bytes { IfOk result (λ n. Appends None None (take n piece.now)) }
        ensures none { IfOk result (λ n. n ≡ 0 → 0 < length piece.now → Rose 0 0) }
        ensures failed { OnErr result (Rose 0 0) }
        ensures kept { OnErr result (Keeps None None) }
        ensures count { 0 ≤ 0 }

        // Beside what each sink promises: it never fails, and takes all bytes.
        ensures never { IsOk result }
        ensures whole { IfOk result (λ n. n ≡ length piece.now) }
    {
        Ok(piece.len())
    }
}
