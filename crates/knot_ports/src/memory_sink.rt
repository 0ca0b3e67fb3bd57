//! A sink in memory, which fails at the listed calls and where it is full.
ghost use Rattle.std.specs.Prelude.{◌≡◌, ◌<◌, ◌≤◌, ◌↔◌, ◌++◌, [], Some, length, take, IfOk, OnErr, IsErr};
ghost use Rattle.std.specs.Io.KnownBytes.{Keeps, Appends};
ghost use Rattle.knot_ports.specs.Faults.{Rose};
ghost use Rattle.knot_ports.specs.Memory.{MemorySink, FailsAt, after_pass, after_failure, no_calls, amount_taken};

use crate::calls::Calls;
use crate::failure::Failed;
use crate::sink::Sink;
use memory_core::OutOfMemory;
use std::alloc::Global;
use std::marker::Model;

/// Keeps what it is given as far as it has room, and fails at the listed calls. Contracts know what it holds.
#[derive(Drop)]
pub struct MemSink {
    bytes: Vec<u8>,
    piece: usize,
    room: usize,
    calls: Calls,
}

impl Model for MemSink {
    ghost use Rattle.std.specs.Prelude.{◌≤◌, vec_len, vec_capacity};
    ghost use Rattle.knot_ports.specs.Memory.{MemorySink};

    ghost Value = { MemorySink };

    ghost view = { λ s. record { bytes = s.bytes.items; piece = s.piece; room = s.room; calls = s.calls } };

    ghost invariant = { λ s. (s.room ≤ vec_capacity s.bytes) × (vec_len s.bytes ≤ s.room) × (1 ≤ s.piece) };
}

impl MemSink {
    /// An empty sink, with memory for `room` bytes: it takes none later. Calls are numbered from 0, and those whose
    /// number is in `failing` fail. A call after number 2^64 - 2 has no number and isn't listed.
    pub fn new(
        alloc: Global,
        piece: usize,
        room: usize,
        failing: Vec<u64>,
    ) -> Result<MemSink, OutOfMemory>
        requires { 1 ≤ piece }
        ensures { IfOk result (λ s. s ≡ record { bytes = []; piece = piece; room = room; calls = no_calls failing.items }) }
    {
        let bytes = Vec::with_capacity(alloc, room)?;
        Ok(MemSink {
            bytes,
            piece,
            room,
            calls: Calls::new(failing),
        })
    }

    /// The bytes that are held.
    pub fn bytes(&self) -> &[u8]
        ensures { result.now ≡ self.now.bytes }
    {
        self.bytes.as_slice()
    }
}

impl Sink for MemSink {
    ghost held = { λ s. Some s.bytes };

    ghost faults = { λ s. s.calls.failed };

    /// Takes as many bytes as piece, bytes offered and room left allow. It fails at the listed calls, and where there
    /// are bytes and no room is left.
    fn give(&mut self, piece: &[u8]) -> Result<usize, Failed>
        ensures within { IfOk result (λ n. n ≤ length piece.now) }
        ensures bytes { IfOk result (λ n. Appends (Some self.old.bytes) (Some self.new.bytes) (take n piece.now)) }
        ensures none { IfOk result (λ n. n ≡ 0 → 0 < length piece.now → Rose self.old.calls.failed self.new.calls.failed) }
        ensures failed { OnErr result (Rose self.old.calls.failed self.new.calls.failed) }
        ensures kept { OnErr result (Keeps (Some self.old.bytes) (Some self.new.bytes)) }
        ensures count { self.old.calls.failed ≤ self.new.calls.failed }

        // Beside what each sink promises: when it fails, how many bytes it takes, and what it is afterwards.
        ensures refused { IsErr result ↔ FailsAt self.old (length piece.now) }
        ensures least { IfOk result (λ n. n ≡ amount_taken self.old (length piece.now)) }
        ensures ok { IfOk result (λ n.
            self.new ≡ record self.old { bytes = self.old.bytes ++ take n piece.now; calls = after_pass self.old.calls }) }
        ensures err { OnErr result (self.new ≡ record self.old { calls = after_failure self.old.calls }) }
    {
        if self.calls.next_fails() {
            return Err(Failed);
        }
        let left = self.room - self.bytes.len();
        let count = self.piece.min(piece.len()).min(left);
        if count == 0 && !piece.is_empty() {
            self.calls.count_failure();
            return Err(Failed);
        }
        let (front, _) = piece.split_at(count);
        self.bytes.extend_from_slice(front).unwrap();
        Ok(count)
    }
}
