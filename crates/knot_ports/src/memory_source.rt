//! A source in memory, which fails at the listed calls.
ghost use Rattle.std.specs.Prelude.{◌≡◌, ◌<◌, ◌≤◌, ◌↔◌, Some, length, take, drop, IfOk, OnErr, IsErr};
ghost use Rattle.std.specs.Io.KnownBytes.{Keeps, Consumes, IsAtEnd};
ghost use Rattle.knot_ports.specs.Faults.{Rose};
ghost use Rattle.knot_ports.specs.Memory.{MemorySource, FailsNext, after_pass, after_failure, no_calls, amount_given};

use crate::calls::Calls;
use crate::failure::Failed;
use crate::source::Source;
use std::marker::Model;

/// Gives its bytes in pieces of one size, and fails at the listed calls. Contracts know what is left.
#[derive(Drop)]
pub struct MemSource {
    bytes: Vec<u8>,
    at: usize,
    piece: usize,
    calls: Calls,
}

impl Model for MemSource {
    ghost use Rattle.std.specs.Prelude.{◌≤◌, drop, length};
    ghost use Rattle.knot_ports.specs.Memory.{MemorySource};

    ghost Value = { MemorySource };

    ghost view = { λ s. record { bytes = drop s.at s.bytes.items; piece = s.piece; calls = s.calls } };

    ghost invariant = { λ s. (s.at ≤ length s.bytes.items) × (1 ≤ s.piece) };
}

impl MemSource {
    /// A source of these bytes. Calls are numbered from 0, and those whose number is in `failing` fail. A call after
    /// number 2^64 - 2 has no number and doesn't fail.
    pub fn new(bytes: Vec<u8>, piece: usize, failing: Vec<u64>) -> MemSource
        requires { 1 ≤ piece }
        ensures { result ≡ record { bytes = bytes.items; piece = piece; calls = no_calls failing.items } }
    {
        MemSource {
            bytes,
            at: 0,
            piece,
            calls: Calls::new(failing),
        }
    }
}

impl Source for MemSource {
    ghost left = { λ s. Some s.bytes };

    ghost faults = { λ s. s.calls.failed };

    /// Gives as many bytes as piece, room and bytes left allow, but at the listed calls, where it fails.
    fn take(&mut self, room: &mut [u8]) -> Result<usize, Failed>
        ensures within { IfOk result (λ n. n ≤ length room.old) }
        ensures bytes { IfOk result (λ n. Consumes (Some self.old.bytes) (Some self.new.bytes) (take n room.new)) }
        ensures end { IfOk result (λ n. n ≡ 0 → 0 < length room.old → IsAtEnd (Some self.new.bytes)) }
        ensures failed { OnErr result (Rose self.old.calls.failed self.new.calls.failed) }
        ensures kept { OnErr result (Keeps (Some self.old.bytes) (Some self.new.bytes)) }
        ensures count { self.old.calls.failed ≤ self.new.calls.failed }

        // Beside what each source promises: when it fails, how many bytes it gives, and what it is afterwards.
        ensures listed { IsErr result ↔ FailsNext self.old.calls }
        ensures least { IfOk result (λ n. n ≡ amount_given self.old (length room.old)) }
        ensures ok { IfOk result (λ n.
            self.new ≡ record self.old { bytes = drop n self.old.bytes; calls = after_pass self.old.calls }) }
        ensures err { OnErr result (self.new ≡ record self.old { calls = after_failure self.old.calls }) }
    {
        if self.calls.next_fails() {
            return Err(Failed);
        }
        let (_, rest) = self.bytes.split_at(self.at);
        let count = self.piece.min(room.len()).min(rest.len());
        fill_front(room, rest, count);
        self.at += count;
        Ok(count)
    }
}

/// Copies the first `count` bytes into the front of the room.
pub(crate) fn fill_front(room: &mut [u8], from: &[u8], count: usize)
    requires room { count ≤ length room.old }
    requires from { count ≤ length from.now }
    ensures { take count room.new ≡ take count from.now }
{
    room[..count].copy_from_slice(&from[..count]);
}
