//! A sink in memory, of any length.
ghost use Rattle.std.specs.Prelude.{◌≡◌, ◌<◌, ◌≤◌, [], Some, length, take, IfOk, OnErr};
ghost use Rattle.std.specs.Io.KnownBytes.{Keeps, Appends};
ghost use Rattle.knot_ports.specs.Faults.{Rose};
ghost use Rattle.seek_parts.specs.Place.{nothing_held};

use knot_ports::{Failed, Sink};
use std::alloc::Global;
use std::marker::Model;

/// Holds all that it is given, and fails only if memory runs out. A contract sees it as its bytes and its count of faults.
#[derive(Drop)]
pub struct TextSink {
    bytes: Vec<u8>,
    faults: u64,
}

impl Model for TextSink {
    ghost use Rattle.seek_parts.specs.Place.{HeldText};

    ghost Value = { HeldText };

    ghost view = { λ s. record { bytes = s.bytes.items; faults = s.faults } };
}

impl TextSink {
    /// A sink that holds nothing.
    pub fn new(alloc: Global) -> TextSink
        ensures { result ≡ nothing_held }
    {
        TextSink {
            bytes: Vec::new(alloc),
            faults: 0,
        }
    }

    /// The bytes that are held.
    pub fn bytes(&self) -> &[u8]
        ensures { result.now ≡ self.now.bytes }
    {
        self.bytes.as_slice()
    }
}

impl Sink for TextSink {
    ghost held = { λ s. Some s.bytes };

    ghost faults = { λ s. s.faults };

    /// Takes the whole piece. If memory runs out, that is counted as a fault, and the call fails.
    fn give(&mut self, piece: &[u8]) -> Result<usize, Failed>
        ensures within { IfOk result (λ n. n ≤ length piece.now) }
        ensures bytes { IfOk result (λ n. Appends (Some self.old.bytes) (Some self.new.bytes) (take n piece.now)) }
        ensures none { IfOk result (λ n. n ≡ 0 → 0 < length piece.now → Rose self.old.faults self.new.faults) }
        ensures failed { OnErr result (Rose self.old.faults self.new.faults) }
        ensures kept { OnErr result (Keeps (Some self.old.bytes) (Some self.new.bytes)) }
        ensures count { self.old.faults ≤ self.new.faults }

        // Beside what each sink promises.
        ensures all { IfOk result (λ n. n ≡ length piece.now) }
    {
        match self.bytes.extend_from_slice(piece) {
            Ok(()) => Ok(piece.len()),
            Err(_) => {
                self.faults = self.faults.saturating_add(1);
                Err(Failed)
            }
        }
    }
}
