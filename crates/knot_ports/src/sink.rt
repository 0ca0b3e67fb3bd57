//! Where bytes go.
ghost use Rattle.std.specs.Prelude.{◌≡◌, ◌<◌, ◌≤◌, ℕ, List, Option, length, take, IfOk, OnErr};
ghost use Rattle.std.specs.Io.KnownBytes.{Keeps, Appends};
ghost use Rattle.knot_ports.specs.Faults.{Rose};

use crate::failure::Failed;

/// Takes bytes and appends them to those that it holds, in pieces of its choice.
pub trait Sink {
    /// The bytes that are held, or `None` where a contract can't know them.
    ghost held: { Self → Option (List ℕ) };

    /// How many faults were counted. A count never falls, and stays at 2^64 - 1.
    ghost faults: { Self → ℕ };

    /// Appends the first bytes of `piece`, and answers how many they are: 0 of a piece that isn't empty is a fault.
    ///
    /// A fault comes only where the count of faults rose, or has reached its last value, and then nothing was appended.
    fn give(&mut self, piece: &[u8]) -> Result<usize, Failed>
        ensures within { IfOk result (λ n. n ≤ length piece.now) }
        ensures bytes { IfOk result (λ n. Appends (held self.old) (held self.new) (take n piece.now)) }
        ensures none { IfOk result (λ n. n ≡ 0 → 0 < length piece.now → Rose (faults self.old) (faults self.new)) }
        ensures failed { OnErr result (Rose (faults self.old) (faults self.new)) }
        ensures kept { OnErr result (Keeps (held self.old) (held self.new)) }
        ensures count { faults self.old ≤ faults self.new };
}
