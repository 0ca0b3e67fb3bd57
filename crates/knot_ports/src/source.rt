//! Where bytes come from.
ghost use Rattle.std.specs.Prelude.{◌≡◌, ◌<◌, ◌≤◌, ℕ, List, Option, length, take, IfOk, OnErr};
ghost use Rattle.std.specs.Io.KnownBytes.{Keeps, Consumes, IsAtEnd};
ghost use Rattle.knot_ports.specs.Faults.{Rose};

use crate::failure::Failed;

/// Gives bytes from front to end, in pieces of its choice.
pub trait Source {
    /// The bytes that are left, or `None` where a contract can't know them.
    ghost left: { Self → Option (List ℕ) };

    /// How many faults were counted. A count never falls, and stays at 2^64 - 1.
    ghost faults: { Self → ℕ };

    /// Writes the next bytes into the front of `room`, and answers how many they are: 0 in a room that isn't empty is
    /// the end of input. What the rest of the room holds afterwards isn't proved.
    ///
    /// `Failed` comes only where the count of faults rose, or has reached its last value, and then the same bytes are left.
    fn take(&mut self, room: &mut [u8]) -> Result<usize, Failed>
        ensures within { IfOk result (λ n. n ≤ length room.old) }
        ensures bytes { IfOk result (λ n. Consumes (left self.old) (left self.new) (take n room.new)) }
        ensures end { IfOk result (λ n. n ≡ 0 → 0 < length room.old → IsAtEnd (left self.new)) }
        ensures failed { OnErr result (Rose (faults self.old) (faults self.new)) }
        ensures kept { OnErr result (Keeps (left self.old) (left self.new)) }
        ensures count { faults self.old ≤ faults self.new };
}
