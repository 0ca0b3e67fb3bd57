//! All bytes given to a sink.
ghost use Rattle.std.specs.Prelude.{◌≡◌, ◌≤◌, [], OnOk, OnErr, IsOk};
ghost use Rattle.std.specs.Io.KnownBytes.{Appends};
ghost use Rattle.knot_ports.specs.Faults.{Rose};
ghost use Rattle.knot_ports.specs.Sink.{AppendsFront};

use crate::failure::Failed;
use crate::sink::Sink;

/// Gives all bytes to the sink, offering the whole rest in each call. Of no bytes it makes no call.
///
/// `Failed` comes only where the sink's count of faults rose in this call, or has reached its last value. Then the
/// first few bytes were appended, and not all. A call that takes nothing of the rest is such a fault.
pub fn give_all<K: Sink>(sink: &mut K, bytes: &[u8]) -> Result<(), Failed>
    ensures whole { OnOk result (Appends (K.held sink.old) (K.held sink.new) bytes.now) }
    ensures failed { OnErr result (Rose (K.faults sink.old) (K.faults sink.new)) }
    ensures front { OnErr result (AppendsFront (K.held sink.old) (K.held sink.new) bytes.now) }
    ensures count { K.faults sink.old ≤ K.faults sink.new }
    ensures empty { bytes.now ≡ [] → IsOk result × (sink.new ≡ sink.old) }
{
    let mut done = 0;
    while done < bytes.len() {
        let (_, rest) = bytes.split_at(done);
        let count = sink.give(rest)?;
        if count == 0 {
            return Err(Failed);
        }
        done += count;
    }
    Ok(())
}
