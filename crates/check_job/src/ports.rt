//! A whole input read and a text written, each with the status with which it ends a call.
ghost use Rattle.std.specs.Prelude.{◌<◌, ◌≤◌};
ghost use Rattle.knot_ports.specs.Change.{source_change, sink_change};
ghost use Rattle.check_job.specs.Ports.{IsReadWithin, IsWritten};

use knot_ports::{ReadEnd, Sink, Source, Status, give_all, read_all};
use std::alloc::Global;

/// The bytes that the source gives; None where there are more than `limit`. The error is the status of a call that can't read them:
/// `ReadFault` where the source failed, `OutOfMemory` where there was no memory for the bytes. The bytes that came are then gone from the source.
pub fn read_input<S: Source>(
    alloc: Global,
    source: &mut S,
    limit: usize,
) -> Result<Option<Vec<u8>>, Status>
    requires { limit < usize.MAX }
    ensures read { IsReadWithin limit (source_change S.Source source.old source.new) result }
    ensures count { S.faults source.old ≤ S.faults source.new }
{
    match read_all(alloc, source, limit) {
        Ok(bytes) => Ok(Some(bytes)),
        Err(ReadEnd::TooLong) => Ok(None),
        Err(ReadEnd::Fault) => Err(Status::ReadFault),
        Err(ReadEnd::OutOfMemory) => Err(Status::OutOfMemory),
    }
}

/// Writes a text, and returns its own status, or `WriteFault` if the sink failed and has a prefix of the text.
pub fn write_text<K: Sink>(sink: &mut K, text: &[u8], own: Status) -> Status
    ensures written { IsWritten (sink_change K.Sink sink.old sink.new) text.now own result }
    ensures count { K.faults sink.old ≤ K.faults sink.new }
{
    match give_all(sink, text) {
        Ok(()) => own,
        Err(_) => Status::WriteFault,
    }
}
