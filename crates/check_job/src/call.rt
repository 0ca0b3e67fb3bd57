//! The call: read, length, text, ruling, write.
ghost use Rattle.std.specs.Prelude.{◌≡◌, ◌≤◌, IfOk};
ghost use Rattle.knot_ports.specs.Change.{source_change, sink_change};
ghost use Rattle.check_job.specs.Ending.{EndsCheck};
ghost use Rattle.check_job.specs.Ports.{IsWritten};
ghost use Rattle.check_job.specs.Delivered.{IsCheckReplyMade};

use crate::checking::answer;
use crate::ports::{read_input, write_text};
use knot_ports::{MAX_CERTIFICATE, Sink, Source, Status};
use reply_text::PlainReply;
use std::alloc::Global;

/// Reads the whole input from the source, rules on it, and writes the ruling to the sink.
///
/// An input of more than `MAX_CERTIFICATE` bytes ends in `Limit`, one with a bad line in `Malformed` or `Limit` by its first bad line. Every
/// other ends in `Done` if what it says of two diagrams or of a table was accepted, and is true, or in `Rejected` with the first cause. The whole
/// answer is made before the first write, so `ReadFault` and `OutOfMemory` write nothing; with `WriteFault` a prefix of the answer was written.
pub fn run<S: Source, K: Sink>(alloc: Global, source: &mut S, sink: &mut K) -> Status
    ensures ends { EndsCheck (source_change S.Source source.old source.new) (sink_change K.Sink sink.old sink.new) result }
    ensures reads { S.faults source.old ≤ S.faults source.new }
    ensures writes { K.faults sink.old ≤ K.faults sink.new }
{
    match answer_source(alloc, source) {
        Ok(reply) => deliver(sink, &reply),
        Err(status) => status,
    }
}

/// The reply to the input; the error is the status of a call that writes nothing.
fn answer_source<S: Source>(alloc: Global, source: &mut S) -> Result<PlainReply, Status>
    ensures made { IsCheckReplyMade (source_change S.Source source.old source.new) result }
    ensures count { S.faults source.old ≤ S.faults source.new }
{
    let reply = match read_input(alloc, source, MAX_CERTIFICATE)? {
        Some(bytes) => answer(alloc, bytes.as_slice()),
        None => PlainReply::too_long(alloc),
    };
    match reply {
        Ok(reply) => Ok(reply),
        Err(_) => Err(Status::OutOfMemory),
    }
}

/// Writes a reply: the status of the call.
fn deliver<K: Sink>(sink: &mut K, reply: &PlainReply) -> Status
    ensures written { IsWritten (sink_change K.Sink sink.old sink.new) reply.now.text reply.now.status result }
    ensures count { K.faults sink.old ≤ K.faults sink.new }
{
    write_text(sink, reply.text.as_slice(), reply.status)
}
