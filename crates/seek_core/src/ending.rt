//! The top call: the answer to an input, written.
ghost use Rattle.std.specs.Prelude.{◌≡◌, ◌<◌, ◌≤◌, ℕ, List, length};
ghost use Rattle.evidence_core.specs.declared.blocks.Block.{Block};
ghost use Rattle.seek_core.specs.declared.answer.Tried.{Tried};
ghost use Rattle.knot_ports.specs.Faults.{Rose};
ghost use Rattle.knot_ports.specs.declared.status.Status.TheVariants as status;
ghost use Rattle.seek_core.specs.declared.ending.Ending.TheVariants as ending;
ghost use Rattle.knot_ports.specs.declared.limits.TheConstants.{MAX_INPUT};
ghost use Rattle.seek_core.specs.Answers.{EndsRun, WritesDecision, BlocksTriedInVain, EndsTooLong, IsTrueAnswer, ending_status};
ghost use Rattle.seek_core.specs.Parts.{joined};

use crate::answer::{Answer, Tried, answer_to};
use crate::blocks::Blocks;
use crate::bounds::Resources;
use crate::parts::join_parts;
use knot_ports::{MAX_INPUT, Sink, Status, give_all};
use meeting_walks::Watch;
use memory_core::Items;
use std::thread::Threads;

/// How a call of `run` ended.
#[derive(Drop)]
pub enum Ending {
    /// The text of a verdict, or of evidence by numbers, was written.
    Done,
    /// Nothing was found.
    NotFound(Tried),
    /// The first bad line doesn't have the form of what is due there, or says what can't be, or follows the end.
    Malformed { line: usize },
    /// The first bad line exceeds a limit.
    Limit { line: usize },
    /// The input has more than `MAX_INPUT` bytes.
    TooLong,
    /// The sink failed.
    WriteFault,
    /// Memory ran out.
    OutOfMemory,
}

impl Ending {
    /// The exit status of the program, with the number of `knot`'s status of that name. `Unknown` means less here: that nothing was found.
    pub fn status(&self) -> Status
        ensures { result ≡ ending_status self.now }
    {
        match self {
            Ending::Done => Status::Done,
            Ending::NotFound(_) => Status::Unknown,
            Ending::Malformed { .. } => Status::Malformed,
            Ending::Limit { .. } | Ending::TooLong => Status::Limit,
            Ending::WriteFault => Status::WriteFault,
            Ending::OutOfMemory => Status::OutOfMemory,
        }
    }
}

/// Looks for what can be said of the two diagrams of an input, which comes in parts, and writes it to the sink: a verdict with its evidence, or
/// evidence by numbers.
///
/// If it ends with status 0, such a text was written, what it says of the two diagrams is true, and `check` accepts it after the input,
/// if both are within its limit of bytes. Otherwise nothing was written or, if the sink failed, a prefix of such a text: the whole text is made
/// before the first write. That anything is found is not proved; if nothing is, linking numbers agree, and neither the quandles nor the
/// blocks that fit distinguish the two. An input longer than `MAX_INPUT` is answered by `TooLong` or `OutOfMemory`, and `WriteFault` comes
/// only where the sink's count of faults rose, or has reached its last value.
pub fn run<R: Threads + Sync, K: Sink, W: Watch>(
    resources: &Resources<'_, R>,
    parts: &[Items<u8>],
    blocks: &Blocks,
    sink: &mut K,
    watch: &mut W,
) -> Ending
    ensures decides { ending_status result ≡ status.Done → WritesDecision (joined parts.now) (K.held sink.old) (K.held sink.new) }
    ensures ends { EndsRun (joined parts.now) (K.held sink.old) (K.held sink.new) result }
    ensures blocks { (tried : Tried) → result ≡ ending.NotFound tried → BlocksTriedInVain (joined parts.now) blocks.now tried }
    ensures long { MAX_INPUT < length (joined parts.now) → EndsTooLong result }
    ensures fault { result ≡ ending.WriteFault → Rose (K.faults sink.old) (K.faults sink.new) }
    ensures count { K.faults sink.old ≤ K.faults sink.new }
{
    match join_parts(resources.alloc, parts) {
        Ok(bytes) => run_whole(resources, bytes.as_slice(), blocks, sink, watch),
        Err(_) => Ending::OutOfMemory,
    }
}

/// Looks for what can be said of the diagrams of an input, given as one text, and writes it, as `run` does.
fn run_whole<R: Threads + Sync, K: Sink, W: Watch>(
    resources: &Resources<'_, R>,
    bytes: &[u8],
    blocks: &Blocks,
    sink: &mut K,
    watch: &mut W,
) -> Ending
    ensures ends { EndsRun bytes.now (K.held sink.old) (K.held sink.new) result }
    ensures blocks { (tried : Tried) → result ≡ ending.NotFound tried → BlocksTriedInVain bytes.now blocks.now tried }
    ensures long { MAX_INPUT < length bytes.now → EndsTooLong result }
    ensures fault { result ≡ ending.WriteFault → Rose (K.faults sink.old) (K.faults sink.new) }
    ensures count { K.faults sink.old ≤ K.faults sink.new }
{
    if bytes.len() > MAX_INPUT {
        return Ending::TooLong;
    }
    match answer_to(resources, bytes, blocks, watch) {
        Ok(answer) => deliver(answer, sink),
        Err(_) => Ending::OutOfMemory,
    }
}

/// Writes an answer, where it is a text, whatever input it answers.
fn deliver<K: Sink>(answer: Answer, sink: &mut K) -> Ending
    ensures ends { (bytes : List ℕ) (blocks : List Block) → IsTrueAnswer bytes blocks answer → EndsRun bytes (K.held sink.old) (K.held sink.new) result }
    ensures blocks { (bytes : List ℕ) (blocks : List Block) (tried : Tried) → IsTrueAnswer bytes blocks answer → result ≡ ending.NotFound tried
        → BlocksTriedInVain bytes blocks tried }
    ensures fault { result ≡ ending.WriteFault → Rose (K.faults sink.old) (K.faults sink.new) }
    ensures count { K.faults sink.old ≤ K.faults sink.new }
{
    match answer {
        Answer::Decided(text) => match give_all(sink, text.as_slice()) {
            Ok(()) => Ending::Done,
            Err(_) => Ending::WriteFault,
        },
        Answer::NotFound(tried) => Ending::NotFound(tried),
        Answer::Malformed { line } => Ending::Malformed { line },
        Answer::Limit { line } => Ending::Limit { line },
    }
}
