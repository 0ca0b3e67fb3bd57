//! The top call: words, read, length, text, job, write.
ghost use Rattle.std.specs.Prelude.{◌≡◌, ◌≤◌, None, Ok, IfOk, IfErr, IsErrOf, true};
ghost use Rattle.knot_words.specs.OptionNumbers.{texts_of};
ghost use Rattle.knot_words.specs.Words.{Asks, AsksNothing, IsWithinBounds};
ghost use Rattle.knot_words.specs.Limits.{limit_of};
ghost use Rattle.knot_ports.specs.Change.{source_change, sink_change};
ghost use Rattle.knot_jobs.specs.Call.{call_over, as_many_as_asked, only_one, with_workers};
ghost use Rattle.knot_jobs.specs.ReplyTruth.{Goes};
ghost use Rattle.knot_jobs.specs.Delivered.{IsRead, IsMadeOf, IsRefused, IsDelivered, IsEnded};

use crate::answer::{answer, answer_alone};
use crate::ports::Ports;
use check_job::{read_input, write_text};
use knot_ports::{Sink, Source, Status, give_all};
use knot_words::{Asked, Job, WordsFault, read_words};
use search_jobs::Reply;
use search_pool::{Finding, Gate};
use std::alloc::{AllocError, Global};
use std::sync::Wait;
use std::thread::Threads;

/// What is written where the words ask for nothing.
const USAGE: &[u8] = b"usage: knot JOB [--workers W] [--budget B] [--spare S] [--seed N]\n";

/// Does what the words ask for: reads the whole input from the source, answers it, and writes the answer to the sink.
///
/// The words are the program's name, which isn't looked at, a job (`decide`, `check`, `replay`, `colour`, `close`, `code`, `grid`,
/// `braid`, `linking`, `braidcheck`, `weights`, `numbers`, `simplify`, `least` or `sample`) and options. Other words end in `Usage`; then the
/// source is not called, and neither is it for `sample`. An input of more bytes than the job's limit (33,554,432 for `check`, else
/// 1,048,576) ends in `Limit`, one with a bad line in `Malformed` or `Limit` by its first bad line. Every other ends as the job
/// answers it: `Done`, `Unknown` where `decide` finds no evidence, `Rejected`, or `Limit` where `grid` has a code that no diagram of
/// at most `MAX_SIZE` columns was drawn for. The whole answer is made before the first write, so `ReadFault` and `OutOfMemory` write nothing;
/// with `WriteFault` a prefix of the answer was written. Faults come only where the source's or sink's own count of faults rose. Where
/// `decide` or `check` ends with `Done`, what the verdict, the evidence by numbers or the table says is true; where
/// `linking` or `weights` writes `different`, no list of moves joins the two; and where `braidcheck` ends with `Done`, no quandle
/// distinguishes the closures of the two braids by how many colourings they have.
///
/// Where `decide` searched, and its answer was written, the search is left in the ports' `kept`; else that is None. The bytes that were
/// answered are left in their `input`. `decide` searches with as many workers as the words ask for, which pass the gate between a claim and
/// its settlement; where they ask for one, it searches in the calling thread and passes no gate. All this holds however the workers
/// interleave, where the call returns: workers may wait for each other. What needs one worker is answered as by `run_alone`, which returns.
pub fn run<R: Threads + Wait + Sync, S: Source, K: Sink, G: Gate + Sync>(
    rt: &R,
    alloc: Global,
    words: &[String],
    ports: &mut Ports<S, K>,
    gate: &G,
) -> Status
    ensures goes { Goes (call_over S.Source K.Sink (texts_of words.now) as_many_as_asked ports.old ports.new) result ports.new.kept }
    ensures reads { S.faults ports.old.source ≤ S.faults ports.new.source }
    ensures writes { K.faults ports.old.sink ≤ K.faults ports.new.sink }
{
    ports.input = Vec::new(alloc);
    let asked = match begin(alloc, words, &mut ports.kept) {
        Ok(asked) => asked,
        Err(fault) => return refuse(&mut ports.sink, fault),
    };
    let reply = answer_source(rt, alloc, &asked, &mut ports.source, &mut ports.input, gate);
    end(&mut ports.sink, reply, &mut ports.kept)
}

/// Takes the words as if they asked for one worker, and does what `run` then does. It takes no runtime, waits for nobody, and
/// returns.
pub fn run_alone<S: Source, K: Sink>(
    alloc: Global,
    words: &[String],
    ports: &mut Ports<S, K>,
) -> Status
    ensures goes { Goes (call_over S.Source K.Sink (texts_of words.now) only_one ports.old ports.new) result ports.new.kept }
    ensures reads { S.faults ports.old.source ≤ S.faults ports.new.source }
    ensures writes { K.faults ports.old.sink ≤ K.faults ports.new.sink }
{
    ports.input = Vec::new(alloc);
    let asked = match begin(alloc, words, &mut ports.kept) {
        Ok(asked) => by_one_worker(asked),
        Err(fault) => return refuse(&mut ports.sink, fault),
    };
    let reply = answer_source_alone(alloc, &asked, &mut ports.source, &mut ports.input);
    end(&mut ports.sink, reply, &mut ports.kept)
}

/// Lets an earlier search go, and reads the words.
fn begin(alloc: Global, words: &[String], kept: &mut Option<Finding>) -> Result<Asked, WordsFault>
    ensures asked { IfOk result (λ asked. Asks (texts_of words.now) asked) }
    ensures bounds { IfOk result IsWithinBounds }
    ensures usage { IsErrOf result WordsFault.Usage → AsksNothing (texts_of words.now) }
    ensures none { kept.new ≡ None }
{
    *kept = None;
    read_words(alloc, words)
}

/// Writes the usage line where the words ask for nothing: the status of the call.
fn refuse<K: Sink>(sink: &mut K, fault: WordsFault) -> Status
    ensures refused { IsRefused fault (sink_change K.Sink sink.old sink.new) result }
    ensures count { K.faults sink.old ≤ K.faults sink.new }
{
    match fault {
        WordsFault::Usage => write_text(sink, USAGE, Status::Usage),
        WordsFault::OutOfMemory => Status::OutOfMemory,
    }
}

/// What is asked for, by one worker.
fn by_one_worker(asked: Asked) -> Asked
    requires bounds { IsWithinBounds asked }
    ensures asked { result ≡ with_workers only_one asked }
    ensures bounds { IsWithinBounds result }
    ensures one { result.workers ≡ 1 }
{
    Asked {
        workers: 1,
        ..asked
    }
}

/// The answer of the job that is asked for to all that the source gives, which becomes the input; the error is the status of a call that
/// writes nothing.
fn answer_source<R: Threads + Wait + Sync, S: Source, G: Gate + Sync>(
    rt: &R,
    alloc: Global,
    asked: &Asked,
    source: &mut S,
    input: &mut Vec<u8>,
    gate: &G,
) -> Result<Reply, Status>
    requires bounds { IsWithinBounds asked.now }
    ensures made { IsMadeOf asked.now (source_change S.Source source.old source.new) result }
    ensures count { S.faults source.old ≤ S.faults source.new }
{
    if needs_one(asked) {
        return answer_source_alone(alloc, asked, source, input);
    }
    let Some(bytes) = read_for(alloc, asked.job, source)? else {
        return or_no_memory(Reply::too_long(alloc));
    };
    let reply = answer(rt, alloc, asked, bytes.as_slice(), gate);
    *input = bytes;
    or_no_memory(reply)
}

/// Whether what is asked for needs one worker: any job but a `decide` with more of them.
fn needs_one(asked: &Asked) -> bool
    ensures { result ≡ true → asked.now.job ≡ Job.Decide → asked.now.workers ≡ 1 }
{
    match asked.job {
        Job::Decide => asked.workers == 1,
        _ => true,
    }
}

/// The answer of the job that is asked for, of `decide` with one worker, to all that the source gives, which becomes the input; the error
/// is the status of a call that writes nothing. It takes no runtime, waits for nobody, and returns.
fn answer_source_alone<S: Source>(
    alloc: Global,
    asked: &Asked,
    source: &mut S,
    input: &mut Vec<u8>,
) -> Result<Reply, Status>
    requires bounds { IsWithinBounds asked.now }
    requires one { asked.now.job ≡ Job.Decide → asked.now.workers ≡ 1 }
    ensures made { IsMadeOf asked.now (source_change S.Source source.old source.new) result }
    ensures count { S.faults source.old ≤ S.faults source.new }
{
    let Some(bytes) = read_for(alloc, asked.job, source)? else {
        return or_no_memory(Reply::too_long(alloc));
    };
    let reply = answer_alone(alloc, asked, bytes.as_slice());
    *input = bytes;
    or_no_memory(reply)
}

/// The bytes that the source gives for a job; None where there are more than its limit. Where the job has no input there are none,
/// and the source is not called. The error is the status of a call that can't read them.
fn read_for<S: Source>(alloc: Global, job: Job, source: &mut S) -> Result<Option<Vec<u8>>, Status>
    ensures read { IsRead (limit_of job) (source_change S.Source source.old source.new) result }
    ensures count { S.faults source.old ≤ S.faults source.new }
{
    match job.limit() {
        Some(limit) => read_input(alloc, source, limit),
        None => Ok(Some(Vec::new(alloc))),
    }
}

/// A reply that was made, or the status if memory ran out.
fn or_no_memory(reply: Result<Reply, AllocError>) -> Result<Reply, Status>
    ensures ok { IfOk result (λ made. reply ≡ Ok made) }
    ensures err { IfErr result (λ s. s ≡ Status.OutOfMemory) }
{
    match reply {
        Ok(reply) => Ok(reply),
        Err(_) => Err(Status::OutOfMemory),
    }
}

/// Writes the reply, if there is one: the status of the call.
fn end<K: Sink>(sink: &mut K, reply: Result<Reply, Status>, kept: &mut Option<Finding>) -> Status
    requires none { kept.old ≡ None }
    ensures ended { IsEnded (sink_change K.Sink sink.old sink.new) reply result kept.new }
    ensures count { K.faults sink.old ≤ K.faults sink.new }
{
    match reply {
        Ok(reply) => deliver(sink, reply, kept),
        Err(status) => status,
    }
}

/// Writes a reply, and keeps its search where all was written: the status of the call.
fn deliver<K: Sink>(sink: &mut K, reply: Reply, kept: &mut Option<Finding>) -> Status
    requires none { kept.old ≡ None }
    ensures delivered { IsDelivered (sink_change K.Sink sink.old sink.new) reply result kept.new }
    ensures count { K.faults sink.old ≤ K.faults sink.new }
{
    match give_all(sink, reply.text.as_slice()) {
        Ok(()) => keep(reply, kept),
        Err(_) => Status::WriteFault,
    }
}

/// Keeps the search of a reply: the reply's status.
fn keep(reply: Reply, kept: &mut Option<Finding>) -> Status
    ensures status { result ≡ reply.status }
    ensures kept { kept.new ≡ reply.kept }
{
    *kept = reply.kept;
    reply.status
}
