//! A verdict on what was read is sought and written: to a writer that is lent, or to a file at a path, whole or not at all.
ghost use Rattle.std.specs.Prelude.{◌≡◌, ◌≢◌, ◌⊎◌, IfOk, IfErr};
ghost use Rattle.knot_ports.specs.declared.status.Status.TheVariants as status;
ghost use Rattle.seek_core.specs.declared.ending.Ending.TheVariants as end;
ghost use Rattle.seek_core.specs.Answers.{ending_status};
ghost use Rattle.seek_core.specs.Parts.{joined};
ghost use Rattle.seek_parts.specs.Places.{PutsAt};
ghost use Rattle.seek_call.specs.Failure.{failure_status};
ghost use Rattle.seek_call.specs.Search.{held_of, port_held, unseen, EndsSearch, IsSoughtToSink, IsDecisionText, IsSoughtToFile};
ghost use Rattle.seek_call.specs.SeekExit.{outside_of, IsSought};

use crate::failure::{Failure, OUTPUT, file_name};
use crate::inputs::Inputs;
use crate::outlets::Outlets;
use crate::progress::Teller;
use crate::report::{tell, tell_line, tell_long, tell_tried};
use knot_ports::{Sink, Status, StdSink};
use seek_core::{Bounds, Ending, Resources, run};
use seek_parts::{Places, TextSink};
use seek_words::Asked;
use std::alloc::Global;
use std::io;
use std::io::Write;
use std::thread::Threads;
use std::time::Clock;

/// What was read and what is asked, for a search whose workers and messages `rt` has. Standard error may be a terminal.
#[derive(Drop)]
pub(crate) struct Search<'a, R> {
    pub(crate) rt: &'a R,
    pub(crate) alloc: Global,
    pub(crate) is_terminal: bool,
    pub(crate) inputs: &'a Inputs<'a>,
    pub(crate) asked: &'a Asked<'a>,
}

/// How a search ended, and how many steps its first worker has made.
#[derive(Drop)]
struct Ended {
    ending: Ending,
    made: u64,
}

impl<'a, R: Threads + Sync + Eprint + Clock> Search<'a, R> {
    /// Seeks a verdict on what was read, and writes it to the file that the words name, else to standard output.
    pub(crate) fn seek_inputs<P: Places, W: Write + Drop>(
        &self,
        outlets: &mut Outlets<P, W>,
    ) -> Status
        ensures { IsSought self.now.asked.now.out (joined self.now.inputs.now.parts.texts) self.now.inputs.now.blocks
            (outside_of P.standing W.contents outlets.old) (outside_of P.standing W.contents outlets.new) result }
    {
        match self.asked.out {
            None => self.seek_to_output(&mut outlets.output),
            Some(path) => self.seek_to_file(&mut outlets.places, path),
        }
    }

    /// Seeks a verdict on what was read, writes it to the sink over standard output, and reports how that ended: the status.
    fn seek_to_output<W: Write + Drop>(&self, sink: &mut StdSink<W>) -> Status
        ensures { IsSoughtToSink (joined self.now.inputs.now.parts.texts) self.now.inputs.now.blocks
            (port_held W.contents sink.old) (port_held W.contents sink.new) result }
    {
        let ended = self.run_told(sink);
        let failure = Failure::Write {
            name: OUTPUT,
            error: sink.take_error(),
        };
        self.tell_ending(&ended, &failure)
    }

    /// Seeks a verdict on what was read, puts it in a file at a path, whole or not at all, and reports its end: the status.
    fn seek_to_file<P: Places>(&self, places: &mut P, path: &str) -> Status
        ensures { IsSoughtToFile (joined self.now.inputs.now.parts.texts) self.now.inputs.now.blocks
            (P.standing places.old) (P.standing places.new) path.now result }
    {
        if let Err(error) = places.try_path(path) {
            return tell_unwritten(self.rt, path, error);
        }
        match self.find_text() {
            Ok(text) => put_text(self.rt, places, path, text.bytes()),
            Err(status) => status,
        }
    }

    /// The text of a verdict on what was read; the error is the status of a search that finds none, which is reported.
    fn find_text(&self) -> Result<TextSink, Status>
        ensures found { IfOk result (λ text. IsDecisionText (joined self.now.inputs.now.parts.texts) text.bytes) }
        ensures none { IfErr result (λ s. s ≢ status.Done) }
        ensures sought { IfErr result (λ s. IsSoughtToSink (joined self.now.inputs.now.parts.texts) self.now.inputs.now.blocks unseen unseen s) }
    {
        let mut text = TextSink::new(self.alloc);
        let ended = self.run_told(&mut text);
        match &ended.ending {
            Ending::Done => Ok(text),
            Ending::WriteFault => Err(tell(self.rt, &Failure::OutOfMemory)),
            _ => Err(self.tell_ending(&ended, &Failure::OutOfMemory)),
        }
    }

    /// Seeks a verdict, writes it to the sink, and reports how far the search is.
    fn run_told<K: Sink>(&self, sink: &mut K) -> Ended
        ensures { EndsSearch (joined self.now.inputs.now.parts.texts) self.now.inputs.now.blocks
            (held_of K.held K.faults sink.old) (held_of K.held K.faults sink.new) result.ending }
    {
        let (rt, alloc) = (self.rt, self.alloc);
        let mut watch = Teller::new(rt, self.asked.talk, self.is_terminal);
        let bounds = bounds_of(self.asked);
        let resources = Resources { rt, alloc, bounds };
        let texts = self.inputs.parts.texts();
        let blocks = &self.inputs.blocks;
        let ending = run(&resources, texts, blocks, sink, &mut watch);
        watch.end();
        Ended {
            ending,
            made: watch.steps(),
        }
    }

    /// Reports how a search ended, where that is not with a verdict: the status. Where the sink failed, it was by this failure.
    fn tell_ending(&self, ended: &Ended, failure: &Failure) -> Status
        requires { ended.now.ending ≡ end.WriteFault → failure_status failure.now ≡ status.WriteFault }
        ensures { result ≡ ending_status ended.now.ending }
    {
        let (rt, parts) = (self.rt, &self.inputs.parts);
        match &ended.ending {
            Ending::Done => Status::Done,
            Ending::NotFound(tried) => tell_tried(rt, self.asked, tried, ended.made),
            Ending::Malformed { line } | Ending::Limit { line } => {
                tell_line(rt, self.alloc, parts, *line, ended.ending.status())
            }
            Ending::TooLong => tell_long(rt),
            Ending::WriteFault => tell(rt, failure),
            Ending::OutOfMemory => tell(rt, &Failure::OutOfMemory),
        }
    }
}

/// Puts a text in a file at a path, or reports that it can't be written: the status.
fn put_text<R: Eprint, P: Places>(rt: &R, places: &mut P, path: &str, text: &[u8]) -> Status
    ensures whole { result ≡ status.Done → PutsAt (P.standing places.old) (P.standing places.new) path.now text.now }
    ensures none { result ≢ status.Done → P.standing places.new ≡ P.standing places.old }
    ensures told { (result ≡ status.Done) ⊎ ((result ≡ status.WriteFault) ⊎ (result ≡ status.OutOfMemory)) }
{
    match places.put(path, text) {
        Ok(()) => Status::Done,
        Err(error) => tell_unwritten(rt, path, error),
    }
}

/// Reports that a file can't be written: the status.
fn tell_unwritten<R: Eprint>(rt: &R, path: &str, error: io::Error) -> Status
    ensures { (result ≡ status.WriteFault) ⊎ (result ≡ status.OutOfMemory) }
{
    if error.kind() == io::ErrorKind::OutOfMemory {
        return tell(rt, &Failure::OutOfMemory);
    }
    tell(
        rt,
        &Failure::Write {
            name: file_name(path),
            error: Some(error),
        },
    )
}

/// What bounds the search.
fn bounds_of(asked: &Asked) -> Bounds
    ensures seed { result.walks.seed ≡ asked.now.seed }
    ensures steps { result.walks.steps ≡ asked.now.steps }
    ensures room { result.walks.room ≡ asked.now.room }
    ensures workers { result.workers ≡ asked.now.workers }
{
    Bounds {
        walks: meeting_walks::Bounds {
            seed: asked.seed,
            steps: asked.steps,
            room: asked.room as usize,
        },
        workers: asked.workers,
    }
}
