//! A call over any reader and any writer: what `run` answers, with the number of its status as the exit status.
ghost use Rattle.knot_words.specs.OptionNumbers.{texts_of};
ghost use Rattle.knot_jobs.specs.Call.{call_of, as_many_as_asked};
ghost use Rattle.knot_ports.specs.Change.{port_change};
ghost use Rattle.knot.specs.KnotExit.{IsStatusOf};

use knot_jobs::{Ports, Status, run};
use knot_ports::{StdSink, StdSource};
use search_pool::OpenGate;
use std::alloc::Global;
use std::io::{Read, Write};
use std::sync::Wait;
use std::thread::Threads;

/// Does what the words ask for, with workers in `threads`, and returns the status with which such a call ends. It is lent memory and
/// threads, and no stream or file but the ports.
pub(crate) fn call<T: Threads + Wait + Sync, R: Read + Drop, W: Write + Drop>(
    threads: &T,
    alloc: Global,
    words: &[String],
    ports: &mut Ports<StdSource<R>, StdSink<W>>,
) -> Status
    ensures { IsStatusOf (call_of (texts_of words.now) as_many_as_asked
        (port_change R.remaining ports.old.source ports.new.source)
        (port_change W.contents ports.old.sink ports.new.sink)) result }
{
    run(threads, alloc, words, ports, &OpenGate)
}
