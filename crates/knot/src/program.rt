//! All that `main` does: a call of the words that came, and what is reported beside its answer.
ghost use Rattle.knot_jobs.specs.Call.{as_many_as_asked};
ghost use Rattle.knot_ports.specs.Change.{port_change};
ghost use Rattle.knot.specs.KnotExit.{came, EndsKnot};

use crate::call::call;
use crate::tell::Tell;
use knot_jobs::Ports;
use knot_ports::{NoWords, StdSink, StdSource};
use std::alloc::Global;
use std::io::{Read, Write};
use std::process::ExitCode;
use std::sync::Wait;
use std::thread::Threads;

/// Does what the words ask for, by `call`, and ends with the number of its status; with 7 or 10 where no words came. What is wrong is reported
/// beside it. It is lent memory and threads, and no stream or file but the ports and what `messages` has.
pub(crate) fn program<T: Threads + Wait + Sync, R: Read + Drop, W: Write + Drop, M: Tell>(
    threads: &T,
    alloc: Global,
    words: Result<Vec<String>, NoWords>,
    ports: &mut Ports<StdSource<R>, StdSink<W>>,
    messages: &M,
) -> ExitCode
    ensures { EndsKnot (came words) as_many_as_asked
        (port_change R.remaining ports.old.source ports.new.source)
        (port_change W.contents ports.old.sink ports.new.sink) result }
{
    match words {
        Ok(words) => {
            let list = words.as_slice();
            messages.tell_reading(list);
            let status = call(threads, alloc, list, ports);
            messages.tell_end(list, status, ports);
            status.exit_code()
        }
        Err(why) => {
            messages.tell_no_words(&why);
            why.exit_code()
        }
    }
}
