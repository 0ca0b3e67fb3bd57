//! All that the separate checker does: a ruling on the input, the usage line where a word follows its name, or nothing where the words can't be read.
ghost use Rattle.knot_ports.specs.Change.{port_change};
ghost use Rattle.check_job.specs.CheckExit.{IsExitOfCheck, WritesUsage, EndsKnotCheck};

use crate::call::run;
use crate::ports::write_text;
use knot_ports::{NoWords, Status, StdSink, StdSource};
use std::alloc::Global;
use std::io::{Read, Write};
use std::process::ExitCode;

/// What is written where words came: none are taken.
const USAGE: &[u8] = b"usage: knot_check < INPUT\n";

/// Rules on the input, by `call`, where no word follows the program's name. Where one does it writes the usage line, reads nothing, and ends with 2,
/// or with 6 where the line can't be written. Where the words can't be read it ends with 7 or 10, and neither reads nor writes. It is lent memory,
/// and no stream but the ports.
pub fn program<R: Read + Drop, W: Write + Drop>(
    alloc: Global,
    words: Result<Vec<String>, NoWords>,
    source: &mut StdSource<R>,
    sink: &mut StdSink<W>,
) -> ExitCode
    ensures { EndsKnotCheck words (port_change R.remaining source.old source.new) (port_change W.contents sink.old sink.new) result }
{
    match words {
        Ok(words) if words.len() > 1 => refuse(sink),
        Ok(_) => call(alloc, source, sink),
        Err(why) => why.exit_code(),
    }
}

/// Rules on what the reader gives, writes the ruling, and returns the exit status: that of a status with which such a call ends.
fn call<R: Read + Drop, W: Write + Drop>(
    alloc: Global,
    source: &mut StdSource<R>,
    sink: &mut StdSink<W>,
) -> ExitCode
    ensures { IsExitOfCheck (port_change R.remaining source.old source.new) (port_change W.contents sink.old sink.new) result }
{
    let status = run(alloc, source, sink);
    status.exit_code()
}

/// Writes the usage line: the exit status.
fn refuse<W: Write + Drop>(sink: &mut StdSink<W>) -> ExitCode
    ensures { WritesUsage (port_change W.contents sink.old sink.new) result }
{
    let status = write_text(sink, USAGE, Status::Usage);
    status.exit_code()
}
