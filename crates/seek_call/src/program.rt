//! All that `main` does: a call of the words that came, or a sentence where none did.
ghost use Rattle.seek_call.specs.SeekExit.{outside_of, told_of, came, EndsSeek};

use crate::call::call;
use crate::outlets::{Host, Outlets, Terminals};
use knot_ports::NoWords;
use seek_parts::{Places, Texts};
use std::alloc::Global;
use std::io::Write;
use std::process::ExitCode;
use std::thread::Threads;
use std::time::Clock;

/// Does what the words ask for, by `call`. Where none came it reports why, and ends with 7 or 10.
pub fn program<R: Threads + Sync + Eprint + Clock, F: Texts, P: Places, W: Write + Drop>(
    rt: &R,
    alloc: Global,
    terminals: Terminals,
    words: Result<Vec<String>, NoWords>,
    files: &F,
    outlets: &mut Outlets<P, W>,
) -> ExitCode
    ensures { EndsSeek (told_of F.told F.named files.now) (came words)
        (outside_of P.standing W.contents outlets.old) (outside_of P.standing W.contents outlets.new) result }
{
    let host = Host {
        rt,
        alloc,
        terminals,
    };
    match words {
        Ok(words) => call(&host, words.as_slice(), files, outlets),
        Err(why) => {
            let _told = eprintln!(rt; "seek: {why}");
            why.exit_code()
        }
    }
}
