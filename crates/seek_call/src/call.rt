//! A call over any files, places and writer: what the words ask for, with a status as the exit status, and a sentence where something is
//! wrong.
ghost use Rattle.std.specs.Prelude.{◌≡◌, ◌≢◌, ◌⊎◌};
ghost use Rattle.std.specs.Process.{exit_status};
ghost use Rattle.clap.specs.Values.{kind_of};
ghost use Rattle.clap.specs.declared.error.kind.ErrorKind.TheVariants as kind;
ghost use Rattle.knot_ports.specs.declared.status.Status.TheVariants as status;
ghost use Rattle.knot_words.specs.OptionNumbers.{texts_of};
ghost use Rattle.seek_words.specs.Words.{IsHelpOrVersion, AskForText};
ghost use Rattle.seek_call.specs.SeekExit.{outside_of, told_of, EndsBy, EndsDoing, IsShown, IsShownTo, EndsCall, IsExitOfSeek, IsAnsweredByDecision};

use crate::failure::{Failure, OUTPUT, file_name};
use crate::inputs::read_inputs;
use crate::outlets::{Host, Outlets};
use crate::report::{tell, tell_reading};
use crate::search::Search;
use clap::error::ErrorKind;
use knot_ports::{Status, give_all};
use seek_parts::{Places, Texts, read_and_written};
use seek_words::{Asked, read_words, refusal_text};
use std::alloc::Global;
use std::io::Write;
use std::process::ExitCode;
use std::thread::Threads;
use std::time::Clock;

/// Does what the words ask for, reports what is wrong, and answers the exit status of a status with which such a call ends. It is 0 only where
/// a decision answers the words, or they ask for the help or the version. It is lent memory, threads, standard error and the clock, and no
/// stream or file but those that are named.
pub(crate) fn call<R: Threads + Sync + Eprint + Clock, F: Texts, P: Places, W: Write + Drop>(
    host: &Host<'_, R>,
    words: &[String],
    files: &F,
    outlets: &mut Outlets<P, W>,
) -> ExitCode
    ensures exit { IsExitOfSeek (told_of F.told F.named files.now) (texts_of words.now)
        (outside_of P.standing W.contents outlets.old) (outside_of P.standing W.contents outlets.new) result }
    ensures done { exit_status result ≡ 0 → AskForText (texts_of words.now) ⊎ IsAnsweredByDecision (F.told files.now) (texts_of words.now)
        (outside_of P.standing W.contents outlets.old) (outside_of P.standing W.contents outlets.new) }
{
    answer(host, words, files, outlets).exit_code()
}

/// Does what the words of a command line ask for, and says the status. Words that are refused are answered by `clap`, as is a request for help.
fn answer<R: Threads + Sync + Eprint + Clock, F: Texts, P: Places, W: Write + Drop>(
    host: &Host<'_, R>,
    words: &[String],
    files: &F,
    outlets: &mut Outlets<P, W>,
) -> Status
    ensures { EndsCall (told_of F.told F.named files.now) (texts_of words.now)
        (outside_of P.standing W.contents outlets.old) (outside_of P.standing W.contents outlets.new) result }
{
    match read_words(host.alloc, words) {
        Ok(asked) => seek(host, &asked, files, outlets),
        Err(error) => answer_words(host.rt, host.alloc, &error, outlets),
    }
}

/// Writes the help or the version to the output. Of words that are refused it reports what is wrong.
fn answer_words<R: Eprint, P: Places, W: Write + Drop>(
    rt: &R,
    alloc: Global,
    error: &clap::Error,
    outlets: &mut Outlets<P, W>,
) -> Status
    ensures shown { (IsHelpOrVersion (kind_of error.now)
        × IsShownTo (outside_of P.standing W.contents outlets.old) (outside_of P.standing W.contents outlets.new) result)
        ⊎ ((((IsHelpOrVersion (kind_of error.now) → ⊥) × (result ≡ status.Usage)) ⊎ (result ≡ status.OutOfMemory)) × (outlets.new ≡ outlets.old)) }
    ensures usage { result ≡ status.Usage → kind_of error.now ≢ kind.OutOfMemory }
{
    match error.kind() {
        ErrorKind::DisplayHelp | ErrorKind::DisplayVersion => show(rt, alloc, error, outlets),
        ErrorKind::OutOfMemory => tell(rt, &Failure::OutOfMemory),
        _ => {
            tell_refusal(rt, alloc, error);
            Status::Usage
        }
    }
}

/// Reports why words are refused. If there is no memory for that, the text of `clap` stays as it is.
fn tell_refusal<R: Eprint>(rt: &R, alloc: Global, error: &clap::Error) {
    let _told = match refusal_text(alloc, error) {
        Ok(text) => eprint!(rt; "{text}"),
        Err(_) => eprint!(rt; "{error}"),
    };
}

/// Writes a text of `clap` to the output: the status.
fn show<R: Eprint, P: Places, W: Write + Drop>(
    rt: &R,
    alloc: Global,
    text: &clap::Error,
    outlets: &mut Outlets<P, W>,
) -> Status
    ensures { IsShownTo (outside_of P.standing W.contents outlets.old) (outside_of P.standing W.contents outlets.new) result
        ⊎ ((result ≡ status.OutOfMemory) × (outlets.new ≡ outlets.old)) }
{
    match format!(in alloc; "{text}") {
        Ok(text) => show_text(rt, text.as_bytes(), outlets),
        Err(_) => tell(rt, &Failure::OutOfMemory),
    }
}

/// Writes a text to the output: the status.
fn show_text<R: Eprint, P: Places, W: Write + Drop>(
    rt: &R,
    text: &[u8],
    outlets: &mut Outlets<P, W>,
) -> Status
    ensures { IsShown text.now (outside_of P.standing W.contents outlets.old) (outside_of P.standing W.contents outlets.new) result }
{
    match give_all(&mut outlets.output, text) {
        Ok(()) => Status::Done,
        Err(_) => {
            let error = outlets.output.take_error();
            tell(
                rt,
                &Failure::Write {
                    name: OUTPUT,
                    error,
                },
            )
        }
    }
}

/// Refuses a file that would be read and written, and else does what is asked.
fn seek<R: Threads + Sync + Eprint + Clock, F: Texts, P: Places, W: Write + Drop>(
    host: &Host<'_, R>,
    asked: &Asked,
    files: &F,
    outlets: &mut Outlets<P, W>,
) -> Status
    ensures { EndsDoing (told_of F.told F.named files.now) asked.now
        (outside_of P.standing W.contents outlets.old) (outside_of P.standing W.contents outlets.new) result }
{
    match read_and_written(files, asked) {
        Some(path) => {
            let name = file_name(path);
            tell(host.rt, &Failure::ReadAndWritten { name })
        }
        None => seek_apart(host, asked, files, outlets),
    }
}

/// Reads the parts and the blocks of what is asked, and seeks a verdict on them.
fn seek_apart<R: Threads + Sync + Eprint + Clock, F: Texts, P: Places, W: Write + Drop>(
    host: &Host<'_, R>,
    asked: &Asked,
    files: &F,
    outlets: &mut Outlets<P, W>,
) -> Status
    ensures { EndsBy (F.told files.now) asked.now
        (outside_of P.standing W.contents outlets.old) (outside_of P.standing W.contents outlets.new) result }
{
    tell_reading(host.rt, host.terminals.input, asked);
    match read_inputs(host.alloc, files, asked) {
        Ok(inputs) => {
            let search = Search {
                rt: host.rt,
                alloc: host.alloc,
                is_terminal: host.terminals.messages,
                inputs: &inputs,
                asked,
            };
            search.seek_inputs(outlets)
        }
        Err(failure) => tell(host.rt, &failure),
    }
}
