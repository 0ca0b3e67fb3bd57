//! What is reported of a call, as a sentence.
ghost use Rattle.std.specs.Prelude.{◌≡◌, ◌≢◌, ◌⊎◌, IfSome, IsSome, None};
ghost use Rattle.knot_ports.specs.Status.{IsOfAnswer};
ghost use Rattle.knot_ports.specs.declared.status.Status.TheVariants as kind;
ghost use Rattle.knot_words.specs.OptionNumbers.{texts_of};
ghost use Rattle.knot_words.specs.Words.{Asks};
ghost use Rattle.knot_tells.specs.Told.{AsksToDraw, IsOf, IsOfCode, IsOfInput, IsOfRefusal};

use crate::jobs::Jobs;
use crate::lines::{Named, begins_table, named_in};
use crate::refusals::{Refusal, refusal_in};
use crate::shapes::shape_of;
use crate::words::{BadWords, bad_words};
use grid_core::MAX_SIZE;
use knot_ports::{Status, StdSink, StdSource};
use knot_words::{Asked, Job, PlainJob, read_words};
use seek_faults::{Reason, Shown, reason_in};
use std::alloc::Global;
use std::fs::Files;
use std::io::{Read, Write};
use std::{fmt, io};

/// What is reported of a call that ended with another status than `Done` and `Unknown`.
#[derive(Drop)]
pub enum Sentence<'a> {
    /// Why the words ask for no job.
    Words(BadWords<'a>),
    /// Why a line is bad.
    Line { line: usize, reason: Reason<'a> },
    /// A line of a table of knots is bad, or there was no memory to say why.
    LineAlone { line: usize, is_limit: bool },
    /// A line of a code is bad.
    CodeLine { line: usize, is_limit: bool },
    /// A drawing takes more columns than a diagram may have.
    Wide { columns: usize },
    /// No diagram of a code is answered.
    Refused(Refusal),
    /// The input is too long.
    Long,
    /// Reading failed.
    Read { error: Option<&'a io::Error> },
    /// Writing failed.
    Write { error: Option<&'a io::Error> },
    /// Memory ran out.
    OutOfMemory,
}

/// The job that is asked for, if it reads an input.
pub fn reading(alloc: Global, words: &[String]) -> Option<Job>
    ensures { IfSome result (λ job. (asked : Asked) × Asks (texts_of words.now) asked × (asked.job ≡ job) × (job ≢ Job.Sample)) }
{
    match read_words(alloc, words) {
        Ok(asked) if asked.job != Job::Sample => Some(asked.job),
        Ok(_) | Err(_) => None,
    }
}

/// What is reported of a call that ended with this status, if anything is; these were its source and its sink, and this the input that it
/// answered.
pub fn sentence_of<'a, R: Read + Drop, W: Write + Drop>(
    files: &impl Files,
    alloc: Global,
    words: &'a [String],
    status: Status,
    source: &'a StdSource<R>,
    input: &'a [u8],
    sink: &'a StdSink<W>,
) -> Option<Sentence<'a>>
    ensures told { IfSome result (λ s. IsOf status s) }
    ensures silent { (status ≡ kind.Done) ⊎ (status ≡ kind.Unknown) → result ≡ None }
    ensures drawn { IfSome result (λ s. IsOfCode s → AsksToDraw (texts_of words.entry.now)) }
    ensures some { (IsOfAnswer status → ⊥) → IsSome result }
{
    match status {
        Status::Done | Status::Unknown => None,
        Status::Rejected => refused_sentence(reading(alloc, words)?, sink),
        Status::Usage => match bad_words(files, alloc, words) {
            Ok(bad) => Some(Sentence::Words(bad)),
            Err(_) => Some(Sentence::Words(BadWords::Other)),
        },
        Status::Malformed | Status::Limit => {
            let is_limit = status == Status::Limit;
            line_sentence(alloc, reading(alloc, words)?, is_limit, input, sink)
        }
        Status::ReadFault => Some(Sentence::Read {
            error: source.error(),
        }),
        Status::WriteFault => Some(Sentence::Write {
            error: sink.error(),
        }),
        Status::OutOfMemory => Some(Sentence::OutOfMemory),
    }
}

/// What is reported where an input was rejected: of a code, why no diagram of it is answered.
fn refused_sentence<'a, W: Write + Drop>(job: Job, sink: &StdSink<W>) -> Option<Sentence<'a>>
    ensures told { IfSome result (λ s. IsOfRefusal s) }
    ensures drawn { IfSome result (λ s. IsOfCode s → job ≡ Job.Plain PlainJob.Grid) }
{
    match job {
        Job::Plain(PlainJob::Grid) => Some(Sentence::Refused(refusal_in(sink.front())?)),
        _ => None,
    }
}

/// What is reported of the columns of a drawing, which exceed a limit.
fn wide_sentence<'a>(job: Job, is_limit: bool, columns: usize) -> Option<Sentence<'a>>
    ensures told { IfSome result (λ s. IsOfInput is_limit s) }
    ensures drawn { IfSome result (λ s. IsOfCode s → job ≡ Job.Plain PlainJob.Grid) }
{
    match job {
        Job::Plain(PlainJob::Grid) if is_limit => Some(Sentence::Wide { columns }),
        _ => None,
    }
}

/// What is reported of the line that an answer names, of the length of the input, or of the columns of a drawing.
fn line_sentence<'a, W: Write + Drop>(
    alloc: Global,
    job: Job,
    is_limit: bool,
    input: &'a [u8],
    sink: &StdSink<W>,
) -> Option<Sentence<'a>>
    requires reads { job ≢ Job.Sample }
    ensures told { IfSome result (λ s. IsOfInput is_limit s) }
    ensures drawn { IfSome result (λ s. IsOfCode s → job ≡ Job.Plain PlainJob.Grid) }
{
    let line = match named_in(sink.front())? {
        Named::Bytes => return Some(Sentence::Long),
        Named::Columns(columns) => return wide_sentence(job, is_limit, columns),
        Named::Line(line) => line,
    };
    let Some(shape) = shape_of(job) else {
        return Some(Sentence::CodeLine { line, is_limit });
    };
    if job == Job::Plain(PlainJob::Check) && begins_table(input) {
        return Some(Sentence::LineAlone { line, is_limit });
    }
    match reason_in(alloc, shape, input, line, is_limit) {
        Ok(reason) => Some(Sentence::Line { line, reason }),
        Err(_) => Some(Sentence::LineAlone { line, is_limit }),
    }
}

impl<'a> fmt::Display for Sentence<'a> {
    fn fmt<W: fmt::Write>(&self, f: &mut fmt::Formatter<W>) -> fmt::Result {
        match self {
            Sentence::Words(bad) => write!(f, "{bad}"),
            Sentence::Line { line, reason } => write!(f, "line {line}: {reason}"),
            Sentence::LineAlone {
                line,
                is_limit: true,
            } => write!(f, "line {line} exceeds a limit"),
            Sentence::LineAlone { line, .. } => write!(f, "line {line} is not what is due there"),
            Sentence::CodeLine {
                line,
                is_limit: true,
            } => write!(f, "line {line} exceeds a limit of a planar diagram code"),
            Sentence::CodeLine { line, .. } => write!(
                f,
                "line {line} is not what is due in a planar diagram code; tools/code.py makes diagrams of DT and Gauss codes"
            ),
            Sentence::Wide { columns } => write!(
                f,
                "the drawing takes {columns} columns, and a diagram may have {MAX_SIZE}"
            ),
            Sentence::Refused(why) => write!(f, "{why}"),
            Sentence::Long => write!(f, "the input has more bytes than the job takes"),
            Sentence::Read { error } => write_io(f, "standard input can't be read", *error),
            Sentence::Write { error } => write_io(f, "standard output can't be written", *error),
            Sentence::OutOfMemory => write!(f, "there is not enough memory"),
        }
    }
}

/// Writes what can't be done, and why.
fn write_io<W: fmt::Write>(
    f: &mut fmt::Formatter<W>,
    what: &str,
    error: Option<&io::Error>,
) -> fmt::Result {
    match error {
        Some(error) => write!(f, "{what}: {error}"),
        None => write!(f, "{what}"),
    }
}

impl<'a> fmt::Display for BadWords<'a> {
    fn fmt<W: fmt::Write>(&self, f: &mut fmt::Formatter<W>) -> fmt::Result {
        match self {
            BadWords::NoJob => write!(f, "a job is due; the jobs are {Jobs}"),
            BadWords::OtherJob { word, nearest } => {
                let word = Shown(word.as_bytes());
                write!(f, "there is no job {word}")?;
                if let Some(name) = nearest {
                    write!(f, ", and `{name}` is the nearest")?;
                }
                write!(f, "; the jobs are {Jobs}")
            }
            BadWords::File { job, file } => write!(
                f,
                "{file} is a file, and a job reads standard input: knot {job} < {file}"
            ),
            BadWords::TwoJobs { first, second } => {
                let (first, second) = (Shown(first.as_bytes()), Shown(second.as_bytes()));
                write!(
                    f,
                    "one job is due, and here are the words {first} and {second}"
                )
            }
            BadWords::Value { knob, value } => {
                let value = Shown(value.as_bytes());
                write!(f, "{knob}, and {value} is none")
            }
            BadWords::NoValue { knob } => write!(f, "{knob}, and none is given"),
            BadWords::Twice { knob } => {
                let name = knob.name;
                write!(f, "{name} is given twice")
            }
            BadWords::NoOption { word } => {
                let word = Shown(word.as_bytes());
                write!(
                    f,
                    "there is no option {word}; the options are --workers, --budget, --spare and --seed, with a whole number each"
                )
            }
            BadWords::Help => write!(
                f,
                "the launcher ./knot and docs/FORMATS.md have the help; the jobs are {Jobs}"
            ),
            BadWords::Other => write!(f, "the words ask for no job; the jobs are {Jobs}"),
        }
    }
}
