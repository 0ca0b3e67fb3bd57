//! What is reported on standard error.
ghost use Rattle.std.specs.Prelude.{◌≡◌, ◌≢◌};
ghost use Rattle.knot_ports.specs.declared.status.Status.TheVariants as status;
ghost use Rattle.seek_call.specs.Failure.{failure_status};

use crate::failure::Failure;
use knot_ports::{MAX_INPUT, Status};
use seek_core::{Tried, join_parts, part_with_line};
use seek_faults::{BraidReason, Reason, reason_at};
use seek_parts::Parts;
use seek_words::{Asked, Talk};
use std::alloc::Global;
use std::fmt;
use verdict_core::{Listed, QuandleName};

/// What an input without parts is called in messages.
const INPUT: &str = "the problem";

/// Reports that standard input is read, where it is a terminal and the words don't ask for silence.
pub(crate) fn tell_reading<R: Eprint>(rt: &R, is_terminal: bool, asked: &Asked) {
    if asked.talk != Talk::Quiet && asked.reads_input() && is_terminal {
        let _told = eprintln!(rt; "seek: standard input is read, up to its end (Ctrl-D)");
    }
}

/// Reports what was tried in vain, but where the words ask for silence: the status. The first worker has made so many steps.
pub(crate) fn tell_tried<R: Eprint>(rt: &R, asked: &Asked, tried: &Tried, made: u64) -> Status
    ensures { result ≡ status.Unknown }
{
    if asked.talk != Talk::Quiet {
        let tried = InWords {
            tried,
            has_files: !asked.weights.is_empty(),
        };
        let walks = walks_of(asked, made);
        let _told = eprintln!(rt; "seek: nothing found: {tried}, and {walks}");
    }
    Status::Unknown
}

/// Reports that the input is too long: the status. A file that is too long alone is refused before, so no part is named.
pub(crate) fn tell_long<R: Eprint>(rt: &R) -> Status
    ensures { result ≡ status.Limit }
{
    let _told = eprintln!(rt;
        "seek: all parts of the problem together have more than {MAX_INPUT} bytes"
    );
    Status::Limit
}

/// Reports what went wrong: the status.
pub(crate) fn tell<R: Eprint>(rt: &R, failure: &Failure) -> Status
    ensures is { result ≡ failure_status failure.now }
    ensures failed { result ≢ status.Done }
{
    let _told = eprintln!(rt; "seek: {failure}");
    failure.status()
}

/// Reports why a line is bad: the status. If there is no memory for the reason, the line is reported without one.
pub(crate) fn tell_line<R: Eprint>(
    rt: &R,
    alloc: Global,
    parts: &Parts,
    at: usize,
    kind: Status,
) -> Status
    ensures { result ≡ kind }
{
    let (name, line) = place_of(parts, at);
    match join_parts(alloc, parts.texts()) {
        Ok(problem) => tell_reason(
            rt,
            name,
            line,
            reason_at(alloc, problem.as_slice(), at).ok(),
        ),
        Err(_) => tell_reason(rt, name, line, None),
    }
    kind
}

/// Reports for which reason a line is bad, and which form a braid among the words has, if it is one. There is no reason if there was no
/// memory for it.
fn tell_reason<R: Eprint>(rt: &R, name: &str, line: usize, reason: Option<Reason>) {
    let Some(reason) = reason else {
        let _told = eprintln!(rt;
            "seek: {name}, line {line} is bad, and there is not enough memory to say why"
        );
        return;
    };
    let form = if name.ends_with("--braid") && is_of_form(reason) {
        BRAID_FORM
    } else {
        ""
    };
    let _told = eprintln!(rt; "seek: {name}, line {line}: {reason}{form}");
}

/// The name of the part in which a line of the input is, and the line's number there.
fn place_of<'a>(parts: &Parts<'a>, at: usize) -> (&'a str, usize) {
    match part_with_line(parts.texts(), at) {
        Some((part, line)) => (parts.name(part).unwrap_or(INPUT), line),
        None => (INPUT, at),
    }
}

/// What is said of a braid among the words that has another form.
const BRAID_FORM: &str = "; --braid takes the number of strands and the letters, as \"2 1 1 1\"";

/// Whether a line has not the form of a braid.
fn is_of_form(reason: Reason) -> bool {
    match reason {
        Reason::NoNumber { .. }
        | Reason::Braid(BraidReason::NoStrands)
        | Reason::Braid(BraidReason::NoLetter { .. }) => true,
        _ => false,
    }
}

/// What was tried, as a part of a sentence.
#[derive(Clone, Copy)]
struct InWords<'a> {
    tried: &'a Tried,
    /// Whether files of blocks were read.
    has_files: bool,
}

impl<'a> fmt::Display for InWords<'a> {
    fn fmt<W: fmt::Write>(&self, f: &mut fmt::Formatter<W>) -> fmt::Result {
        let (first, second) = self.tried.columns;
        write!(
            f,
            "of diagrams of {first} and {second} columns, whose linking numbers agree,"
        )?;
        write_quandles(f, self.tried.quandles.as_slice())?;
        match self.tried.blocks {
            0 if self.has_files => Ok(()),
            0 => write!(f, ", no file of --weights was read for cocycles"),
            1 => write!(
                f,
                ", numbers by one quandle of --weights don't distinguish them"
            ),
            blocks => write!(
                f,
                ", numbers by {blocks} quandles of --weights don't distinguish them"
            ),
        }
    }
}

/// Writes which quandles were tried.
fn write_quandles<W: fmt::Write>(f: &mut fmt::Formatter<W>, quandles: &[Listed]) -> fmt::Result {
    match quandles.last() {
        Some(only) if quandles.len() == 1 => write_alone(f, Name(only)),
        Some(last) => write_vain(f, quandles.len(), Name(last)),
        None => write!(f, " none of the quandles tried fits both"),
    }
}

/// Writes that a single quandle was tried in vain.
fn write_alone<W: fmt::Write>(f: &mut fmt::Formatter<W>, only: Name) -> fmt::Result {
    write!(
        f,
        " the one quandle tried that fits both, {only}, doesn't distinguish them"
    )
}

/// Writes that so many quandles were tried in vain, and this one last.
fn write_vain<W: fmt::Write>(f: &mut fmt::Formatter<W>, count: usize, last: Name) -> fmt::Result {
    write!(
        f,
        " none of the {count} quandles tried that fit both, the last of them {last}, distinguishes them"
    )
}

/// What is said of more steps where the walk of a single worker stopped before all its steps were made.
const MORE_STEPS: &str = ", so that more steps change nothing, and another seed may";

/// The walks that found nothing, as a part of a sentence.
#[derive(Clone, Copy)]
struct Walks {
    workers: u32,
    steps: u64,
    seed: u64,
    /// The steps that the first worker has made.
    made: u64,
}

/// The walks that are asked for, of which the first made so many steps.
fn walks_of(asked: &Asked, made: u64) -> Walks {
    Walks {
        workers: asked.workers,
        steps: asked.steps,
        seed: asked.seed,
        made,
    }
}

impl fmt::Display for Walks {
    fn fmt<W: fmt::Write>(&self, f: &mut fmt::Formatter<W>) -> fmt::Result {
        write_walks(f, *self)?;
        if self.made < self.steps {
            write_early(f, self.workers, self.made)
        } else {
            Ok(())
        }
    }
}

/// Writes which walks found nothing.
fn write_walks<W: fmt::Write>(f: &mut fmt::Formatter<W>, walks: Walks) -> fmt::Result {
    let (workers, steps, seed) = (walks.workers, walks.steps, walks.seed);
    let found = "led to no list of moves";
    if workers > 1 {
        write!(
            f,
            "walks of {workers} workers, of up to {steps} steps each, from seed {seed} on, {found}"
        )
    } else {
        write!(f, "walks of up to {steps} steps from seed {seed} {found}")
    }
}

/// Writes that walks stopped before all their steps were made.
fn write_early<W: fmt::Write>(f: &mut fmt::Formatter<W>, workers: u32, made: u64) -> fmt::Result {
    let (who, behind) = if workers > 1 {
        ("the first worker", "")
    } else {
        ("they", MORE_STEPS)
    };
    write!(
        f,
        "; {who} stopped after {made}, since nothing new was met for long{behind}"
    )
}

/// The name of a quandle.
#[derive(Clone, Copy)]
struct Name<'a>(&'a Listed);

impl<'a> fmt::Display for Name<'a> {
    fn fmt<W: fmt::Write>(&self, f: &mut fmt::Formatter<W>) -> fmt::Result {
        match self.0.name() {
            QuandleName::Trivial(n) => write!(f, "trivial {n}"),
            QuandleName::Dihedral(n) => write!(f, "dihedral {n}"),
            QuandleName::Tetrahedral => write!(f, "tetrahedral"),
            QuandleName::Alexander(n, factor) => write!(f, "alexander {n} {factor}"),
            QuandleName::Table => write!(f, "a table"),
        }
    }
}
