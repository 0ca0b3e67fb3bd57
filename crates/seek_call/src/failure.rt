//! What goes wrong, in words.
ghost use Rattle.std.specs.Prelude.{◌≡◌, ◌≢◌};
ghost use Rattle.knot_ports.specs.declared.status.Status.TheVariants as status;
ghost use Rattle.seek_call.specs.Failure.{failure_status};

use knot_ports::Status;
use seek_parts::{PartFault, text_status, write_memory};
use std::{fmt, io};
use text_items::TextFault;

/// What standard output is called in messages.
pub(crate) const OUTPUT: &str = "standard output";

/// What a file is called in messages.
pub(crate) fn file_name<'a>(path: &'a str) -> &'a str {
    match path {
        "-" => "standard input",
        "" => "a file without a name",
        _ => path,
    }
}

/// What went wrong. A name is that of a file, or what standard output is called.
#[derive(Drop)]
pub(crate) enum Failure<'a> {
    /// A part of the input can't be had.
    Part(PartFault<'a>),
    /// The text of blocks can't be read.
    Blocks {
        name: &'a str,
        fault: TextFault,
    },
    /// The file that the verdict would be written to is one of those that are read.
    ReadAndWritten {
        name: &'a str,
    },
    /// The verdict can't be written.
    Write {
        name: &'a str,
        error: Option<io::Error>,
    },
    /// Memory ran out.
    OutOfMemory,
}

impl<'a> Failure<'a> {
    /// The status of the call, which is never `Done`.
    pub(crate) fn status(&self) -> Status
        ensures is { result ≡ failure_status self.now }
        ensures failed { result ≢ status.Done }
    {
        match self {
            Failure::Part(fault) => fault.status(),
            Failure::Blocks { fault, .. } => text_status(*fault),
            Failure::ReadAndWritten { .. } => Status::Usage,
            Failure::Write { .. } => Status::WriteFault,
            Failure::OutOfMemory => Status::OutOfMemory,
        }
    }
}

/// Writes why the text of blocks can't be read.
fn write_blocks<W: fmt::Write>(
    f: &mut fmt::Formatter<W>,
    name: &str,
    fault: TextFault,
) -> fmt::Result {
    match fault {
        TextFault::Malformed { line } => write!(
            f,
            "{name}, line {line} is not what is due in a list of quandles and cocycles"
        ),
        TextFault::Limit { line } => write!(f, "{name}, line {line} exceeds a limit"),
        TextFault::OutOfMemory => write_memory(f),
    }
}

/// Writes what represents standard output, where its name in the system was refused.
fn write_way<W: fmt::Write>(f: &mut fmt::Formatter<W>, error: &io::Error) -> fmt::Result {
    match error.kind() {
        io::ErrorKind::InvalidInput => write!(f, "; `--out -` is standard output"),
        _ => Ok(()),
    }
}

impl<'a> fmt::Display for Failure<'a> {
    fn fmt<W: fmt::Write>(&self, f: &mut fmt::Formatter<W>) -> fmt::Result {
        match self {
            Failure::Part(fault) => write!(f, "{fault}"),
            Failure::Blocks { name, fault } => write_blocks(f, name, *fault),
            Failure::ReadAndWritten { name } => write!(
                f,
                "{name} is one of the files that are read, and the verdict would take its place: name another one after `--out`"
            ),
            Failure::Write {
                name,
                error: Some(error),
            } => {
                write!(f, "{name} can't be written: {error}")?;
                write_way(f, error)
            }
            Failure::Write { name, error: None } => write!(f, "{name} can't be written"),
            Failure::OutOfMemory => write_memory(f),
        }
    }
}
