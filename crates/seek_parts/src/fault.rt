//! Why the parts of an input can't be had, in words.
ghost use Rattle.std.specs.Prelude.{◌≡◌, ◌≢◌};
ghost use Rattle.knot_ports.specs.declared.status.Status.TheVariants as status;
ghost use Rattle.seek_parts.specs.Fault.{text_status, refusal_status, fault_status};

use code_rows::RowsFault;
use code_text::TextRefusal;
use grid_core::MAX_SIZE;
use knot_ports::{MAX_INPUT, Status};
use seek_faults::NotOne;
use std::{fmt, io};
use text_items::TextFault;

/// Why the parts of an input can't be had. A name is that of a file, or says what a part is otherwise.
#[derive(Drop)]
pub enum PartFault<'a> {
    /// A file can't be opened or read.
    Read {
        name: &'a str,
        error: Option<io::Error>,
    },
    /// A file has more than `MAX_INPUT` bytes.
    Long {
        name: &'a str,
    },
    /// One of two parts is not one diagram.
    NotOne {
        name: &'a str,
        why: NotOne,
    },
    /// The text of a code can't be read.
    Code {
        name: &'a str,
        fault: TextFault,
    },
    /// No diagram of a code is answered.
    NoDiagram {
        name: &'a str,
        refusal: TextRefusal,
    },
    /// Memory ran out.
    OutOfMemory,
}

impl<'a> PartFault<'a> {
    /// The status of a call that ends so, which is never `Done`.
    pub fn status(&self) -> Status
        ensures is { result ≡ fault_status self.now }
        ensures failed { result ≢ status.Done }
    {
        match self {
            PartFault::Read { .. } => Status::ReadFault,
            PartFault::Long { .. } => Status::Limit,
            PartFault::NotOne { .. } => Status::Malformed,
            PartFault::Code { fault, .. } => text_status(*fault),
            PartFault::NoDiagram { refusal, .. } => refusal_status(*refusal),
            PartFault::OutOfMemory => Status::OutOfMemory,
        }
    }
}

/// The status of a call that can't read a text, which is never `Done`.
pub fn text_status(fault: TextFault) -> Status
    ensures { result ≡ text_status fault }
{
    match fault {
        TextFault::Malformed { .. } => Status::Malformed,
        TextFault::Limit { .. } => Status::Limit,
        TextFault::OutOfMemory => Status::OutOfMemory,
    }
}

/// The status of a call to which no diagram of a code is answered.
fn refusal_status(refusal: TextRefusal) -> Status
    ensures { result ≡ refusal_status refusal }
{
    match refusal {
        TextRefusal::Columns { .. } => Status::Limit,
        TextRefusal::Rows(_) | TextRefusal::Gauss | TextRefusal::Lost => Status::Malformed,
    }
}

/// Writes what a file that can't be read may have been meant as.
fn write_job<W: fmt::Write>(f: &mut fmt::Formatter<W>, name: &str) -> fmt::Result {
    match name {
        "decide" | "check" => write!(
            f,
            "; `{name}` is a job of `knot`, and `seek` takes files without a job"
        ),
        _ if name.contains("[") => write!(
            f,
            "; a code is read from a file, or from standard input by `--pd -`"
        ),
        _ => Ok(()),
    }
}

/// Writes why the text of a code can't be read.
fn write_code<W: fmt::Write>(
    f: &mut fmt::Formatter<W>,
    name: &str,
    fault: TextFault,
) -> fmt::Result {
    match fault {
        TextFault::Malformed { line } => write!(
            f,
            "{name}, line {line} is not what is due in a planar diagram code; tools/code.py makes diagrams of DT and Gauss codes"
        ),
        TextFault::Limit { line } => write!(f, "{name}, line {line} exceeds a limit"),
        TextFault::OutOfMemory => write_memory(f),
    }
}

/// Writes that there is not enough memory.
pub fn write_memory<W: fmt::Write>(f: &mut fmt::Formatter<W>) -> fmt::Result {
    write!(f, "there is not enough memory")
}

/// Writes why no diagram of a code is answered.
fn write_refusal<W: fmt::Write>(
    f: &mut fmt::Formatter<W>,
    name: &str,
    refusal: TextRefusal,
) -> fmt::Result {
    match refusal {
        TextRefusal::Rows(RowsFault::Empty) => { write!(f, "{name} has no crossing and no loop") }
        TextRefusal::Rows(RowsFault::Edge { edge }) => {
            write!(f, "{name}: edge {edge} does not occur exactly twice")
        }
        TextRefusal::Rows(RowsFault::Direction { edge }) => write!(
            f,
            "{name}: strands run against each other on edge {edge}"
        ),
        TextRefusal::Rows(RowsFault::Plane) => {
            write!(f, "{name} is the code of no diagram in the plane")
        }
        TextRefusal::Gauss => write!(f, "{name}: the lines `gauss` are not those of the rows"),
        TextRefusal::Columns { columns } => write!(
            f,
            "{name} takes a diagram of {columns} columns, and a diagram may have {MAX_SIZE}"
        ),
        TextRefusal::Lost => write!(f, "{name}: no diagram was found"),
    }
}

impl<'a> fmt::Display for PartFault<'a> {
    fn fmt<W: fmt::Write>(&self, f: &mut fmt::Formatter<W>) -> fmt::Result {
        match self {
            PartFault::Read { name, error } => {
                match error {
                    Some(error) => write!(f, "{name} can't be read: {error}")?,
                    None => write!(f, "{name} can't be read")?,
                }
                write_job(f, name)
            }
            PartFault::Long { name } => write!(f, "{name} has more than {MAX_INPUT} bytes"),
            PartFault::NotOne { name, why } => match why.line() {
                Some(line) => write!(f, "{name}, line {line}: {why}"),
                None => write!(f, "{name}: {why}"),
            },
            PartFault::Code { name, fault } => write_code(f, name, *fault),
            PartFault::NoDiagram { name, refusal } => write_refusal(f, name, *refusal),
            PartFault::OutOfMemory => write_memory(f),
        }
    }
}
