//! How a call ends.
ghost use Rattle.std.specs.Prelude.{◌≡◌};
ghost use Rattle.std.specs.Process.{exit_status};
ghost use Rattle.knot_ports.specs.Status.{status_number};

use std::process::ExitCode;

/// How a call ended. `Unknown` means for `knot` that `decide` found no evidence, and for `seek` that nothing was found.
#[derive(Clone, Copy, Debug, PartialEq, Eq)]
pub enum Status {
    /// The defined answer was written.
    Done,
    /// No evidence was found.
    Unknown,
    /// The words are refused, or name no job.
    Usage,
    /// The first bad line of the input is not what is due there, or something is due where the input ends.
    Malformed,
    /// The input has too many bytes, or its first bad line exceeds a limit.
    Limit,
    /// The source failed.
    ReadFault,
    /// The sink failed.
    WriteFault,
    /// Memory ran out.
    OutOfMemory,
    /// The evidence does not hold, colours are no colouring, or a move is not legal.
    Rejected,
}

impl Status {
    /// The exit status of the program, 0 to 8.
    pub fn number(&self) -> u8
        ensures { result ≡ status_number self.now }
    {
        match self {
            Status::Done => 0,
            Status::Unknown => 1,
            Status::Usage => 2,
            Status::Malformed => 3,
            Status::Limit => 4,
            Status::ReadFault => 5,
            Status::WriteFault => 6,
            Status::OutOfMemory => 7,
            Status::Rejected => 8,
        }
    }

    /// The exit status of the program, as a process ends with it.
    pub fn exit_code(&self) -> ExitCode
        ensures { exit_status result ≡ status_number self.now }
    {
        ExitCode::from(self.number())
    }
}
