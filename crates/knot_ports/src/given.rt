//! The words of the system.
ghost use Rattle.std.specs.Prelude.{◌≡◌};
ghost use Rattle.std.specs.Process.{exit_status};
ghost use Rattle.knot_ports.specs.Given.{status_without_words};

use crate::status::Status;
use std::process::ExitCode;
use std::rt::Env;
use std::{env, fmt, io};

/// The exit status where the system refuses the words for another cause than memory.
pub const NO_WORDS: u8 = 10;

/// Why the system gives no words.
#[derive(Debug, Drop)]
pub enum NoWords {
    /// Memory ran out.
    Memory,
    /// The system has none to give, or one of them isn't UTF-8.
    Refused(io::Error),
}

impl NoWords {
    /// The exit status of a program that ends so: 7 or `NO_WORDS`.
    pub fn exit_code(&self) -> ExitCode
        ensures { exit_status result ≡ status_without_words self.now }
    {
        match self {
            NoWords::Memory => Status::OutOfMemory.exit_code(),
            NoWords::Refused(_) => ExitCode::from(NO_WORDS),
        }
    }
}

impl fmt::Display for NoWords {
    fn fmt<W: fmt::Write>(&self, f: &mut fmt::Formatter<W>) -> fmt::Result {
        match self {
            NoWords::Memory => write!(f, "there is not enough memory"),
            NoWords::Refused(error) => write!(f, "the words can't be read: {error}"),
        }
    }
}

/// The words of the system, of which the first is the program's name. That memory ran out is distinguished from all other causes.
pub fn system_words<R: Env + AllocGlobal>(rt: &R) -> Result<Vec<String>, NoWords> {
    match env::args(rt) {
        Ok(args) => match args.collect(rt.alloc()) {
            Ok(words) => Ok(words),
            Err(_) => Err(NoWords::Memory),
        },
        Err(error) if error.kind() == io::ErrorKind::OutOfMemory => Err(NoWords::Memory),
        Err(error) => Err(NoWords::Refused(error)),
    }
}
