//! Why a text is not read.
ghost use Rattle.std.specs.Prelude.{◌≡◌};
ghost use Rattle.text_items.specs.declared.fault.TextFault.TheVariants as fault;

use std::alloc::{AllocError, AllocFailed};

/// Why a text is not read: its first bad line, or memory that ran out.
///
/// Lines are counted from 1. Each line is tried first for its form, then for its limits, then for its content, and the
/// first line that fails decides. Where the text ends and something is still due, the line is the number of lines plus one.
#[derive(Clone, Copy, PartialEq, Eq)]
pub enum TextFault {
    /// This line doesn't have the form of what is due there, or says what can't be, or follows the end.
    Malformed { line: usize },
    /// This line has the form of what is due there, and exceeds a limit.
    Limit { line: usize },
    /// Memory ran out.
    OutOfMemory,
}

impl From<AllocError> for TextFault {
    ghost from_gives = { λ _ e. e ≡ fault.OutOfMemory };

    fn from(_: AllocError) -> TextFault {
        TextFault::OutOfMemory
    }
}

impl<T: Drop> From<AllocFailed<T>> for TextFault {
    ghost from_gives = { λ _ e. e ≡ fault.OutOfMemory };

    fn from(_: AllocFailed<T>) -> TextFault {
        TextFault::OutOfMemory
    }
}
