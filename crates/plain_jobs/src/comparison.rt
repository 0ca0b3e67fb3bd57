//! The last line of a text that compares what is said of two diagrams.
ghost use Rattle.std.specs.Prelude.{◌≡◌, ◌++◌, OnOk};
ghost use Rattle.plain_jobs.specs.Comparison.{compared_line};

use std::alloc::AllocError;

/// Appends `alike` where both are the same, and else `different`.
pub(crate) fn push_comparison(out: &mut Vec<u8>, same: bool) -> Result<(), AllocError>
    ensures { OnOk result (out.new.items ≡ out.old.items ++ compared_line same) }
{
    if same {
        out.extend_from_slice(b"alike\n")
    } else {
        out.extend_from_slice(b"different\n")
    }
}
