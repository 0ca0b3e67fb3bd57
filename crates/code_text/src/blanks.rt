//! Brackets, commas and semicolons as blanks.
ghost use Rattle.std.specs.Prelude.{◌≡◌, IfOk};
ghost use Rattle.code_text.specs.Blanks.{is_parting, blank_for, blanked};

use std::alloc::{AllocError, Global};

/// The bytes with a space for each that parts numbers.
pub(crate) fn blanked(alloc: Global, bytes: &[u8]) -> Result<Vec<u8>, AllocError>
    ensures { IfOk result (λ v. v.items ≡ blanked bytes.now) }
{
    bytes.iter().map(|byte| blank_for(*byte)).collect(alloc)
}

/// A space for a byte that parts numbers, and every other byte as it is.
fn blank_for(byte: u8) -> u8
    ensures { result ≡ blank_for byte }
{
    if is_parting(byte) { b' ' } else { byte }
}

/// Whether a byte parts numbers.
fn is_parting(byte: u8) -> bool
    ensures { result ≡ is_parting byte }
{
    byte == b'['
        || byte == b']'
        || byte == b'('
        || byte == b')'
        || byte == b'{'
        || byte == b'}'
        || byte == b','
        || byte == b';'
}
