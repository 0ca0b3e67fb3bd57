//! All bytes up to the end of input.
ghost use Rattle.std.specs.Prelude.{◌≡◌, ◌<◌, ◌≤◌, length, IfOk, IfErr, IfSome, OnOk, IsErrOf, vec_len};
ghost use Rattle.std.specs.Io.KnownBytes.{Consumes, IsAtEnd};
ghost use Rattle.knot_ports.specs.Faults.{Rose};
ghost use Rattle.knot_ports.specs.Source.{TakesBefore};

use crate::source::Source;
use std::alloc::Global;

/// Why a read ended before all bytes were read.
#[derive(Clone, Copy, Debug, PartialEq, Eq)]
pub enum ReadEnd {
    /// A call of the source failed.
    Fault,
    /// One byte more than the limit came.
    TooLong,
    /// There was no memory left for the bytes.
    OutOfMemory,
}

/// How many bytes a read asks for at once.
const READ_SIZE: usize = 16384;

/// All bytes up to the end of input, which are at most `limit`.
///
/// `Fault` comes only where the source's count of faults rose in this call, or has reached its last value. `TooLong`
/// comes exactly where `limit + 1` bytes came. After any of the three ends, the bytes that came are taken from the
/// source and lost.
pub fn read_all<S: Source>(alloc: Global, source: &mut S, limit: usize) -> Result<Vec<u8>, ReadEnd>
    requires { limit < usize.MAX }
    ensures taken { IfOk result (λ v. Consumes (S.left source.old) (S.left source.new) v.items) }
    ensures end { OnOk result (IsAtEnd (S.left source.new)) }
    ensures within { IfOk result (λ v. vec_len v ≤ limit) }
    ensures lost { IfErr result (λ e. TakesBefore (S.left source.old) (S.left source.new) limit e) }
    ensures fault { IsErrOf result ReadEnd.Fault → Rose (S.faults source.old) (S.faults source.new) }
    ensures count { S.faults source.old ≤ S.faults source.new }

    // If contracts know the bytes of the source, these are the answer, and too long means too many of them.
    ensures whole { IfOk result (λ v. IfSome (S.left source.old) (λ bytes. v.items ≡ bytes)) }
    ensures too_long { IsErrOf result ReadEnd.TooLong → IfSome (S.left source.old) (λ bytes. limit < length bytes) }
{
    let mut bytes = Vec::new(alloc);
    let mut room = [0u8; READ_SIZE];
    loop {
        let most = READ_SIZE.min(limit + 1 - bytes.len());
        let Ok(count) = source.take(&mut room[..most]) else {
            return Err(ReadEnd::Fault);
        };
        if count == 0 {
            return Ok(bytes);
        }
        if count > limit - bytes.len() {
            return Err(ReadEnd::TooLong);
        }
        let Ok(()) = bytes.extend_from_slice(&room[..count]) else {
            return Err(ReadEnd::OutOfMemory);
        };
    }
}
