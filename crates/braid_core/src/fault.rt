//! Why a number of strands and a list of letters are no braid.
ghost use Rattle.std.specs.Prelude.{◌≡◌};
ghost use Rattle.std.specs.List.{position};
ghost use Rattle.braid_core.specs.Fault.{is_outside_strands};

use std::alloc::AllocError;

/// Why a number of strands and a list of letters are no braid: the first of these that holds.
#[derive(Clone, Copy, PartialEq, Eq)]
pub enum BraidFault {
    /// There are no strands, or more than `MAX_STRANDS`.
    Strands,
    /// This letter, counted from 0, is the first that is 0 or whose absolute value is not below the number of strands.
    Letter { place: usize },
    /// The closure would be larger than a grid: letters and twice the strands are over `MAX_SIZE`.
    Size,
    /// Memory ran out.
    OutOfMemory,
}

impl From<AllocError> for BraidFault {
    ghost use Rattle.braid_core.specs.declared.fault.BraidFault.TheVariants as fault;

    ghost from_gives = { λ _ e. e ≡ fault.OutOfMemory };

    fn from(_: AllocError) -> BraidFault {
        BraidFault::OutOfMemory
    }
}

/// The place of the first letter that is 0 or whose absolute value is not below the number of strands.
pub(crate) fn first_outside(strands: u8, letters: &[i8]) -> Option<usize>
    ensures { result ≡ position (is_outside_strands strands) letters.now }
{
    letters
        .iter()
        .position(|letter| is_outside(strands, *letter))
}

/// Whether a letter is 0 or its absolute value is not below the number of strands.
fn is_outside(strands: u8, letter: i8) -> bool
    ensures { result ≡ is_outside_strands strands letter }
{
    !(1 <= letter.unsigned_abs() && letter.unsigned_abs() < strands)
}
