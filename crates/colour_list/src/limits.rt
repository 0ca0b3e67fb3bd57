//! Which quandles have few enough colourings of a diagram to list them all.
ghost use Rattle.std.specs.Prelude.{◌≡◌};
ghost use Rattle.colour_list.specs.Fits.{fits};

use grid_core::Grid;
use quandle_core::Quandle;
use std::alloc::{AllocError, AllocFailed};

/// The greatest number of choices of a colour for each bottom, and so of colourings, that is listed: every other place names this constant.
pub const MAX_COLOURINGS: usize = 65536;

/// Why there is no list.
#[derive(Clone, Copy, PartialEq, Eq)]
pub enum ListFault {
    /// The order to the power of the number of bottoms is over `MAX_COLOURINGS`.
    TooWide { bottoms: u8 },
    /// Memory ran out.
    OutOfMemory,
}

impl From<AllocError> for ListFault {
    ghost use Rattle.colour_list.specs.declared.limits.ListFault.TheVariants as fault;

    ghost from_gives = { λ _ e. e ≡ fault.OutOfMemory };

    fn from(_: AllocError) -> ListFault {
        ListFault::OutOfMemory
    }
}

impl<T: Drop> From<AllocFailed<T>> for ListFault {
    ghost use Rattle.colour_list.specs.declared.limits.ListFault.TheVariants as fault;

    ghost from_gives = { λ _ e. e ≡ fault.OutOfMemory };

    fn from(_: AllocFailed<T>) -> ListFault {
        ListFault::OutOfMemory
    }
}

/// Whether the order of the quandle to the power of the number of bottoms of the grid is at most `MAX_COLOURINGS`. Takes no memory.
pub fn fits(grid: &Grid, quandle: &Quandle) -> bool
    ensures { result ≡ fits quandle.now grid.now }
{
    let choices = u32::from(quandle.order()).saturating_pow(u32::from(grid.bottoms()));
    choices as usize <= MAX_COLOURINGS
}
