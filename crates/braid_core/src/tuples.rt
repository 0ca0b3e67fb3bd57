//! The fixed points of a braid's action.
ghost use Rattle.std.specs.Prelude.{All, ◌≡◌, ◌<◌, ◌-◌, ◌≤◌, ◌⊎◌, ◌++◌, None, Some, ℕ, List, length, map, filter, IfOk, IfErr, OnOk};
ghost use Rattle.braid_core.specs.Action.{IsTuple};
ghost use Rattle.braid_core.specs.FixedPoints.{all_tuples, is_fixed, fixed_points, wide_fault, tuples_of};
ghost use Rattle.braid_core.specs.declared.tuples.FixFault.TheVariants as fault;

use crate::action::act;
use crate::braid::{Braid, MAX_STRANDS};
use arrayvec::ArrayVec;
use quandle_core::Quandle;
use smallvec::SmallVec;
use std::alloc::{AllocError, AllocFailed, Global};

/// The greatest number of tuples that are tried: every other place names this constant.
pub const MAX_TUPLES: usize = 65536;

/// A colour for each strand, position 1 first. Contracts read it as its list of items.
pub type Tuple = SmallVec<u8, MAX_STRANDS>;

/// Why there is no list of fixed points.
#[derive(Clone, Copy, PartialEq, Eq)]
pub enum FixFault {
    /// The order to the power of the number of strands is over `MAX_TUPLES`.
    TooWide { strands: u8 },
    /// Memory ran out.
    OutOfMemory,
}

impl From<AllocError> for FixFault {
    ghost use Rattle.braid_core.specs.declared.tuples.FixFault.TheVariants as fault;

    ghost from_gives = { λ _ e. e ≡ fault.OutOfMemory };

    fn from(_: AllocError) -> FixFault {
        FixFault::OutOfMemory
    }
}

impl<T: Drop> From<AllocFailed<T>> for FixFault {
    ghost use Rattle.braid_core.specs.declared.tuples.FixFault.TheVariants as fault;

    ghost from_gives = { λ _ e. e ≡ fault.OutOfMemory };

    fn from(_: AllocFailed<T>) -> FixFault {
        FixFault::OutOfMemory
    }
}

/// All tuples of colours that the braid's action takes to themselves, in lexicographic order.
///
/// `TooWide` exactly where the order to the power of the number of strands is over `MAX_TUPLES`. Memory is taken for the answer alone.
pub fn fixed_points(alloc: Global, braid: &Braid, quandle: &Quandle) -> Result<Vec<Tuple>, FixFault>
    ensures complete { IfOk result (λ v. (wide_fault quandle.now braid.now ≡ None) × (tuples_of v.items ≡ fixed_points quandle.now braid.now)) }
    ensures fault { IfErr result (λ e. (wide_fault quandle.now braid.now ≡ Some e)
        ⊎ (wide_fault quandle.now braid.now ≡ None) × (e ≡ fault.OutOfMemory)) }
{
    let strands = braid.strands();
    let tuples = u32::from(quandle.order()).saturating_pow(u32::from(strands));
    if tuples as usize > MAX_TUPLES {
        return Err(FixFault::TooWide { strands });
    }
    let mut found = Vec::new(alloc);
    let mut colours = ArrayVec::new();
    append_fixed(alloc, braid, quandle, &mut colours, &mut found)?;
    Ok(found)
}

/// Appends the fixed points that begin with these colours, in lexicographic order.
fn append_fixed(
    alloc: Global,
    braid: &Braid,
    quandle: &Quandle,
    colours: &mut ArrayVec<u8, MAX_STRANDS>,
    found: &mut Vec<Tuple>,
) -> Result<(), FixFault>
    requires strands { length colours.old.items ≤ braid.now.strands }
    requires colours { All (λ y. y < quandle.now.order) colours.old.items }
    ensures colours { OnOk result (colours.new.items ≡ colours.old.items) }
    ensures found { OnOk result (tuples_of found.new.items ≡ tuples_of found.old.items
        ++ filter (is_fixed quandle.now braid.now) (map (λ (rest : List ℕ). colours.old.items ++ rest) (all_tuples quandle.now.order (braid.now.strands - length colours.old.items)))) }
    ensures fault { IfErr result (λ e. e ≡ fault.OutOfMemory) }
{
    if colours.len() == braid.strands() as usize {
        if is_fixed(braid, quandle, colours.as_slice()) {
            found.push(SmallVec::from_slice(alloc, colours.as_slice())?)?;
        }
        return Ok(());
    }
    for colour in 0..quandle.order() {
        colours.push(colour);
        append_fixed(alloc, braid, quandle, colours, found)?;
        colours.pop();
    }
    Ok(())
}

/// Whether the braid's action takes the tuple to itself.
fn is_fixed(braid: &Braid, quandle: &Quandle, colours: &[u8]) -> bool
    requires { IsTuple quandle.now braid.now.strands colours.now }
    ensures { result ≡ is_fixed quandle.now braid.now colours.now }
{
    let _strands = braid.strands();
    let mut image = ArrayVec::<u8, MAX_STRANDS>::new();
    image.try_extend_from_slice(colours).unwrap();
    act(braid, quandle, image.as_mut_slice());
    image.as_slice() == colours
}
