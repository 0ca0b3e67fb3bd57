//! Links and offers.
ghost use Rattle.std.specs.Prelude.{◌≡◌, ◌++◌, reverse, IfOk, OnErr};
ghost use Rattle.grid_moves.specs.PutsPart.{PutsPart};
ghost use Rattle.next_moves.specs.Links.{link_moves};

use grid_keys::{Packed, push_shifts, push_shifts_back};
use grid_moves::Move;
use memory_core::OutOfMemory;

/// One way from a canonical diagram to a neighbour: the shifts before, the move, and the shifts after.
/// Each pair is a shift of columns and a shift of rows, of which 0 means none.
#[derive(Clone, Copy, PartialEq, Eq)]
pub struct Link {
    /// The shifts of columns and of rows before the move, each from 0 to n - 1 for a diagram of n columns.
    pub before: (u8, u8),
    /// The move, which is no shift.
    pub step: Move,
    /// The shifts of columns and of rows after the move: the least pair that reaches the canonical form.
    pub after: (u8, u8),
}

/// The blank with which an array of offers begins: no move.
impl Default for Link {
    ghost use Rattle.std.specs.Prelude.{◌≡◌};
    ghost use Rattle.grid_moves.specs.declared.step.Move.TheVariants.{ShiftColumns};

    ghost is_default = { λ l. l ≡ record { before = (0, 0); step = ShiftColumns 0; after = (0, 0) } };

    fn default() -> Link {
        Link {
            before: (0, 0),
            step: Move::ShiftColumns(0),
            after: (0, 0),
        }
    }
}

/// A neighbour by its key, and the link that leads to it.
#[derive(Clone, Copy, Default, PartialEq, Eq)]
pub struct Offer {
    /// The key of the neighbour, which is a canonical diagram.
    pub key: Packed,
    /// The way that leads there.
    pub link: Link,
}

/// Puts the moves of a link at the end of a list. Where there is no memory for all of them, the first few may be after the old
/// list, and nothing else.
#[tactic(auto, using(crate::proofs::PutLinks::link_ahead, crate::proofs::PutLinks::link_between, crate::proofs::PutLinks::link_last))]
pub fn push_link(list: &mut Vec<Move>, link: Link) -> Result<(), OutOfMemory>
    ensures list { IfOk result (λ _. list.new.items ≡ list.old.items ++ link_moves link) }
    ensures part { OnErr result (PutsPart list.old.items list.new.items (link_moves link)) }
{
    push_shifts(list, link.before.0, link.before.1)?;
    list.push(link.step)?;
    push_shifts(list, link.after.0, link.after.1)
}

/// Puts the moves of a link at the end of a list, the last one first. Where there is no memory for all of them, the first few of
/// these may be after the old list, and nothing else.
#[tactic(auto, using(crate::proofs::PutLinks::back_ahead, crate::proofs::PutLinks::back_between, crate::proofs::PutLinks::back_last))]
pub fn push_link_back(list: &mut Vec<Move>, link: Link) -> Result<(), OutOfMemory>
    ensures list { IfOk result (λ _. list.new.items ≡ list.old.items ++ reverse (link_moves link)) }
    ensures part { OnErr result (PutsPart list.old.items list.new.items (reverse (link_moves link))) }
{
    push_shifts_back(list, link.after.0, link.after.1)?;
    list.push(link.step)?;
    push_shifts_back(list, link.before.0, link.before.1)
}
