//! The moves that lead to a member, and on by one link more.
ghost use Rattle.std.specs.Prelude.{◌≡◌, ◌<◌, ◌≤◌, ◌++◌, length, reverse, slice_get, Some, true, IfOk};
ghost use Rattle.std.specs.List.{Contains};
ghost use Rattle.grid_core.specs.Diagram.{Diagram, size};
ghost use Rattle.grid_moves.specs.Joining.{JoinsWithin};
ghost use Rattle.grid_keys.specs.declared.key.Packed.{Packed};
ghost use Rattle.grid_keys.specs.Key.{IsKeyOf};
ghost use Rattle.next_moves.specs.Offers.{Leads};
ghost use Rattle.mono_simplify.specs.ExchangeClass.{is_shift_or_exchange, AreShiftsAndExchanges};
ghost use Rattle.mono_simplify.specs.Simplified.{is_monotonic, AreMonotonic};
ghost use Rattle.mono_simplify.specs.Ways.{keys_in, AreLinked};

use crate::class::Class;
use grid_canon::canonical;
use grid_core::Grid;
use grid_keys::push_shifts_back;
use grid_moves::Move;
use memory_core::OutOfMemory;
use next_moves::{Link, push_link_back};
use std::alloc::Global;

/// The moves that lead from a grid to the member of its class at a place, and from there by the last link to another diagram, which
/// is not larger.
pub fn way_to(
    alloc: Global,
    grid: &Grid,
    class: &Class,
    place: usize,
    last: Link,
) -> Result<Vec<Move>, OutOfMemory>
    requires place { place < length class.now }
    requires ways { AreLinked grid.now class.now }
    ensures last { IfOk result (λ moves. Contains moves.items last.step) }
    ensures kept { IfOk result (λ moves. is_monotonic last.step ≡ true → AreMonotonic moves.items) }
    ensures exchanges { IfOk result (λ moves. is_shift_or_exchange last.step ≡ true → AreShiftsAndExchanges moves.items) }
    ensures joined { IfOk result (λ moves. (key : Packed) (member to : Diagram)
        → slice_get (keys_in class.now) place ≡ Some key
        → IsKeyOf key member
        → size member ≡ size grid.now
        → Leads member last to
        → size to ≤ size grid.now
        → JoinsWithin (size grid.now) grid.now moves.items to) }
{
    let _size = grid.size();
    let mut back = Vec::new(alloc);
    push_link_back(&mut back, last)?;
    let mut here = place;
    while here > 0 {
        let origin = class.origin_at(here);
        push_link_back(&mut back, origin.link)?;
        here = origin.parent as usize;
    }
    let form = canonical(grid);
    push_shifts_back(&mut back, form.columns, form.rows)?;
    back.reverse();
    Ok(back)
}
