//! The least diagram of a class.
ghost use Rattle.std.specs.Prelude.{◌≡◌, ◌<◌, ◌≤◌, length, slice_get, Some, IfOk};
ghost use Rattle.grid_core.specs.Diagram.{Diagram, size};
ghost use Rattle.grid_moves.specs.Joining.{JoinsWithin};
ghost use Rattle.grid_keys.specs.declared.key.Packed.{Packed};
ghost use Rattle.grid_keys.specs.Key.{IsKeyOf};
ghost use Rattle.mono_simplify.specs.ExchangeClass.{AreShiftsAndExchanges};
ghost use Rattle.mono_simplify.specs.Ways.{keys_in, AreLinked};
ghost use Rattle.mono_simplify.specs.Least.{FindsLeast};

use crate::class::Class;
use crate::listing::list_class;
use crate::places::least_place;
use crate::way::way_to;
use grid_canon::canonical;
use grid_core::Grid;
use grid_keys::{grid_of, push_shifts};
use grid_moves::Move;
use memory_core::{Items, OutOfMemory};
use next_moves::Offers;
use std::alloc::Global;

/// Whether the whole class was seen.
#[derive(Clone, Copy, PartialEq, Eq)]
pub enum LeastEnd {
    /// The class has at most as many members as the budget, and the answered diagram is the least that shifts and exchanges reach.
    Whole,
    /// The listing of the class has more members than the budget, which is this number, and the answered diagram is the least of its
    /// first members, as many as the budget.
    Spent { members: u32 },
}

/// The least diagram that was seen.
#[derive(Drop)]
pub struct LeastGrid {
    /// The diagram, which is canonical.
    pub grid: Grid,
    /// The moves that join the given diagram to it: shifts and exchanges, in order.
    pub moves: Items<Move>,
    /// Whether the whole class was seen.
    pub end: LeastEnd,
}

/// The least canonical diagram that shifts and exchanges reach from a grid: least by the rows of the Xs, and then by those of the Os. The
/// canonical diagrams that they reach are listed, breadth first, up to a budget of at least one. It fails only if memory runs out.
pub fn least_grid(alloc: Global, grid: &Grid, budget: u32) -> Result<LeastGrid, OutOfMemory>
    requires { 1 ≤ budget }
    ensures { IfOk result (λ l. FindsLeast grid.now budget l.grid l.moves l.end) }
{
    let first = canonical(grid);
    let mut offers = Offers::of(&first, first.grid.size());
    least_grid_by(alloc, grid, budget, &mut offers)
}

/// Does as `least_grid`, with a list of offers of the caller's, which is renewed for each member: what was in it before doesn't matter.
/// So a caller that asks for more than one diagram can use one list.
pub fn least_grid_by(
    alloc: Global,
    grid: &Grid,
    budget: u32,
    offers: &mut Offers,
) -> Result<LeastGrid, OutOfMemory>
    requires { 1 ≤ budget }
    ensures { IfOk result (λ l. FindsLeast grid.now budget l.grid l.moves l.end) }
{
    let _size = grid.size();
    let seen = list_class(alloc, grid, budget, offers)?;
    let place = least_place(&seen.class);
    let moves = way_to_member(alloc, grid, &seen.class, place)?;
    Ok(LeastGrid {
        grid: grid_of(seen.class.key_at(place)),
        moves: Items::from_vec(moves),
        end: seen.end,
    })
}

/// The moves that lead from a grid to the member of its class at a place.
fn way_to_member(
    alloc: Global,
    grid: &Grid,
    class: &Class,
    place: usize,
) -> Result<Vec<Move>, OutOfMemory>
    requires place { place < length class.now }
    requires ways { AreLinked grid.now class.now }
    ensures exchanges { IfOk result (λ moves. AreShiftsAndExchanges moves.items) }
    ensures joined { IfOk result (λ moves. (key : Packed) (member : Diagram)
        → slice_get (keys_in class.now) place ≡ Some key
        → IsKeyOf key member
        → size member ≡ size grid.now
        → JoinsWithin (size grid.now) grid.now moves.items member) }
{
    let _size = grid.size();
    if place == 0 {
        let form = canonical(grid);
        let mut moves = Vec::new(alloc);
        push_shifts(&mut moves, form.columns, form.rows)?;
        return Ok(moves);
    }
    let origin = class.origin_at(place);
    let moves = way_to(alloc, grid, class, origin.parent as usize, origin.link)?;
    Ok(moves)
}
