//! Simplification.
ghost use Rattle.std.specs.Prelude.{◌≤◌, IfOk};
ghost use Rattle.mono_simplify.specs.Simplified.{Simplifies};

use crate::explore::{Explored, explore};
use grid_canon::canonical;
use grid_core::Grid;
use grid_moves::Move;
use memory_core::{Items, OutOfMemory};
use next_moves::Offers;
use std::alloc::Global;

/// Why no more was done.
#[derive(Clone, Copy, PartialEq, Eq)]
pub enum SimpleEnd {
    /// The whole listing of the answered diagram has at most as many members as the budget, and no diagram that shifts and exchanges
    /// reach from it has a legal destabilisation.
    Irreducible,
    /// The listing of the answered diagram has more members than the budget, which is this number, and of its first members, as many as
    /// the budget, none has a translate with a legal destabilisation.
    Spent { members: u32 },
}

/// A simplified diagram.
#[derive(Drop)]
pub struct Simplified {
    /// The diagram; the given one itself where no destabilisation was made.
    pub grid: Grid,
    /// The moves that join the given diagram to it: shifts, exchanges and destabilisations. No diagram on the way is larger than the
    /// given one. There are none where no destabilisation was made.
    pub moves: Items<Move>,
    /// Why no more was done.
    pub end: SimpleEnd,
}

/// Simplifies a diagram by shifts, exchanges and destabilisations. Of each diagram on the way all diagrams that shifts and exchanges
/// reach are listed, up to a budget of at least one; the first destabilisation found is made, and so on. It fails only if memory runs out.
pub fn simplify(alloc: Global, grid: &Grid, budget: u32) -> Result<Simplified, OutOfMemory>
    requires { 1 ≤ budget }
    ensures { IfOk result (λ s. Simplifies grid.now budget s.grid s.moves s.end) }
{
    let first = canonical(grid);
    let mut offers = Offers::of(&first, first.grid.size());
    simplify_by(alloc, grid, budget, &mut offers)
}

/// Simplifies a diagram as `simplify` does, with a list of offers of the caller's, which is renewed for each diagram on the way: what was in it
/// before doesn't matter. So a caller that simplifies more than one diagram can use one list.
pub fn simplify_by(
    alloc: Global,
    grid: &Grid,
    budget: u32,
    offers: &mut Offers,
) -> Result<Simplified, OutOfMemory>
    requires { 1 ≤ budget }
    ensures { IfOk result (λ s. Simplifies grid.now budget s.grid s.moves s.end) }
{
    let mut here = grid.copy();
    let mut moves = Vec::new(alloc);
    loop {
        match explore(alloc, &here, budget, offers)? {
            Explored::Smaller {
                grid: smaller,
                moves: way,
            } => {
                moves.extend_from_slice(way.as_slice())?;
                here = smaller;
            }
            Explored::Whole => return Ok(Simplified {
                grid: here,
                moves: Items::from_vec(moves),
                end: SimpleEnd::Irreducible,
            }),
            Explored::More => return Ok(Simplified {
                grid: here,
                moves: Items::from_vec(moves),
                end: SimpleEnd::Spent { members: budget },
            }),
        }
    }
}
