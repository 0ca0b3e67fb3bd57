//! Walks of moves from a seed.
ghost use Rattle.std.specs.Prelude.{◌≡◌, ◌≤◌, IfOk, length};
ghost use Rattle.grid_core.specs.Diagram.{Diagram, size};
ghost use Rattle.grid_moves.specs.Step.{Step};
ghost use Rattle.grid_moves.specs.Joining.{JoinsWithin};
ghost use Rattle.std.specs.List.{Contains};
ghost use Rattle.search_jobs.specs.Candidates.{candidate_moves};
ghost use Rattle.grid_core.specs.Trefoils.{right_trefoil};
ghost use Rattle.search_jobs.specs.Walk.{seed_words, Picks, Walks};

use crate::candidates::candidates;
use grid_core::Grid;
use grid_moves::{Move, apply};
use memory_core::OutOfMemory;
use rand_core::utils::NextWord;
use rand_pcg::Pcg32;
use std::alloc::Global;

/// The greatest size of a diagram on a walk.
pub const LARGEST: usize = 10;

/// The number of turns of a walk.
pub const TURNS: usize = 200;

/// The stream of the generator.
pub const STREAM: u64 = 54;

/// The moves of the walk of a seed, from the right trefoil `x 4 3 2 1 0 / o 2 1 0 4 3`; or an error if memory runs out.
///
/// The walk has `TURNS` turns. In each one word w is drawn from `Pcg32::new(seed, STREAM)`, and of the legal moves whose
/// result has at most `LARGEST` columns the one at the place w mod their number is made. They are counted in this order:
/// shifts of columns and shifts of rows, exchanges of columns and exchanges of rows, each from the least;
/// destabilisations by column and row; stabilisations by column, kind (X, O) and corner (low left, low right, high left,
/// high right).
pub fn sample_walk(alloc: Global, seed: u64) -> Result<Vec<Move>, OutOfMemory>
    ensures walk { IfOk result (λ v. (last : Diagram) × (Walks right_trefoil (seed_words seed) v.items last × JoinsWithin LARGEST right_trefoil v.items last)) }
    ensures count { IfOk result (λ v. length v.items ≡ TURNS) }
{
    let mut moves = Vec::with_capacity(alloc, TURNS)?;
    let mut generator = Pcg32::new(seed, STREAM);
    let mut here = right_trefoil();
    for _turn in 0..TURNS {
        let step = picked(&here, generator.next_word());
        here = moved(&here, step);
        moves.push_reserved(step);
    }
    Ok(moves)
}

/// The candidate that a word picks on a grid.
fn picked(grid: &Grid, word: u32) -> Move
    requires { size grid.now ≤ LARGEST }
    ensures { Picks grid.now word result }
{
    let _size = grid.size();
    let list = candidates(grid);
    let place = word as usize % list.len();
    list[place].step
}

/// The grid after a candidate.
fn moved(grid: &Grid, step: Move) -> Grid
    requires { Contains (candidate_moves grid.now) step }
    ensures moved { Step grid.now step result }
    ensures small { size result ≤ LARGEST }
{
    match apply(grid, step) {
        Ok(moved) => moved,
        Err(_) => unreachable!(),
    }
}

/// Where each walk starts.
pub(crate) fn right_trefoil() -> Grid
    ensures { result ≡ right_trefoil }
{
    match Grid::new(&[4, 3, 2, 1, 0], &[2, 1, 0, 4, 3]) {
        Ok(grid) => grid,
        Err(_) => unreachable!(),
    }
}
