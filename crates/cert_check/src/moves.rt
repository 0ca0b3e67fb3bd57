//! The ruling on a list of moves.
ghost use Rattle.std.specs.Prelude.{◌≡◌, ◌↔◌};
ghost use Rattle.grid_moves.specs.Joining.{Joins};
ghost use Rattle.cert_check.specs.Ruling.{RulesOnVerdict};

use crate::ruling::{Ruling, Why};
use grid_core::Grid;
use grid_moves::{Move, apply_all};
use verdict_core::Verdict;

/// Whether the moves join the first grid to the second: accepted exactly where they do.
/// Otherwise rejected, for the first move that is not legal where it is made or, if all are legal,
/// because they lead to another diagram. It takes no memory, and one pass over the moves.
pub fn check_moves(first: &Grid, second: &Grid, moves: &[Move]) -> Ruling
    ensures ruling { RulesOnVerdict first.now second.now (Verdict.Equal moves.now) result }
    ensures accepted { (result ≡ Ruling.Accepted) ↔ Joins first.now moves.now second.now }
{
    match apply_all(first, moves) {
        Err((place, fault)) => Ruling::Rejected(Why::Step { place, fault }),
        Ok(end) if end.same_as(second) => Ruling::Accepted,
        Ok(_) => Ruling::Rejected(Why::OtherEnd),
    }
}
