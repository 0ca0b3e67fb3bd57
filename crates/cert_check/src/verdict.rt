//! The ruling on a verdict.
ghost use Rattle.std.specs.Prelude.{◌≡◌, ◌↔◌, IfOk, IsErr};
ghost use Rattle.verdict_core.specs.Diagrams.{grid_of};
ghost use Rattle.verdict_core.specs.Evidence.{VerdictHolds, Claims, HasLists};
ghost use Rattle.cert_check.specs.Ruling.{RulesOnVerdict};

use crate::lists::check_lists;
use crate::moves::check_moves;
use crate::ruling::{Ruling, Why};
use memory_core::OutOfMemory;
use std::alloc::Global;
use verdict_core::{ProblemText, Verdict};

/// Whether the evidence of a verdict on two diagrams holds: accepted exactly where it does, else rejected for the first cause.
///
/// `Equal`: the moves join the first diagram to the second, so the two are equivalent. `Different`: the quandle, which needn't
/// be one of the problem's, fits both diagrams, the lists are their complete lists of colourings, and these have different
/// lengths; so the two are not equivalent. An unknown verdict has no evidence.
///
/// Memory is needed only for lists of colourings, for the complete list of one diagram at a time.
pub fn check(alloc: Global, problem: &ProblemText, verdict: &Verdict) -> Result<Ruling, OutOfMemory>
    ensures ruling { IfOk result (λ r. RulesOnVerdict (grid_of problem.now.first) (grid_of problem.now.second) verdict.now r) }
    ensures accepted { IfOk result (λ r. (r ≡ Ruling.Accepted) ↔ VerdictHolds (grid_of problem.now.first) (grid_of problem.now.second) verdict.now) }
    ensures claim { IfOk result (λ r. r ≡ Ruling.Accepted → Claims (grid_of problem.now.first) (grid_of problem.now.second) verdict.now) }
    ensures memory { IsErr result → HasLists verdict.now }
{
    let first = problem.first.grid();
    let second = problem.second.grid();
    match verdict {
        Verdict::Equal(moves) => Ok(check_moves(&first, &second, moves.as_slice())),
        Verdict::Different {
            listed,
            first: one,
            second: two,
        } => check_lists(
            alloc,
            &first,
            &second,
            listed,
            one.as_slice(),
            two.as_slice(),
        ),
        Verdict::UnknownBudget { .. } | Verdict::UnknownExhausted { .. } => {
            Ok(Ruling::Rejected(Why::NoEvidence))
        }
    }
}
