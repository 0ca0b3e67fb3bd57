//! The decision on a problem.
ghost use Rattle.std.specs.Prelude.{◌≡◌, ◌≤◌, ◌≢◌, Some, None, IfOk};
ghost use Rattle.verdict_core.specs.Evidence.{Claims, VerdictHolds, HasEvidence, IsTidyVerdict};
ghost use Rattle.search_book.specs.Bounded.{IsBounded};
ghost use Rattle.search_book.specs.Ended.{Shows};
ghost use Rattle.search_pool.specs.declared.many.TheConstants.{MAX_WORKERS};
ghost use Rattle.search_pool.specs.Finding.{IsFinding};
ghost use Rattle.search_pool.specs.InTurn.{AreInTurn};
ghost use Rattle.pair_verdict.specs.Searched.{AreSimplified, searched};
ghost use Rattle.pair_verdict.specs.Decided.{Decides, IsVerdictAt, JoinsWhereEqual};

use crate::searched::SimplifiedPair;
use crate::separating::told_apart;
use grid_canon::canonical;
use memory_core::{Items, OutOfMemory};
use next_moves::Offers;
use search_book::{Book, End, Problem};
use search_pool::{Finding, Gate, alone_by, pool};
use std::alloc::Global;
use std::sync::Wait;
use std::thread::Threads;
use verdict_core::{Listed, Verdict};

/// A verdict, and the search that it came from, if there was one.
#[derive(Drop)]
pub struct Decision {
    pub verdict: Verdict,
    pub kept: Option<Finding>,
}

impl Decision {
    /// What a search of the simplified diagrams that is over comes to.
    fn searched(
        alloc: Global,
        given: &Problem,
        pair: SimplifiedPair,
        finding: Finding,
    ) -> Result<Decision, OutOfMemory>
        requires bounded { IsBounded given.now }
        requires simplified { AreSimplified given.now pair.first pair.second }
        requires problem { finding.book.problem ≡ searched given.now pair.first pair.second }
        requires over { finding.book.end ≢ None }
        ensures kept { IfOk result (λ d. d.kept ≡ Some finding) }
        ensures verdict { IfOk result (λ d. IsVerdictAt given.now pair.first pair.second finding.book finding.book.end d.verdict) }
        ensures joins { IfOk result (λ d. JoinsWhereEqual given.now d.verdict) }
    {
        Ok(Decision {
            verdict: verdict_of(alloc, given, pair, &finding.book)?,
            kept: Some(finding),
        })
    }
}

/// The verdict on the two diagrams of a problem. `Different` by the first listed quandle that separates them, with both
/// complete lists of colourings; a quandle that does not fit both is passed over. Where none separates them, each diagram is
/// simplified with the budget of the problem, and the verdict is what a search between the simplified diagrams comes to, within
/// the same cap and with the same budget: `Equal` with moves that join the given diagrams (the first simplification's, those that
/// the search found, the second simplification's undone; the whole list tidied), no diagram on the way larger than the cap;
/// `UnknownBudget` only where moves within the cap reach more diagrams than the budget; `UnknownExhausted` only where they do not join the two, with the
/// number that they reach, which is at most the budget. The search is handed out with the verdict.
///
/// One worker searches as `alone` does and passes no gate, 2 to `MAX_WORKERS` by `pool`, and all this holds however they
/// interleave, where the call returns. Both sizes are at most the cap, the cap is at most `MAX_SIZE`, and the budget is from 2 to `MAX_BUDGET`.
pub fn decide<R: Threads + Wait + Sync, G: Gate + Sync>(
    rt: &R,
    alloc: Global,
    problem: Problem,
    quandles: &[Listed],
    workers: u32,
    gate: &G,
) -> Result<Decision, OutOfMemory>
    requires bounded { IsBounded problem }
    requires some { 1 ≤ workers }
    requires workers { workers ≤ MAX_WORKERS }
    ensures decides { IfOk result (λ d. Decides problem quandles.now workers d.verdict d.kept) }
    ensures claims { IfOk result (λ d. Claims problem.first problem.second d.verdict) }
    ensures holds { IfOk result (λ d. HasEvidence d.verdict → VerdictHolds problem.first problem.second d.verdict) }
    ensures tidy { IfOk result (λ d. IsTidyVerdict d.verdict) }
{
    if workers == 1 {
        return decide_alone(alloc, problem, quandles);
    }
    if let Some(verdict) = told_apart(alloc, &problem.first, &problem.second, quandles)? {
        return Ok(Decision {
            verdict,
            kept: None,
        });
    }
    let pair = simplified(alloc, &problem)?;
    let finding = pool(rt, alloc, pair.problem(&problem), workers, gate)?;
    Decision::searched(alloc, &problem, pair, finding)
}

/// What `decide` does with one worker. It takes no runtime, waits for nobody, and returns.
pub fn decide_alone(
    alloc: Global,
    problem: Problem,
    quandles: &[Listed],
) -> Result<Decision, OutOfMemory>
    requires { IsBounded problem }
    ensures decides { IfOk result (λ d. Decides problem quandles.now 1 d.verdict d.kept) }
    ensures claims { IfOk result (λ d. Claims problem.first problem.second d.verdict) }
    ensures holds { IfOk result (λ d. HasEvidence d.verdict → VerdictHolds problem.first problem.second d.verdict) }
    ensures tidy { IfOk result (λ d. IsTidyVerdict d.verdict) }
{
    if let Some(verdict) = told_apart(alloc, &problem.first, &problem.second, quandles)? {
        return Ok(Decision {
            verdict,
            kept: None,
        });
    }
    let (pair, finding) = search_alone(alloc, &problem)?;
    Decision::searched(alloc, &problem, pair, finding)
}

/// The diagrams of a problem, simplified, and what a search of these by one worker leaves; all by one list of offers, which lies in this
/// call's own frame: in that of a caller that may return before, the frame of a list would be cleared first.
#[inline(never)]
fn search_alone(alloc: Global, problem: &Problem) -> Result<(SimplifiedPair, Finding), OutOfMemory>
    requires { IsBounded problem.now }
    ensures simplified { IfOk result (λ r. AreSimplified problem.now r.0.first r.0.second) }
    ensures finding { IfOk result (λ r. IsFinding (searched problem.now r.0.first r.0.second) r.1) }
    ensures in_turn { IfOk result (λ r. AreInTurn 0 r.1.book.history) }
    ensures shows { IfOk result (λ r. (end : End) → r.1.book.end ≡ Some end → Shows r.1.book end) }
{
    let first = canonical(&problem.first);
    let mut offers = Offers::of(&first, first.grid.size());
    let pair = SimplifiedPair::of(alloc, problem, &mut offers)?;
    let finding = alone_by(alloc, pair.problem(problem), &mut offers)?;
    Ok((pair, finding))
}

/// The diagrams of a problem, simplified, by a list of offers that lies in this call's own frame, likewise: so none is kept while the workers
/// search.
#[inline(never)]
fn simplified(alloc: Global, problem: &Problem) -> Result<SimplifiedPair, OutOfMemory>
    requires { 1 ≤ problem.now.budget }
    ensures { IfOk result (λ pair. AreSimplified problem.now pair.first pair.second) }
{
    let first = canonical(&problem.first);
    let mut offers = Offers::of(&first, first.grid.size());
    SimplifiedPair::of(alloc, problem, &mut offers)
}

/// What the end of a book of the simplified diagrams comes to.
fn verdict_of(
    alloc: Global,
    given: &Problem,
    pair: SimplifiedPair,
    book: &Book,
) -> Result<Verdict, OutOfMemory>
    requires bounded { IsBounded given.now }
    requires simplified { AreSimplified given.now pair.first pair.second }
    requires problem { book.now.problem ≡ searched given.now pair.first pair.second }
    requires over { book.now.end ≢ None }
    ensures verdict { IfOk result (λ v. IsVerdictAt given.now pair.first pair.second book.now book.now.end v) }
    ensures joins { IfOk result (λ v. JoinsWhereEqual given.now v) }
{
    match book.end() {
        Some(End::Met(_)) => match book.joined(alloc)? {
            Some(between) => {
                let list = pair.tidy_list(alloc, given, between.as_slice())?;
                Ok(Verdict::Equal(Items::from_vec(list)))
            }
            None => unreachable!(),
        },
        Some(End::Spent { .. }) => Ok(Verdict::UnknownBudget {
            budget: given.budget,
        }),
        Some(End::Exhausted) => Ok(Verdict::UnknownExhausted {
            cap: u32::from(given.cap),
            admitted: book.len(),
        }),
        None => unreachable!(),
    }
}
