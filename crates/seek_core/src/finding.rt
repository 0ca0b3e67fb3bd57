//! The search for what can be said of two diagrams: in rounds, by cost and yield.
ghost use Rattle.std.specs.Prelude.{IfOk, IfSome};
ghost use Rattle.std.specs.List.{All};
ghost use Rattle.knot_text.specs.Printed.{HasQuandleText};
ghost use Rattle.certificate_check.specs.Decision.{IsFindingOf};
ghost use Rattle.seek_core.specs.Found.{IsVerdictOn, IsFoundOn, IsSearchOf};
ghost use Rattle.seek_core.specs.Sizes.{smaller_blocks, as_tried};

use crate::blocks::Blocks;
use crate::bounds::{Bounds, Resources, SHORT_STEPS};
use crate::candidates::candidates;
use crate::pair::Pair;
use meeting_walks::Watch;
use memory_core::OutOfMemory;
use number_search::{SeedPair, count_fitting};
use number_text::{Block, Said};
use std::alloc::Global;
use std::thread::Threads;
use verdict_core::{Listed, ProblemText, Verdict};

/// How many of the quandles are tried before the blocks.
pub const FIRST_QUANDLES: usize = 16;

/// What a search came to, and what was tried in it.
#[derive(Drop)]
pub struct SearchOutcome {
    /// What can be said of the two diagrams, if anything was found.
    pub said: Option<Said>,
    /// The quandles that fit both diagrams, in the order in which they were tried; after one that separates them none was tried.
    pub quandles: Vec<Listed>,
    /// How many of the blocks fit the seeds of both diagrams.
    pub blocks: usize,
}

/// Looks for what can be said of the two diagrams of a problem, the cheapest first, in these rounds:
///
/// 1. their linking numbers;
/// 2. the first `FIRST_QUANDLES` of the quandles that fit both, which are those of the problem and then those by formula;
/// 3. the blocks of at most `MAX_ORDER` colours that fit the seeds of both;
/// 4. walks of at most `SHORT_STEPS` steps;
/// 5. the other quandles;
/// 6. walks within the bounds;
/// 7. the blocks of more than `MAX_ORDER` colours that fit the seeds of both, which cost most.
///
/// So it ends with evidence by numbers, with the verdict `different` by the first quandle that separates them, or with `equal` by a list of moves.
/// Nothing is proved of what the walks find, and the watch has no influence on it. It fails only if memory runs out.
pub fn find<R: Threads + Sync, W: Watch>(
    resources: &Resources<'_, R>,
    problem: &ProblemText,
    blocks: &Blocks,
    watch: &mut W,
) -> Result<SearchOutcome, OutOfMemory>
    requires { All HasQuandleText problem.now.quandles }
    ensures search { IfOk result (λ s. IsSearchOf problem.now blocks.now s) }
    ensures finding { IfOk result (λ s. IfSome s.said (λ x. IsFindingOf problem.now x)) }
{
    let alloc = resources.alloc;
    let first = problem.first.grid();
    let second = problem.second.grid();
    let _sizes = (first.size(), second.size());
    let quandles = candidates(alloc, &first, &second, problem.quandles.as_slice())?;
    let seeds = SeedPair::of(alloc, &first, &second)?;
    let given = blocks.as_slice();
    let pair = Pair::new(&first, &second, &seeds);
    let said = said_of(resources, &pair, quandles.as_slice(), given, watch)?;
    Ok(SearchOutcome {
        said,
        quandles,
        blocks: count_fitting(&seeds, given),
    })
}

/// What can be said of two diagrams, if anything is found in one of the rounds.
fn said_of<R: Threads + Sync, W: Watch>(
    resources: &Resources<'_, R>,
    pair: &Pair,
    quandles: &[Listed],
    blocks: &[Block],
    watch: &mut W,
) -> Result<Option<Said>, OutOfMemory>
    requires { All HasQuandleText quandles.now }
    ensures { IfOk result (λ o. IsFoundOn pair.now quandles.now (as_tried blocks.now) o) }
{
    let said = said_before_larger(resources, pair, quandles, blocks, watch)?;
    if said.is_some() {
        return Ok(said);
    }
    match pair.told_by_larger(resources.alloc, blocks)? {
        Some(evidence) => Ok(Some(Said::Evidence(evidence))),
        None => Ok(None),
    }
}

/// What can be said of two diagrams, if anything is found in rounds 1 to 6, before the larger blocks are tried.
fn said_before_larger<R: Threads + Sync, W: Watch>(
    resources: &Resources<'_, R>,
    pair: &Pair,
    quandles: &[Listed],
    blocks: &[Block],
    watch: &mut W,
) -> Result<Option<Said>, OutOfMemory>
    requires { All HasQuandleText quandles.now }
    ensures { IfOk result (λ o. IsFoundOn pair.now quandles.now (smaller_blocks blocks.now) o) }
{
    let (front, others) = quandles.split_at(FIRST_QUANDLES.min(quandles.len()));
    let told = told_first(resources.alloc, pair, front, blocks)?;
    if told.is_some() {
        return Ok(told);
    }
    match verdict_on(resources, pair, others, watch)? {
        Some(verdict) => Ok(Some(Said::Verdict(verdict))),
        None => Ok(None),
    }
}

/// What distinguishes two diagrams in the first three rounds: linking numbers, the first quandles, and the smaller blocks.
fn told_first(
    alloc: Global,
    pair: &Pair,
    quandles: &[Listed],
    blocks: &[Block],
) -> Result<Option<Said>, OutOfMemory>
    ensures { IfOk result (λ o. IsFoundOn pair.now quandles.now (smaller_blocks blocks.now) o) }
{
    if let Some(evidence) = pair.told_by_linking(alloc)? {
        return Ok(Some(Said::Evidence(evidence)));
    }
    if let Some(verdict) = pair.separation(alloc, quandles)? {
        return Ok(Some(Said::Verdict(verdict)));
    }
    match pair.told_by_smaller(alloc, blocks)? {
        Some(evidence) => Ok(Some(Said::Evidence(evidence))),
        None => Ok(None),
    }
}

/// The verdict of rounds 4 to 6: `equal` by the short walk, `different` by the first of the quandles that separates two diagrams, or `equal` by the
/// long walks.
fn verdict_on<R: Threads + Sync, W: Watch>(
    resources: &Resources<'_, R>,
    pair: &Pair,
    quandles: &[Listed],
    watch: &mut W,
) -> Result<Option<Verdict>, OutOfMemory>
    requires { All HasQuandleText quandles.now }
    ensures { IfOk result (λ o. IsVerdictOn pair.now quandles.now o) }
{
    let joined = pair.joining(resources, resources.bounds.short(), watch)?;
    if joined.is_some() {
        return Ok(joined);
    }
    let told = pair.separation(resources.alloc, quandles)?;
    if told.is_some() {
        return Ok(told);
    }
    if resources.bounds.walks.steps <= SHORT_STEPS {
        return Ok(None);
    }
    pair.joining(resources, resources.bounds, watch)
}
