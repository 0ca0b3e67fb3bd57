//! Which job answers an input.
ghost use Rattle.std.specs.Prelude.{◌≡◌, IfOk};
ghost use Rattle.knot_words.specs.Words.{IsWithinBounds};
ghost use Rattle.knot_jobs.specs.Answer.{AnswersText};
ghost use Rattle.knot_jobs.specs.ReplyTruth.{IsTrueIfDone};

use knot_words::{Asked, Job};
use search_jobs::{Reply, decide, least, sample, simplify};
use search_pool::Gate;
use std::alloc::{AllocError, Global};
use std::sync::Wait;
use std::thread::Threads;

/// The answer of the job that is asked for to the bytes of an input that is not too long. The gate is for `decide`.
pub(crate) fn answer<R: Threads + Wait + Sync, G: Gate + Sync>(
    rt: &R,
    alloc: Global,
    asked: &Asked,
    bytes: &[u8],
    gate: &G,
) -> Result<Reply, AllocError>
    requires bounds { IsWithinBounds asked.now }
    ensures answer { IfOk result (λ reply. AnswersText asked.now bytes.now reply) }
    ensures claim { IfOk result (λ reply. IsTrueIfDone asked.now.job bytes.now reply) }
{
    match asked.job {
        Job::Decide => decide::answer(rt, alloc, asked, bytes, gate),
        _ => answer_alone(alloc, asked, bytes),
    }
}

/// The answer of the job that is asked for, of `decide` with one worker, to the bytes of an input that is not too long.
pub(crate) fn answer_alone(alloc: Global, asked: &Asked, bytes: &[u8]) -> Result<Reply, AllocError>
    requires bounds { IsWithinBounds asked.now }
    requires one { asked.now.job ≡ Job.Decide → asked.now.workers ≡ 1 }
    ensures answer { IfOk result (λ reply. AnswersText asked.now bytes.now reply) }
    ensures claim { IfOk result (λ reply. IsTrueIfDone asked.now.job bytes.now reply) }
{
    match asked.job {
        Job::Decide => decide::answer_alone(alloc, asked, bytes),
        Job::Simplify => Ok(Reply::without_search(simplify::answer(alloc, asked, bytes)?)),
        Job::Least => Ok(Reply::without_search(least::answer(alloc, asked, bytes)?)),
        Job::Sample => Ok(Reply::without_search(sample::answer(alloc, asked.seed)?)),
        Job::Plain(job) => Ok(Reply::without_search(plain_jobs::answer(alloc, job, bytes)?)),
    }
}
