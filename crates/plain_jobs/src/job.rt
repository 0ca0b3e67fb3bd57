//! The answer of each plain job.
ghost use Rattle.std.specs.Prelude.{◌≡◌, IfOk};
ghost use Rattle.plain_jobs.specs.Job.{AnswersPlainly};
ghost use Rattle.plain_jobs.specs.TextTruth.{IsTrueText};

use crate::jobs::{
    braid, braidcheck, close, code, colour, grid, linking, numbers, replay, weights,
};
use knot_ports::Status;
use knot_words::PlainJob;
use reply_text::PlainReply;
use std::alloc::{AllocError, Global};

/// The reply of a job to the bytes of its input, of whatever length. The reply names the first bad line, if there is one. What is said with
/// `Done` is true. It returns an error if memory runs out.
pub fn answer(alloc: Global, job: PlainJob, bytes: &[u8]) -> Result<PlainReply, AllocError>
    ensures answer { IfOk result (λ reply. AnswersPlainly job bytes.now reply) }
    ensures claim { IfOk result (λ reply. reply.status ≡ Status.Done → IsTrueText job bytes.now reply.text) }
{
    match job {
        PlainJob::Check => check_job::answer(alloc, bytes),
        PlainJob::Replay => replay::answer(alloc, bytes),
        PlainJob::Colour => colour::answer(alloc, bytes),
        PlainJob::Close => close::answer(alloc, bytes),
        PlainJob::Code => code::answer(alloc, bytes),
        PlainJob::Braid => braid::answer(alloc, bytes),
        PlainJob::Linking => linking::answer(alloc, bytes),
        PlainJob::Braidcheck => braidcheck::answer(alloc, bytes),
        PlainJob::Weights => weights::answer(alloc, bytes),
        PlainJob::Numbers => numbers::answer(alloc, bytes),
        PlainJob::Grid => grid::answer(alloc, bytes),
    }
}
