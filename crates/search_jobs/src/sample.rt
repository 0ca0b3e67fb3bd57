//! The job `sample`: the walk of a seed, checked and coloured.
ghost use Rattle.std.specs.Prelude.{IfOk};
ghost use Rattle.search_jobs.specs.Sample.{AnswersSample};

use crate::text::sample_text;
use knot_ports::Status;
use reply_text::PlainReply;
use std::alloc::{AllocError, Global};

/// The reply to a seed: its walk, checked and coloured. There is no input. It fails only if memory runs out.
pub fn answer(alloc: Global, seed: u64) -> Result<PlainReply, AllocError>
    ensures { IfOk result (λ reply. AnswersSample seed reply) }
{
    match sample_text(alloc, seed) {
        Ok(text) => Ok(PlainReply::new(Status::Done, text)),
        Err(_) => Err(AllocError),
    }
}
