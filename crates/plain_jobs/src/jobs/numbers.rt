//! The job `numbers`: how many colourings a diagram has by the listed quandles, and by cocycles how many of each weight.
ghost use Rattle.std.specs.Prelude.{IfOk};
ghost use Rattle.number_text.specs.Numbered.{numbers_of};
ghost use Rattle.reply_text.specs.Reply.{AnswersRead};
ghost use Rattle.plain_jobs.specs.Jobs.Numbers.{AnswersNumbers};

use certificates::numbers_text;
use knot_ports::Status;
use number_text::{NumbersText, read_numbers};
use reply_text::PlainReply;
use std::alloc::{AllocError, Global};

/// The answer to the bytes of a diagram and blocks.
pub(crate) fn answer(alloc: Global, bytes: &[u8]) -> Result<PlainReply, AllocError>
    ensures { IfOk result (λ reply. AnswersRead AnswersNumbers (numbers_of bytes.now) reply) }
{
    match read_numbers(alloc, bytes) {
        Ok(input) => answer_input(alloc, &input),
        Err(fault) => PlainReply::to_fault(alloc, fault),
    }
}

/// The answer to a diagram and blocks.
fn answer_input(alloc: Global, input: &NumbersText) -> Result<PlainReply, AllocError>
    ensures { IfOk result (λ reply. AnswersNumbers input.now reply) }
{
    let text = numbers_text(alloc, &input.diagram.grid(), input.blocks.as_slice())?;
    Ok(PlainReply::new(Status::Done, text))
}
