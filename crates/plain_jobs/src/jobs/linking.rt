//! The job `linking`: the linking numbers of two diagrams, and whether they differ.
ghost use Rattle.std.specs.Prelude.{◌≡◌, IfOk};
ghost use Rattle.grid_moves.specs.Joining.{Equivalent};
ghost use Rattle.verdict_core.specs.Diagrams.{grid_of};
ghost use Rattle.knot_text.specs.Pairs.{pair_of};
ghost use Rattle.plain_jobs.specs.Comparison.{EndsDifferent};
ghost use Rattle.reply_text.specs.Reply.{AnswersRead};
ghost use Rattle.plain_jobs.specs.Jobs.Linking.{linking_text, AnswersLinking};
ghost use Rattle.plain_jobs.specs.TextTruth.{IsTrueLinking};

use crate::comparison::push_comparison;
use grid_core::Grid;
use knot_ports::Status;
use knot_text::{Diagram, push_letter_line, read_pair};
use linking_core::linking;
use memory_core::OutOfMemory;
use reply_text::PlainReply;
use std::alloc::{AllocError, Global};
use weight_laws::linking::equivalent_diagrams_have_equal_linking_numbers;

/// The answer to the bytes of two diagrams.
pub(crate) fn answer(alloc: Global, bytes: &[u8]) -> Result<PlainReply, AllocError>
    ensures answer { IfOk result (λ reply. AnswersRead AnswersLinking (pair_of bytes.now) reply) }
    ensures claim { IfOk result (λ reply. reply.status ≡ Status.Done → IsTrueLinking bytes.now reply.text) }
{
    match read_pair(alloc, bytes) {
        Ok((first, second)) => answer_pair(alloc, &first, &second),
        Err(fault) => PlainReply::to_fault(alloc, fault),
    }
}

/// The answer to two diagrams.
fn answer_pair(alloc: Global, first: &Diagram, second: &Diagram) -> Result<PlainReply, AllocError>
    ensures answer { IfOk result (λ reply. AnswersLinking (first.now, second.now) reply) }
    ensures claim { IfOk result (λ reply. EndsDifferent reply.text → Equivalent (grid_of first.now) (grid_of second.now) → ⊥) }
{
    equivalent_diagrams_have_equal_linking_numbers();
    match linking_text(alloc, &first.grid(), &second.grid()) {
        Ok(text) => Ok(PlainReply::new(Status::Done, text)),
        Err(_) => Err(AllocError),
    }
}

/// The text of the linking numbers of two grids, and whether they differ.
fn linking_text(alloc: Global, first: &Grid, second: &Grid) -> Result<Vec<u8>, OutOfMemory>
    ensures { IfOk result (λ v. v.items ≡ linking_text first.now second.now) }
{
    let one = linking(alloc, first)?;
    let two = linking(alloc, second)?;
    let mut out = Vec::new(alloc);
    push_letter_line(&mut out, b"numbers", one.as_slice())?;
    push_letter_line(&mut out, b"numbers", two.as_slice())?;
    push_comparison(&mut out, one.as_slice() == two.as_slice())?;
    Ok(out)
}
