//! The job `code`: the crossing code of a diagram.
ghost use Rattle.std.specs.Prelude.{◌≡◌, IfOk};
ghost use Rattle.knot_text.specs.Shapes.{lone_diagram_of};
ghost use Rattle.reply_text.specs.Reply.{AnswersRead};
ghost use Rattle.plain_jobs.specs.Jobs.Code.{code_text, AnswersCode};

use crossing_codes::{code_of, gauss_text, pd_text};
use grid_core::Grid;
use knot_ports::Status;
use knot_text::{Diagram, read_diagram};
use memory_core::OutOfMemory;
use reply_text::PlainReply;
use std::alloc::{AllocError, Global};

/// The answer to the bytes of a diagram.
pub(crate) fn answer(alloc: Global, bytes: &[u8]) -> Result<PlainReply, AllocError>
    ensures { IfOk result (λ reply. AnswersRead AnswersCode (lone_diagram_of bytes.now) reply) }
{
    match read_diagram(alloc, bytes) {
        Ok(diagram) => answer_diagram(alloc, &diagram),
        Err(fault) => PlainReply::to_fault(alloc, fault),
    }
}

/// The answer to a diagram.
fn answer_diagram(alloc: Global, diagram: &Diagram) -> Result<PlainReply, AllocError>
    ensures { IfOk result (λ reply. AnswersCode diagram.now reply) }
{
    match code_text(alloc, &diagram.grid()) {
        Ok(text) => Ok(PlainReply::new(Status::Done, text)),
        Err(_) => Err(AllocError),
    }
}

/// The text of a grid's crossing code: its planar diagram code, and its signed Gauss code.
fn code_text(alloc: Global, grid: &Grid) -> Result<Vec<u8>, OutOfMemory>
    ensures { IfOk result (λ v. v.items ≡ code_text grid.now) }
{
    let code = code_of(alloc, grid)?;
    let mut out = pd_text(alloc, &code)?;
    let gauss = gauss_text(alloc, grid)?;
    out.extend_from_slice(gauss.as_slice())?;
    Ok(out)
}
