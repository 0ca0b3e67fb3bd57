//! The job `grid`: a grid diagram of a code.
ghost use Rattle.std.specs.Prelude.{◌≡◌, ◌≤◌, ◌++◌, codes, decimal, length, IfOk};
ghost use Rattle.code_rows.specs.declared.code_fault.TheConstants.{MAX_CROSSINGS};
ghost use Rattle.code_text.specs.TextGrid.{IsDiagramOf, IsTrueDrawing};
ghost use Rattle.code_text.specs.CodeReading.{code_text_of};
ghost use Rattle.grid_core.specs.Diagram.{Diagram, IsGrid};
ghost use Rattle.knot_text.specs.Printed.{grid_text};
ghost use Rattle.plain_jobs.specs.Jobs.Grid.{rows_fault_tokens, columns_reply, refused_reply, AnswersGrid};
ghost use Rattle.reply_text.specs.Reply.{plain_reply, rejected, AnswersRead};

use code_rows::RowsFault;
use code_text::{CodeText, TextRefusal, grid_of_text, read_code};
use knot_ports::Status;
use knot_text::print_grid;
use reply_text::PlainReply;
use std::alloc::{AllocError, Global};
use text_lines::push_counted;

/// The answer to the bytes of a code.
pub(crate) fn answer(alloc: Global, bytes: &[u8]) -> Result<PlainReply, AllocError>
    ensures answer { IfOk result (λ reply. AnswersRead AnswersGrid (code_text_of bytes.now) reply) }
    ensures claim { IfOk result (λ reply. reply.status ≡ Status.Done → IsTrueDrawing bytes.now reply.text) }
{
    match read_code(alloc, bytes) {
        Ok(text) => answer_text(alloc, &text),
        Err(fault) => PlainReply::to_fault(alloc, fault),
    }
}

/// The answer to the text of a code.
fn answer_text(alloc: Global, text: &CodeText) -> Result<PlainReply, AllocError>
    requires { length text.now.rows ≤ MAX_CROSSINGS }
    ensures answer { IfOk result (λ reply. AnswersGrid text.now reply) }
    ensures claim { IfOk result (λ reply. reply.status ≡ Status.Done
        → (d : Diagram) × IsGrid d × IsDiagramOf text.now d × (reply.text ≡ grid_text d)) }
{
    match grid_of_text(alloc, text) {
        Ok(Ok(grid)) => {
            let _size = grid.size();
            match print_grid(alloc, &grid) {
                Ok(printed) => Ok(PlainReply::new(Status::Done, printed)),
                Err(_) => Err(AllocError),
            }
        }
        Ok(Err(refusal)) => refused(alloc, refusal),
        Err(_) => Err(AllocError),
    }
}

/// The answer where no diagram is answered.
fn refused(alloc: Global, refusal: TextRefusal) -> Result<PlainReply, AllocError>
    ensures answer { IfOk result (λ reply. reply ≡ refused_reply refusal) }
    ensures never_done { IfOk result (λ reply. reply.status ≡ Status.Done → ⊥) }
{
    match refusal {
        TextRefusal::Rows(fault) => rows_refused(alloc, fault),
        TextRefusal::Gauss => refused_by(alloc, b"rejected gauss\n"),
        TextRefusal::Columns { columns } => too_wide(alloc, columns),
        TextRefusal::Lost => refused_by(alloc, b"rejected drawing\n"),
    }
}

/// The answer where the rows have a fault.
fn rows_refused(alloc: Global, fault: RowsFault) -> Result<PlainReply, AllocError>
    ensures { IfOk result (λ reply. reply ≡ rejected (rows_fault_tokens fault)) }
{
    match fault {
        RowsFault::Empty => refused_by(alloc, b"rejected empty\n"),
        RowsFault::Edge { edge } => refused_at(alloc, b"rejected edge ", edge),
        RowsFault::Direction { edge } => refused_at(alloc, b"rejected direction ", edge),
        RowsFault::Plane => refused_by(alloc, b"rejected plane\n"),
    }
}

/// The answer with these words.
fn refused_by(alloc: Global, words: &[u8]) -> Result<PlainReply, AllocError>
    ensures { IfOk result (λ reply. reply ≡ plain_reply Status.Rejected words.now) }
{
    let text = Vec::from_slice(alloc, words)?;
    Ok(PlainReply::new(Status::Rejected, text))
}

/// The answer with these words, of which the last ends with a space, and the name of an edge.
fn refused_at(alloc: Global, words: &[u8], edge: u32) -> Result<PlainReply, AllocError>
    ensures { IfOk result (λ reply. reply ≡ plain_reply Status.Rejected (words.now ++ (decimal edge ++ codes "\n"))) }
{
    let mut text = Vec::new(alloc);
    push_counted(&mut text, words, u64::from(edge))?;
    Ok(PlainReply::new(Status::Rejected, text))
}

/// The answer where a diagram takes too many columns.
fn too_wide(alloc: Global, columns: usize) -> Result<PlainReply, AllocError>
    ensures { IfOk result (λ reply. reply ≡ columns_reply columns) }
{
    let mut text = Vec::new(alloc);
    push_counted(&mut text, b"limit columns ", columns as u64)?;
    Ok(PlainReply::new(Status::Limit, text))
}
