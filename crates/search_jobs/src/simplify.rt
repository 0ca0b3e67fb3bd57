//! The job `simplify`: what a diagram is simplified to by moves that never make it larger.
ghost use Rattle.std.specs.Prelude.{◌≡◌, ◌++◌, IfOk, OnOk};
ghost use Rattle.knot_text.specs.Shapes.{lone_diagram_of};
ghost use Rattle.knot_words.specs.Words.{IsWithinBounds};
ghost use Rattle.reply_text.specs.Reply.{AnswersRead};
ghost use Rattle.search_jobs.specs.Simplify.{end_line, simplified_text, AnswersSimplify};

use knot_ports::Status;
use knot_text::{Diagram, print_grid, print_moves, read_diagram};
use knot_words::Asked;
use memory_core::OutOfMemory;
use mono_simplify::{SimpleEnd, Simplified, simplify};
use reply_text::PlainReply;
use std::alloc::{AllocError, Global};
use text_lines::push_counted;

/// The reply to the bytes of a diagram: what it is simplified to, with the budget that is asked for. A first bad line is named by the
/// reply. It fails only if memory runs out.
pub fn answer(alloc: Global, asked: &Asked, bytes: &[u8]) -> Result<PlainReply, AllocError>
    requires bounds { IsWithinBounds asked.now }
    ensures { IfOk result (λ reply. AnswersRead (AnswersSimplify asked.now.budget) (lone_diagram_of bytes.now) reply) }
{
    match read_diagram(alloc, bytes) {
        Ok(diagram) => answer_diagram(alloc, asked, &diagram),
        Err(fault) => PlainReply::to_fault(alloc, fault),
    }
}

/// The answer to a diagram.
fn answer_diagram(alloc: Global, asked: &Asked, diagram: &Diagram) -> Result<PlainReply, AllocError>
    requires bounds { IsWithinBounds asked.now }
    ensures { IfOk result (λ reply. AnswersSimplify asked.now.budget diagram.now reply) }
{
    let Ok(simplified) = simplify(alloc, &diagram.grid(), asked.budget) else {
        return Err(AllocError);
    };
    match simplified_text(alloc, &simplified) {
        Ok(text) => Ok(PlainReply::new(Status::Done, text)),
        Err(_) => Err(AllocError),
    }
}

/// The text of a simplified diagram: its grid, the moves that lead to it, and why no more was done.
fn simplified_text(alloc: Global, simplified: &Simplified) -> Result<Vec<u8>, OutOfMemory>
    ensures { IfOk result (λ v. v.items ≡ simplified_text simplified.now) }
{
    let mut out = print_grid(alloc, &simplified.grid)?;
    let moves = print_moves(alloc, simplified.moves.as_slice())?;
    out.extend_from_slice(moves.as_slice())?;
    push_end(&mut out, simplified.end)?;
    Ok(out)
}

/// Appends why no more was done.
fn push_end(out: &mut Vec<u8>, end: SimpleEnd) -> Result<(), AllocError>
    ensures { OnOk result (out.new.items ≡ out.old.items ++ end_line end) }
{
    match end {
        SimpleEnd::Irreducible => out.extend_from_slice(b"irreducible\n"),
        SimpleEnd::Spent { members } => push_counted(out, b"spent ", u64::from(members)),
    }
}
