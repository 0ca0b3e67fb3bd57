//! The job `least`: the least canonical diagram that shifts and exchanges reach.
ghost use Rattle.std.specs.Prelude.{◌≡◌, ◌++◌, IfOk, OnOk};
ghost use Rattle.knot_text.specs.Shapes.{lone_diagram_of};
ghost use Rattle.knot_words.specs.Words.{IsWithinBounds};
ghost use Rattle.reply_text.specs.Reply.{AnswersRead};
ghost use Rattle.search_jobs.specs.Least.{least_end_line, least_text, AnswersLeast};

use knot_ports::Status;
use knot_text::{Diagram, print_grid, print_moves, read_diagram};
use knot_words::Asked;
use memory_core::OutOfMemory;
use mono_simplify::{LeastEnd, LeastGrid, least_grid};
use reply_text::PlainReply;
use std::alloc::{AllocError, Global};
use text_lines::push_counted;

/// The reply to the bytes of a diagram: the least one of its class, with the budget that is asked for. A first bad line is named by the
/// reply. It fails only if memory runs out.
pub fn answer(alloc: Global, asked: &Asked, bytes: &[u8]) -> Result<PlainReply, AllocError>
    requires bounds { IsWithinBounds asked.now }
    ensures { IfOk result (λ reply. AnswersRead (AnswersLeast asked.now.budget) (lone_diagram_of bytes.now) reply) }
{
    match read_diagram(alloc, bytes) {
        Ok(diagram) => answer_diagram(alloc, asked, &diagram),
        Err(fault) => PlainReply::to_fault(alloc, fault),
    }
}

/// The answer to a diagram.
fn answer_diagram(alloc: Global, asked: &Asked, diagram: &Diagram) -> Result<PlainReply, AllocError>
    requires bounds { IsWithinBounds asked.now }
    ensures { IfOk result (λ reply. AnswersLeast asked.now.budget diagram.now reply) }
{
    let Ok(least) = least_grid(alloc, &diagram.grid(), asked.budget) else {
        return Err(AllocError);
    };
    match least_text(alloc, &least) {
        Ok(text) => Ok(PlainReply::new(Status::Done, text)),
        Err(_) => Err(AllocError),
    }
}

/// The text of a least diagram: its grid, the moves that lead to it, and whether the whole class was seen.
fn least_text(alloc: Global, least: &LeastGrid) -> Result<Vec<u8>, OutOfMemory>
    ensures { IfOk result (λ v. v.items ≡ least_text least.now) }
{
    let mut out = print_grid(alloc, &least.grid)?;
    let moves = print_moves(alloc, least.moves.as_slice())?;
    out.extend_from_slice(moves.as_slice())?;
    push_end(&mut out, least.end)?;
    Ok(out)
}

/// Appends whether the whole class was seen.
fn push_end(out: &mut Vec<u8>, end: LeastEnd) -> Result<(), AllocError>
    ensures { OnOk result (out.new.items ≡ out.old.items ++ least_end_line end) }
{
    match end {
        LeastEnd::Whole => out.extend_from_slice(b"whole\n"),
        LeastEnd::Spent { members } => push_counted(out, b"spent ", u64::from(members)),
    }
}
