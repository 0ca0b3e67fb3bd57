//! The job `close`: the closure of a braid, its feet, and the fixed points of the braid's action by the listed quandles.
ghost use Rattle.std.specs.Prelude.{◌≡◌, ◌++◌, map, IfOk, OnOk};
ghost use Rattle.std.specs.List.{flat_map};
ghost use Rattle.std.specs.Fmt.{decimal};
ghost use Rattle.braid_core.specs.FixedPoints.{tuples_of};
ghost use Rattle.braid_closure.specs.Closure.{closure};
ghost use Rattle.text_lines.specs.Spelled.{lines_text};
ghost use Rattle.knot_text.specs.Printed.{grid_text};
ghost use Rattle.knot_text.specs.Shapes.{close_of};
ghost use Rattle.plain_jobs.specs.Lines.{listing_lines};
ghost use Rattle.reply_text.specs.Reply.{AnswersRead};
ghost use Rattle.plain_jobs.specs.Jobs.Close.{fixed_lines, fixed_text, feet_line, close_text, AnswersClose};

use braid_closure::close;
use braid_core::{Braid, FixFault, Tuple, fixed_points};
use knot_ports::Status;
use knot_text::{CloseText, Listed, print_grid, push_quandle, read_close};
use quandle_core::Quandle;
use reply_text::PlainReply;
use std::alloc::{AllocError, Global};
use text_lines::{push_counted, push_number_line, push_word_line};

/// The answer to the bytes of a braid and quandles.
pub(crate) fn answer(alloc: Global, bytes: &[u8]) -> Result<PlainReply, AllocError>
    ensures { IfOk result (λ reply. AnswersRead AnswersClose (close_of bytes.now) reply) }
{
    match read_close(alloc, bytes) {
        Ok(input) => answer_text(alloc, &input),
        Err(fault) => PlainReply::to_fault(alloc, fault),
    }
}

/// The answer to a braid and quandles.
fn answer_text(alloc: Global, input: &CloseText) -> Result<PlainReply, AllocError>
    ensures { IfOk result (λ reply. AnswersClose input.now reply) }
{
    let text = close_text(alloc, &input.braid, input.quandles.as_slice())?;
    Ok(PlainReply::new(Status::Done, text))
}

/// The text of a braid's closure: the grid, its feet, and the fixed points of the braid's action by each of the quandles.
fn close_text(alloc: Global, braid: &Braid, quandles: &[Listed]) -> Result<Vec<u8>, AllocError>
    ensures { IfOk result (λ v. v.items ≡ close_text braid.now quandles.now) }
{
    let mut out = closure_text(alloc, braid)?;
    push_all_fixed(alloc, &mut out, braid, quandles)?;
    Ok(out)
}

/// The grid of a closure, and its feet.
fn closure_text(alloc: Global, braid: &Braid) -> Result<Vec<u8>, AllocError>
    ensures { IfOk result (λ v. v.items ≡ grid_text (closure braid.now) ++ feet_line braid.now) }
{
    let closure = close(braid);
    let Ok(mut out) = print_grid(alloc, &closure.grid) else {
        return Err(AllocError);
    };
    push_word_line(&mut out, b"feet", closure.feet.as_slice())?;
    Ok(out)
}

/// Appends the fixed points of a braid's action by each of the quandles.
fn push_all_fixed(
    alloc: Global,
    out: &mut Vec<u8>,
    braid: &Braid,
    quandles: &[Listed],
) -> Result<(), AllocError>
    ensures { OnOk result (out.new.items ≡ out.old.items ++ flat_map (fixed_text braid.now) quandles.now) }
{
    for listed in quandles {
        push_quandle(out, b"quandle", listed)?;
        push_fixed_points(alloc, out, braid, listed.quandle())?;
    }
    Ok(())
}

/// Appends the fixed points of a braid's action, or the number of strands, where there are too many tuples to try.
fn push_fixed_points(
    alloc: Global,
    out: &mut Vec<u8>,
    braid: &Braid,
    quandle: &Quandle,
) -> Result<(), AllocError>
    ensures { OnOk result (out.new.items ≡ out.old.items ++ lines_text (fixed_lines braid.now quandle.now)) }
{
    match fixed_points(alloc, braid, quandle) {
        Ok(tuples) => push_tuples(out, tuples.as_slice()),
        Err(FixFault::TooWide { strands }) => push_counted(out, b"wide ", u64::from(strands)),
        Err(FixFault::OutOfMemory) => Err(AllocError),
    }
}

/// Appends how many tuples there are, and a line of colours for each.
fn push_tuples(out: &mut Vec<u8>, tuples: &[Tuple]) -> Result<(), AllocError>
    ensures { OnOk result (out.new.items ≡ out.old.items ++ lines_text (listing_lines (tuples_of tuples.now))) }
{
    push_counted(out, b"list ", tuples.len() as u64)?;
    push_tuple_lines(out, tuples)
}

/// Appends a line of colours for each tuple.
fn push_tuple_lines(out: &mut Vec<u8>, tuples: &[Tuple]) -> Result<(), AllocError>
    ensures { OnOk result (out.new.items ≡ out.old.items ++ lines_text (map (λ xs. map decimal xs) (tuples_of tuples.now))) }
{
    for tuple in tuples {
        push_number_line(out, tuple.as_slice())?;
    }
    Ok(())
}
