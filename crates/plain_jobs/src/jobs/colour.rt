//! The job `colour`: the colourings of a diagram by the listed quandles.
ghost use Rattle.std.specs.Prelude.{◌≡◌, ◌++◌, IfOk, OnOk};
ghost use Rattle.colour_list.specs.Listing.{lists_of};
ghost use Rattle.text_lines.specs.Spelled.{lines_text};
ghost use Rattle.knot_text.specs.Shapes.{colour_of};
ghost use Rattle.plain_jobs.specs.Lines.{listing_lines};
ghost use Rattle.reply_text.specs.Reply.{AnswersRead};
ghost use Rattle.plain_jobs.specs.Jobs.Colour.{colourings_lines, listed_text, colour_text, AnswersColour};

use colour_list::{ListFault, list};
use colour_rows::Colouring;
use grid_core::Grid;
use knot_ports::Status;
use knot_text::{ColourText, Listed, push_list, push_quandle, read_colour};
use quandle_core::Quandle;
use reply_text::PlainReply;
use std::alloc::{AllocError, Global};
use text_lines::push_counted;

/// The answer to the bytes of a diagram and quandles.
pub(crate) fn answer(alloc: Global, bytes: &[u8]) -> Result<PlainReply, AllocError>
    ensures { IfOk result (λ reply. AnswersRead AnswersColour (colour_of bytes.now) reply) }
{
    match read_colour(alloc, bytes) {
        Ok(input) => answer_text(alloc, &input),
        Err(fault) => PlainReply::to_fault(alloc, fault),
    }
}

/// The answer to a diagram and quandles.
fn answer_text(alloc: Global, input: &ColourText) -> Result<PlainReply, AllocError>
    ensures { IfOk result (λ reply. AnswersColour input.now reply) }
{
    let text = colour_text(alloc, &input.diagram.grid(), input.quandles.as_slice())?;
    Ok(PlainReply::new(Status::Done, text))
}

/// The text of all colourings of a grid by each of the quandles.
fn colour_text(alloc: Global, grid: &Grid, quandles: &[Listed]) -> Result<Vec<u8>, AllocError>
    ensures { IfOk result (λ v. v.items ≡ colour_text grid.now quandles.now) }
{
    let mut out = Vec::new(alloc);
    for listed in quandles {
        push_listed(alloc, &mut out, grid, listed)?;
    }
    Ok(out)
}

/// Appends a quandle, and all colourings of a grid by it.
fn push_listed(
    alloc: Global,
    out: &mut Vec<u8>,
    grid: &Grid,
    listed: &Listed,
) -> Result<(), AllocError>
    ensures { OnOk result (out.new.items ≡ out.old.items ++ listed_text grid.now listed.now) }
{
    push_quandle(out, b"quandle", listed)?;
    push_colourings(alloc, out, grid, listed.quandle())
}

/// Appends all colourings of a grid by a quandle, or the number of bottoms, where there are too many choices to try.
fn push_colourings(
    alloc: Global,
    out: &mut Vec<u8>,
    grid: &Grid,
    quandle: &Quandle,
) -> Result<(), AllocError>
    ensures { OnOk result (out.new.items ≡ out.old.items ++ lines_text (colourings_lines grid.now quandle.now)) }
{
    match list(alloc, grid, quandle) {
        Ok(colourings) => push_listing(out, colourings.as_slice()),
        Err(ListFault::TooWide { bottoms }) => push_counted(out, b"wide ", u64::from(bottoms)),
        Err(ListFault::OutOfMemory) => Err(AllocError),
    }
}

/// Appends how many colourings there are, and a line of colours for each.
pub(crate) fn push_listing(out: &mut Vec<u8>, colourings: &[Colouring]) -> Result<(), AllocError>
    ensures { OnOk result (out.new.items ≡ out.old.items ++ lines_text (listing_lines (lists_of colourings.now))) }
{
    push_list(out, colourings)
}
