//! The job `braid`: the braid word of a diagram's grid, and the fixed points of the word's action by the listed quandles.
ghost use Rattle.std.specs.Prelude.{◌≡◌, ◌++◌, ◌⊎◌, Err, false, map, IfOk, IfErr, OnOk};
ghost use Rattle.std.specs.List.{All, flat_map};
ghost use Rattle.grid_core.specs.Parts.{bottoms};
ghost use Rattle.colour_rows.specs.Colouring.{IsColouring};
ghost use Rattle.colour_list.specs.declared.limits.ListFault.TheVariants as fault;
ghost use Rattle.colour_list.specs.Fits.{fits};
ghost use Rattle.colour_list.specs.Listing.{colourings, lists_of};
ghost use Rattle.braid_core.specs.FixedPoints.{fixed_points};
ghost use Rattle.grid_braid.specs.Word.{word_of_diagram};
ghost use Rattle.grid_braid.specs.Feet.{at_feet};
ghost use Rattle.text_lines.specs.Spelled.{lines_text};
ghost use Rattle.knot_text.specs.Printed.{braid_text};
ghost use Rattle.knot_text.specs.Shapes.{colour_of};
ghost use Rattle.reply_text.specs.Reply.{AnswersRead};
ghost use Rattle.plain_jobs.specs.Jobs.Braid.{word_fixed_lines, word_fixed_text, word_text, AnswersBraid};

use crate::jobs::colour::push_listing;
use braid_laws::braids::the_fixed_points_are_listed;
use colour_list::{ListFault, in_order, list};
use colour_rows::Colouring;
use grid_braid::laws::colourings_at_the_feet_are_the_fixed_points;
use grid_braid::{feet_of, word_of};
use grid_core::Grid;
use knot_ports::Status;
use knot_text::{ColourText, Listed, push_braid, push_quandle, read_colour};
use quandle_core::Quandle;
use quandle_laws::lists::{each_colouring_is_listed_once, the_complete_list_ascends};
use reply_text::PlainReply;
use std::alloc::{AllocError, Global};
use text_lines::push_counted;

/// The answer to the bytes of a diagram and quandles.
pub(crate) fn answer(alloc: Global, bytes: &[u8]) -> Result<PlainReply, AllocError>
    ensures { IfOk result (λ reply. AnswersRead AnswersBraid (colour_of bytes.now) reply) }
{
    match read_colour(alloc, bytes) {
        Ok(input) => answer_text(alloc, &input),
        Err(fault) => PlainReply::to_fault(alloc, fault),
    }
}

/// The answer to a diagram and quandles.
fn answer_text(alloc: Global, input: &ColourText) -> Result<PlainReply, AllocError>
    ensures { IfOk result (λ reply. AnswersBraid input.now reply) }
{
    let text = word_text(alloc, &input.diagram.grid(), input.quandles.as_slice())?;
    Ok(PlainReply::new(Status::Done, text))
}

/// The text of a grid's braid word: the word, and the fixed points of its action by each of the quandles.
fn word_text(alloc: Global, grid: &Grid, quandles: &[Listed]) -> Result<Vec<u8>, AllocError>
    ensures { IfOk result (λ v. v.items ≡ word_text grid.now quandles.now) }
{
    let mut out = Vec::new(alloc);
    push_word(alloc, &mut out, grid)?;
    push_all_fixed(alloc, &mut out, grid, quandles)?;
    Ok(out)
}

/// Appends the braid word of a grid.
fn push_word(alloc: Global, out: &mut Vec<u8>, grid: &Grid) -> Result<(), AllocError>
    ensures { OnOk result (out.new.items ≡ out.old.items ++ braid_text (word_of_diagram grid.now)) }
{
    match word_of(alloc, grid) {
        Ok(word) => push_braid(out, word.strands(), word.letters()),
        Err(_) => Err(AllocError),
    }
}

/// Appends the fixed points of the action of a grid's word by each of the quandles.
fn push_all_fixed(
    alloc: Global,
    out: &mut Vec<u8>,
    grid: &Grid,
    quandles: &[Listed],
) -> Result<(), AllocError>
    ensures { OnOk result (out.new.items ≡ out.old.items ++ flat_map (word_fixed_text grid.now) quandles.now) }
{
    for listed in quandles {
        push_quandle(out, b"quandle", listed)?;
        push_fixed_points(alloc, out, grid, listed.quandle())?;
    }
    Ok(())
}

/// Appends the fixed points of the action of a grid's word, or the grid's number of bottoms, where it has too many colourings to list.
fn push_fixed_points(
    alloc: Global,
    out: &mut Vec<u8>,
    grid: &Grid,
    quandle: &Quandle,
) -> Result<(), AllocError>
    ensures { OnOk result (out.new.items ≡ out.old.items ++ lines_text (word_fixed_lines grid.now quandle.now)) }
{
    match fixed_points(alloc, grid, quandle) {
        Ok(tuples) => push_listing(out, tuples.as_slice()),
        Err(ListFault::TooWide { bottoms }) => push_counted(out, b"wide ", u64::from(bottoms)),
        Err(ListFault::OutOfMemory) => Err(AllocError),
    }
}

/// All tuples that the action of a grid's word takes to themselves, in lexicographic order: the feet of its colourings, put in order.
/// The word may have too many strands for all tuples to be tried.
fn fixed_points(alloc: Global, grid: &Grid, quandle: &Quandle) -> Result<Vec<Colouring>, ListFault>
    ensures complete { IfOk result (λ v. lists_of v.items ≡ fixed_points quandle.now (word_of_diagram grid.now)) }
    ensures wide { fits quandle.now grid.now ≡ false → result ≡ Err (fault.TooWide (bottoms grid.now)) }
    ensures fault { IfErr result (λ e. e ≡ fault.OutOfMemory ⊎ (fits quandle.now grid.now ≡ false) × (e ≡ fault.TooWide (bottoms grid.now))) }
{
    let all = list(alloc, grid, quandle)?;
    Ok(feet_in_order(alloc, grid, quandle, all.as_slice())?)
}

/// The feet of all colourings of a grid, in lexicographic order.
fn feet_in_order(
    alloc: Global,
    grid: &Grid,
    quandle: &Quandle,
    all: &[Colouring],
) -> Result<Vec<Colouring>, AllocError>
    requires { lists_of all.now ≡ colourings quandle.now grid.now }
    ensures { IfOk result (λ v. lists_of v.items ≡ fixed_points quandle.now (word_of_diagram grid.now)) }
{
    each_colouring_is_listed_once();
    the_complete_list_ascends();
    the_fixed_points_are_listed();
    colourings_at_the_feet_are_the_fixed_points();
    let _size = grid.size();
    let _order = quandle.order();
    Ok(in_order(feet_of_all(alloc, grid, quandle, all)?))
}

/// The feet of colourings, in their order.
fn feet_of_all(
    alloc: Global,
    grid: &Grid,
    quandle: &Quandle,
    all: &[Colouring],
) -> Result<Vec<Colouring>, AllocError>
    requires { All (λ c. IsColouring quandle.now grid.now c.items) all.now }
    ensures { IfOk result (λ v. lists_of v.items ≡ map (at_feet quandle.now grid.now) (lists_of all.now)) }
{
    let mut feet = Vec::new(alloc);
    for colours in all {
        feet.push(feet_of(grid, quandle, colours))?;
    }
    Ok(feet)
}
