//! The job `replay`: the last grid of a list of moves, perhaps with the colours that they carry to it.
ghost use Rattle.std.specs.Prelude.{◌≡◌, ◌⊎◌, IfOk, IfErr};
ghost use Rattle.grid_moves.specs.Joining.{StopsAt};
ghost use Rattle.colour_rows.specs.Colouring.{IsColouring};
ghost use Rattle.knot_text.specs.Shapes.{replay_of};
ghost use Rattle.reply_text.specs.Lines.{illegal_step_tokens};
ghost use Rattle.reply_text.specs.Reply.{rejected, AnswersRead};
ghost use Rattle.plain_jobs.specs.Jobs.Replay.{Carries, coloured_text, ReplaysMoves, Stops, Miscoloured, Coloured, AnswersReplay};

use colour_laws::carry;
use colour_rows::{Colouring, is_colouring};
use grid_core::Grid;
use grid_moves::{Move, MoveFault, apply, apply_all};
use knot_ports::Status;
use knot_text::{Listed, ReplayText, print_grid, read_replay};
use quandle_core::Quandle;
use reply_text::PlainReply;
use reply_text::lines::{miscoloured_line, step_line};
use std::alloc::{AllocError, Global};
use text_lines::push_word_line;

/// The answer to the bytes of a diagram and moves, perhaps with colours.
pub(crate) fn answer(alloc: Global, bytes: &[u8]) -> Result<PlainReply, AllocError>
    ensures { IfOk result (λ reply. AnswersRead AnswersReplay (replay_of bytes.now) reply) }
{
    match read_replay(alloc, bytes) {
        Ok(input) => replay(alloc, input),
        Err(fault) => PlainReply::to_fault(alloc, fault),
    }
}

/// The last grid, perhaps with colours, or the first illegal move.
fn replay(alloc: Global, input: ReplayText) -> Result<PlainReply, AllocError>
    ensures { IfOk result (λ reply. AnswersReplay input reply) }
{
    let ReplayText {
        diagram,
        moves,
        colours,
    } = input;
    let grid = diagram.grid();
    match colours {
        Some((listed, colours)) => {
            replay_coloured(alloc, grid, moves.as_slice(), &listed, colours)
        }
        None => replay_plain(alloc, &grid, moves.as_slice()),
    }
}

/// The last grid, or the first illegal move.
fn replay_plain(alloc: Global, grid: &Grid, moves: &[Move]) -> Result<PlainReply, AllocError>
    ensures { IfOk result (λ reply. ReplaysMoves grid.now moves.now reply ⊎ Stops grid.now moves.now reply) }
{
    match apply_all(grid, moves) {
        Ok(last) => match print_grid(alloc, &last) {
            Ok(text) => Ok(PlainReply::new(Status::Done, text)),
            Err(_) => Err(AllocError),
        },
        Err((place, fault)) => reject_move(alloc, place, fault),
    }
}

/// Colours that are no colouring, or the last grid with the carried colours, or the first illegal move.
fn replay_coloured(
    alloc: Global,
    grid: Grid,
    moves: &[Move],
    listed: &Listed,
    colours: Colouring,
) -> Result<PlainReply, AllocError>
    ensures { IfOk result (λ reply. Miscoloured grid listed.now colours.items reply ⊎ Coloured grid moves.now listed.now colours.items reply) }
{
    if !is_colouring(&grid, listed.quandle(), &colours) {
        return Ok(PlainReply::new(Status::Rejected, miscoloured_line(alloc)?));
    }
    match carry_all(ColouredGrid { grid, colours }, moves, listed.quandle()) {
        Ok(last) => {
            let text = coloured_text(alloc, &last.grid, &last.colours)?;
            Ok(PlainReply::new(Status::Done, text))
        }
        Err((place, fault)) => reject_move(alloc, place, fault),
    }
}

/// The first illegal move.
fn reject_move(alloc: Global, place: usize, fault: MoveFault) -> Result<PlainReply, AllocError>
    ensures { IfOk result (λ reply. reply ≡ rejected (illegal_step_tokens place fault)) }
{
    Ok(PlainReply::new(Status::Rejected, step_line(alloc, place, fault)?))
}

/// A grid, and a colouring of it.
#[derive(Drop)]
pub(crate) struct ColouredGrid {
    pub(crate) grid: Grid,
    pub(crate) colours: Colouring,
}

/// The grid after all moves, with the colours that they carry to it, or the place of the first illegal move and its
/// fault there. Takes no memory.
fn carry_all(
    start: ColouredGrid,
    steps: &[Move],
    quandle: &Quandle,
) -> Result<ColouredGrid, (usize, MoveFault)>
    requires { IsColouring quandle.now start.grid start.colours.items }
    ensures carried { IfOk result (λ e. Carries quandle.now start.grid start.colours.items steps.now e.grid e.colours.items) }
    ensures stopped { IfErr result (λ f. StopsAt start.grid steps.now f.0 f.1) }
{
    let mut here = start;
    for (place, step) in steps.iter().enumerate() {
        match apply(&here.grid, *step) {
            Ok(next) => {
                here = ColouredGrid {
                    colours: carry(&here.grid, *step, quandle, &here.colours),
                    grid: next,
                };
            }
            Err(fault) => return Err((place, fault)),
        }
    }
    Ok(here)
}

/// The text of a grid and its colours.
fn coloured_text(alloc: Global, grid: &Grid, colours: &Colouring) -> Result<Vec<u8>, AllocError>
    ensures { IfOk result (λ v. v.items ≡ coloured_text grid.now colours.now.items) }
{
    let Ok(mut out) = print_grid(alloc, grid) else {
        return Err(AllocError);
    };
    push_word_line(&mut out, b"colours", colours.as_slice())?;
    Ok(out)
}
