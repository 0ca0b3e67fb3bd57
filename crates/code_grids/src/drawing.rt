//! Grid diagrams of codes.
ghost use Rattle.std.specs.Prelude.{◌≡◌, ◌<◌, ℕ, true, Err, None, IfOk};
ghost use Rattle.grid_core.specs.declared.grid.TheConstants.{MAX_SIZE};
ghost use Rattle.quandle_core.specs.Quandle.{Table, IsQuandle};
ghost use Rattle.quandle_core.specs.Bijection.{IsBijection};
ghost use Rattle.colour_rows.specs.Colouring.{IsColouring};
ghost use Rattle.crossing_codes.specs.Code.{code};
ghost use Rattle.crossing_codes.specs.CodeColouring.{is_code_colouring};
ghost use Rattle.crossing_codes.specs.EdgeColouring.{edge_colours};
ghost use Rattle.code_rows.specs.CodeFault.{first_code_fault};
ghost use Rattle.code_grids.specs.declared.refusal.DrawingRefusal.TheVariants as refusal;
ghost use Rattle.code_grids.specs.Renaming.{IsRenaming};
ghost use Rattle.code_grids.specs.Recoloured.{recoloured};

use crate::refusal::DrawingRefusal;
use crate::renaming::Renaming;
use crate::same_code::renaming_between;
use code_drafts::draft_of;
use crossing_codes::{Code, code_of};
use grid_core::{Grid, MAX_SIZE};
use memory_core::OutOfMemory;
use std::alloc::{AllocError, Global};

/// A grid diagram of a code, and how the code's crossings and edges are named in the diagram's own code.
#[derive(Drop)]
pub struct Drawing {
    /// The diagram.
    pub grid: Grid,
    /// The names in its code.
    pub renaming: Renaming,
}

/// A grid diagram of a code, or why none is answered.
///
/// The code of the diagram is the given one under other names. For every quandle the colours of the edges and loops that each
/// colouring of the diagram gives, by their old names, are a colouring of the given code, and each of these comes from exactly one colouring.
///
/// The code must have no fault (`first_fault` of code_rows). Refused with `Columns` where the drawing takes more columns than a grid may
/// have; with `Lost` where it turned out to be no diagram of the code, which has happened in no test.
pub fn grid_of_code(
    alloc: Global,
    given: &Code,
) -> Result<Result<Drawing, DrawingRefusal>, OutOfMemory>
    requires { first_code_fault given.now ≡ None }
    ensures columns { IfOk result (λ answer. (n : ℕ) → answer ≡ Err (refusal.Columns n) → MAX_SIZE < n) }
    ensures same { IfOk result (λ answer. IfOk answer (λ drawing. IsRenaming given.now (code drawing.grid) drawing.renaming)) }
    ensures colourings { IfOk result (λ answer. IfOk answer (λ drawing. (t : Table) → IsQuandle t
        → IsBijection (IsColouring t drawing.grid) (λ colours. is_code_colouring t given.now colours ≡ true)
        (λ columns. recoloured drawing.renaming.edges (edge_colours t drawing.grid columns)))) }
{
    let draft = draft_of(alloc, given, MAX_SIZE)?;
    if draft.columns > MAX_SIZE {
        return Ok(Err(DrawingRefusal::Columns {
            columns: draft.columns,
        }));
    }
    let Ok(grid) = Grid::new(draft.x.as_slice(), draft.o.as_slice()) else {
        return Ok(Err(DrawingRefusal::Lost));
    };
    let crossings = ranks(alloc, draft.crossings.as_slice())?;
    let found = code_of(alloc, &grid)?;
    let Some(renaming) = renaming_between(alloc, given, &found, crossings)? else {
        return Ok(Err(DrawingRefusal::Lost));
    };
    Ok(Ok(Drawing { grid, renaming }))
}

/// How many crossings come before each one, by row from the lowest, and in a row by column from the left.
fn ranks(alloc: Global, crossings: &[(u8, u8)]) -> Result<Vec<u32>, AllocError> {
    let mut ranks = Vec::new(alloc);
    for (column, row) in crossings {
        ranks.push(rank_of(crossings, *column, *row))?;
    }
    Ok(ranks)
}

/// How many crossings stand before this place.
fn rank_of(crossings: &[(u8, u8)], column: u8, row: u8) -> u32 {
    let mut rank: u32 = 0;
    for (other_column, other_row) in crossings {
        if *other_row < row || (*other_row == row && *other_column < column) {
            rank = rank.saturating_add(1);
        }
    }
    rank
}
