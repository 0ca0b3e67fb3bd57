//! The first reason why a code is that of no diagram in the plane.
ghost use Rattle.std.specs.Prelude.{◌≡◌, ◌+◌, ◌*◌, ◌≤◌, not, ◌<◌, length, slice_index_or, IfOk, IfSome};
ghost use Rattle.grid_core.specs.Fault.{lowest};
ghost use Rattle.crossing_codes.specs.CodeColouring.{names_edges};
ghost use Rattle.code_rows.specs.CodeMap.{no_crossing};
ghost use Rattle.code_rows.specs.CodeFault.{is_empty, first_code_fault};

use crate::code_map::is_plane;
use crate::joined_edges::lowest_unjoined;
use crossing_codes::{Code, Crossing, names_edges};
use grid_core::MAX_SIZE;
use memory_core::OutOfMemory;
use std::alloc::Global;

/// The greatest number of crossings: a grid diagram of `MAX_SIZE` columns has no more.
pub const MAX_CROSSINGS: usize = MAX_SIZE * MAX_SIZE / 2 - MAX_SIZE;

/// Why a code is that of no diagram in the plane: the first of these that holds.
#[derive(Clone, Copy, PartialEq, Eq)]
pub enum CodeFault {
    /// There is no crossing and no loop.
    Empty,
    /// There are more than `MAX_CROSSINGS` crossings.
    Size,
    /// The number of edges is not twice that of the crossings.
    Count,
    /// This crossing, counted from 0, is the first that names an edge which is none of those from 1 to their number.
    Range { crossing: u32 },
    /// This edge is the least that doesn't lead to exactly one passage, or doesn't come from exactly one.
    Edge { edge: u32 },
    /// The faces are not as many as the crossings and twice the connected parts.
    Plane,
}

/// The first reason why a code is that of no diagram in the plane, if there is one.
pub fn first_fault(alloc: Global, code: &Code) -> Result<Option<CodeFault>, OutOfMemory>
    ensures { IfOk result (λ fault. fault ≡ first_code_fault code.now) }
{
    if is_empty(code) {
        return Ok(Some(CodeFault::Empty));
    }
    let crossings = code.crossings.as_slice();
    if crossings.len() > MAX_CROSSINGS {
        return Ok(Some(CodeFault::Size));
    }
    if code.edges as usize != 2 * crossings.len() {
        return Ok(Some(CodeFault::Count));
    }
    if let Some(crossing) = lowest_unnamed(code.edges, crossings) {
        return Ok(Some(CodeFault::Range { crossing }));
    }
    if let Some(before) = lowest_unjoined(code.edges, crossings) {
        return Ok(Some(CodeFault::Edge { edge: before + 1 }));
    }
    let plane = is_plane(alloc, crossings)?;
    if !plane {
        return Ok(Some(CodeFault::Plane));
    }
    Ok(None)
}

/// Whether a code has no crossing and no loop.
fn is_empty(code: &Code) -> bool
    ensures { result ≡ is_empty code.now }
{
    code.crossings.as_slice().is_empty() && code.loops == 0
}

/// The first crossing that names an edge which is none.
fn lowest_unnamed(edges: u32, crossings: &[Crossing]) -> Option<u32>
    requires { length crossings.now ≤ MAX_CROSSINGS }
    ensures { result ≡ lowest (λ k. not (names_edges edges (slice_index_or crossings.now k no_crossing))) (length crossings.now) }
{
    for k in 0..crossings.len() {
        if !names_edges(edges, &crossings[k]) {
            return Some(k as u32);
        }
    }
    None
}
