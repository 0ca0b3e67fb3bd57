//! Edges that join passages.
ghost use Rattle.std.specs.Prelude.{◌≡◌, ◌<◌, ◌≤◌, ◌+◌, ◌*◌, ◌==◌, ◌↔◌, not, count_by, length, IsTrue, IfSome};
ghost use Rattle.grid_core.specs.Fault.{lowest};
ghost use Rattle.code_rows.specs.declared.code_fault.TheConstants.{MAX_CROSSINGS};
ghost use Rattle.code_rows.specs.JoinedEdges.{over_from, over_to, passages_behind, passages_before, is_joined, AreJoined};

use crossing_codes::{Code, Crossing};

/// Whether each edge of a code leads from exactly one passage to exactly one. There may be at most `MAX_CROSSINGS` crossings, and twice
/// as many edges. For a code with the rows of one without a fault this decides whether it has a fault (`other_signs_can_only_part_edges`).
pub fn are_joined(code: &Code) -> bool
    requires few { length code.now.crossings ≤ MAX_CROSSINGS }
    requires count { code.now.edges ≡ 2 * length code.now.crossings }
    ensures { IsTrue result ↔ AreJoined code.now.crossings code.now.edges }
{
    match lowest_unjoined(code.edges, code.crossings.as_slice()) {
        None => true,
        Some(_) => false,
    }
}

/// The least edge, less 1, that doesn't lead from exactly one passage to exactly one.
pub(crate) fn lowest_unjoined(edges: u32, crossings: &[Crossing]) -> Option<u32>
    requires few { length crossings.now ≤ MAX_CROSSINGS }
    requires count { edges ≡ 2 * length crossings.now }
    ensures lowest { result ≡ lowest (λ e. not (is_joined crossings.now (e + 1))) edges }
    ensures within { IfSome result (λ e. e < edges) }
{
    for e in 0..edges {
        if !is_joined(crossings, e + 1) {
            return Some(e);
        }
    }
    None
}

/// Whether an edge leads from exactly one passage to exactly one.
fn is_joined(crossings: &[Crossing], edge: u32) -> bool
    requires { length crossings.now ≤ MAX_CROSSINGS }
    ensures { result ≡ is_joined crossings.now edge }
{
    passages_behind(crossings, edge) == 1 && passages_before(crossings, edge) == 1
}

/// How many passages an edge leads to.
fn passages_behind(crossings: &[Crossing], edge: u32) -> usize
    requires { length crossings.now ≤ MAX_CROSSINGS }
    ensures { result ≡ passages_behind crossings.now edge }
{
    let under = crossings.iter().filter(|x| x.first == edge).count();
    let over = crossings.iter().filter(|x| over_from(x) == edge).count();
    under + over
}

/// How many passages an edge comes from.
fn passages_before(crossings: &[Crossing], edge: u32) -> usize
    requires { length crossings.now ≤ MAX_CROSSINGS }
    ensures { result ≡ passages_before crossings.now edge }
{
    let under = crossings.iter().filter(|x| x.third == edge).count();
    let over = crossings.iter().filter(|x| over_to(x) == edge).count();
    under + over
}

/// The edge on which the strand over comes to a crossing.
fn over_from(crossing: &Crossing) -> u32
    ensures { result ≡ over_from crossing.now }
{
    if crossing.positive {
        crossing.fourth
    } else {
        crossing.second
    }
}

/// The edge on which the strand over leaves a crossing.
fn over_to(crossing: &Crossing) -> u32
    ensures { result ≡ over_to crossing.now }
{
    if crossing.positive {
        crossing.second
    } else {
        crossing.fourth
    }
}
