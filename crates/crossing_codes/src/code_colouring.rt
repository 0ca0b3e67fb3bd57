//! Colourings of codes.
ghost use Rattle.std.specs.Prelude.{◌≡◌, ◌<◌, ◌≤◌, ◌+◌, ◌&&◌, length, true};
ghost use Rattle.std.specs.List.{All};
ghost use Rattle.colour_rows.specs.Colouring.{are_colours};
ghost use Rattle.crossing_codes.specs.CodeColouring.{is_code_colouring, names_edges, is_edge, agrees, edge_colour};

use crate::crossing::{Code, Crossing};
use grid_core::all_below;
use quandle_core::Quandle;

/// Whether the list has a colour below the order for each of the edges 1, 2, .. and then for each loop, such that at each crossing
/// the strand over keeps its colour, and the strand under goes from x to `x ▷ y` where it passes from the right of a strand of colour y to its left.
///
/// Also false where the number of colours is another, a colour is not below the order, or a crossing names an edge that the code doesn't have.
pub fn is_code_colouring(code: &Code, quandle: &Quandle, colours: &[u8]) -> bool
    ensures { result ≡ is_code_colouring quandle.now code.now colours.now }
{
    if !are_colours(code, quandle.order(), colours) {
        return false;
    }
    for crossing in code.crossings.as_slice() {
        if !names_edges(code.edges, crossing) || !agrees(quandle, colours, crossing) {
            return false;
        }
    }
    true
}

/// Whether there are as many colours as edges and loops, each below the order.
fn are_colours(code: &Code, order: u8, colours: &[u8]) -> bool
    ensures { result ≡ are_colours (code.now.edges + code.now.loops) order colours.now }
{
    colours.len() == code.edges as usize + code.loops as usize && all_below(colours, order)
}

/// Whether a crossing names only edges from 1 to their number.
pub fn names_edges(edges: u32, crossing: &Crossing) -> bool
    ensures { result ≡ names_edges edges crossing.now }
{
    is_edge(edges, crossing.first)
        && is_edge(edges, crossing.second)
        && is_edge(edges, crossing.third)
        && is_edge(edges, crossing.fourth)
}

/// Whether an edge's number lies from 1 to the number of edges.
pub fn is_edge(edges: u32, edge: u32) -> bool
    ensures { result ≡ is_edge edges edge }
{
    1 <= edge && edge <= edges
}

/// Whether the colours agree at a crossing.
fn agrees(quandle: &Quandle, colours: &[u8], crossing: &Crossing) -> bool
    requires colours { All (λ y. y < quandle.now.order) colours.now }
    requires edges { names_edges (length colours.now) crossing.now ≡ true }
    ensures { result ≡ agrees quandle.now colours.now crossing.now }
{
    let over = colour_of(colours, crossing.second);
    let (before, after) = (
        colour_of(colours, crossing.first),
        colour_of(colours, crossing.third),
    );
    over == colour_of(colours, crossing.fourth)
        && if crossing.positive {
            after == quandle.over(before, over)
        } else {
            before == quandle.over(after, over)
        }
}

/// The colour of an edge.
fn colour_of(colours: &[u8], edge: u32) -> u8
    requires { (1 ≤ edge) × (edge ≤ length colours.now) }
    ensures { result ≡ edge_colour colours.now edge }
{
    colours[edge as usize - 1]
}
