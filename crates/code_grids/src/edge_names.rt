//! New names of edges, as the crossings ask for them.
//! Names are exchanged in pairs, from each edge's own name on, so that they are one to one whatever is asked for.
ghost use Rattle.std.specs.Prelude.{◌≡◌, true, length, IfOk};
ghost use Rattle.crossing_codes.specs.CodeColouring.{is_edge, names_edges};
ghost use Rattle.code_grids.specs.Renaming.{NameEdges, AreInverse, new_name, renamed, IsSame};
ghost use Rattle.code_grids.specs.Correspond.{AreBelow, MeetIfAny, KeepRight};

use code_rows::own_places;
use crossing_codes::Crossing;
use std::alloc::{AllocError, Global};

/// The places of the new names of the edges, and the edges of the places. They make of each crossing the one that the list names,
/// where any names do.
pub(crate) fn edge_names(
    alloc: Global,
    edges: u32,
    ones: &[Crossing],
    twos: &[Crossing],
    crossings: &[u32],
) -> Result<(Vec<u32>, Vec<u32>), AllocError>
    requires named { NameEdges edges ones.now }
    requires named_too { NameEdges edges twos.now }
    requires long { length crossings.now ≡ length ones.now }
    requires inside { AreBelow crossings.now (length twos.now) }
    ensures inverse { IfOk result (λ names. AreInverse edges names.0.items names.1.items) }
    ensures wanted { IfOk result (λ names. MeetIfAny edges (λ asked. IsSame asked crossings.now ones.now twos.now) names.0.items) }
{
    let mut there = own_places(alloc, edges)?;
    let mut back = own_places(alloc, edges)?;
    name_all(
        there.as_mut_slice(),
        back.as_mut_slice(),
        ones,
        twos,
        crossings,
    );
    Ok((there, back))
}

/// Gives the edges of each crossing the names that they have at the crossing which the list names.
fn name_all(
    there: &mut [u32],
    back: &mut [u32],
    ones: &[Crossing],
    twos: &[Crossing],
    crossings: &[u32],
)
    requires inverse { AreInverse (length there.old) there.old back.old }
    requires named { NameEdges (length there.old) ones.now }
    requires named_too { NameEdges (length there.old) twos.now }
    requires long { length crossings.now ≡ length ones.now }
    requires inside { AreBelow crossings.now (length twos.now) }
    ensures inverse { AreInverse (length there.old) there.new back.new }
    ensures wanted { MeetIfAny (length there.old) (λ asked. IsSame asked crossings.now ones.now twos.now) there.new }
{
    for k in 0..ones.len() {
        name_edges(there, back, &ones[k], &twos[crossings[k] as usize]);
    }
}

/// Gives the edges of a crossing the names that they have at another.
fn name_edges(there: &mut [u32], back: &mut [u32], one: &Crossing, two: &Crossing)
    requires inverse { AreInverse (length there.old) there.old back.old }
    requires named { names_edges (length there.old) one.now ≡ true }
    requires named_too { names_edges (length there.old) two.now ≡ true }
    ensures inverse { AreInverse (length there.old) there.new back.new }
    ensures given { MeetIfAny (length there.old) (λ asked. renamed asked one.now ≡ two.now) there.new }
    ensures kept { KeepRight (length there.old) (λ asked. renamed asked one.now ≡ two.now) there.old there.new }
{
    name_edge(there, back, one.first, two.first);
    name_edge(there, back, one.second, two.second);
    name_edge(there, back, one.third, two.third);
    name_edge(there, back, one.fourth, two.fourth);
}

/// Gives an edge a name, and the edge that had it the name that this one had.
fn name_edge(there: &mut [u32], back: &mut [u32], old: u32, new: u32)
    requires inverse { AreInverse (length there.old) there.old back.old }
    requires old { is_edge (length there.old) old ≡ true }
    requires new { is_edge (length there.old) new ≡ true }
    ensures inverse { AreInverse (length there.old) there.new back.new }
    ensures given { new_name there.new old ≡ new }
    ensures kept { KeepRight (length there.old) (λ asked. new_name asked old ≡ new) there.old there.new }
{
    let edge = old as usize - 1;
    let place = new as usize - 1;
    let other = back[place] as usize;
    let before = there[edge] as usize;
    there.swap(edge, other);
    back.swap(before, place);
}
