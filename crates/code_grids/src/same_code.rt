//! Whether one code is another under other names.
ghost use Rattle.std.specs.Prelude.{◌≡◌, ◌<◌, ◌≤◌, ◌^◌, ◌↔◌, true, List, ℕ, length, IsTrue, IfOk, IfSome, IfNone};
ghost use Rattle.crossing_codes.specs.CodeColouring.{is_edge, names_edges};
ghost use Rattle.code_grids.specs.declared.renaming.Renaming.{Renaming};
ghost use Rattle.code_grids.specs.Renaming.{IsUndone, NameEdges, AreInverse, new_name, renamed, IsSame, IsRenamingBy};
ghost use Rattle.code_grids.specs.Correspond.{Correspond, AreBelow};

use crate::edge_names::edge_names;
use crate::renaming::Renaming;
use crossing_codes::{Code, Crossing, names_edges};
use memory_core::OutOfMemory;
use std::alloc::{AllocError, Global};

/// A renaming by which the one code becomes the other, and crossing k, counted from 0, becomes crossing `crossings[k]`.
///
/// `None` exactly where there is none. Any codes and any list are allowed.
pub fn renaming_between(
    alloc: Global,
    one: &Code,
    two: &Code,
    crossings: Vec<u32>,
) -> Result<Option<Renaming>, OutOfMemory>
    ensures some { IfOk result (λ found. IfSome found (λ r. IsRenamingBy one.now two.now crossings.items r)) }
    ensures none { IfOk result (λ found. IfNone found ((r : Renaming) → IsRenamingBy one.now two.now crossings.items r → ⊥)) }
{
    if !correspond(one, two, crossings.as_slice()) {
        return Ok(None);
    }
    let Some(crossings_back) = inverse_of(alloc, crossings.as_slice())? else {
        return Ok(None);
    };
    let ones = one.crossings.as_slice();
    let twos = two.crossings.as_slice();
    let (edges, edges_back) = edge_names(alloc, one.edges, ones, twos, crossings.as_slice())?;
    if !are_same(edges.as_slice(), crossings.as_slice(), ones, twos) {
        return Ok(None);
    }
    let renaming = Renaming::of(crossings, crossings_back, edges, edges_back);
    Ok(Some(renaming))
}

/// Whether the codes have as many crossings, edges and loops, each crossing has a place, and they name no edges but theirs.
fn correspond(one: &Code, two: &Code, crossings: &[u32]) -> bool
    ensures { IsTrue result ↔ Correspond one.now two.now crossings.now }
{
    let ones = one.crossings.as_slice();
    let twos = two.crossings.as_slice();
    twos.len() == ones.len()
        && two.edges == one.edges
        && two.loops == one.loops
        && crossings.len() == ones.len()
        && all_name_edges(one.edges, ones)
        && all_name_edges(one.edges, twos)
}

/// Whether each crossing names edges from 1 to their number alone.
fn all_name_edges(edges: u32, crossings: &[Crossing]) -> bool
    ensures { IsTrue result ↔ NameEdges edges crossings.now }
{
    crossings
        .iter()
        .all(|crossing| names_edges(edges, crossing))
}

/// The list that undoes a list, if there is one.
fn inverse_of(alloc: Global, there: &[u32]) -> Result<Option<Vec<u32>>, AllocError>
    ensures some { IfOk result (λ found. IfSome found (λ back. AreInverse (length there.now) there.now back.items)) }
    ensures none { IfOk result (λ found. IfNone found ((back : List ℕ) → AreInverse (length there.now) there.now back → ⊥)) }
{
    // places beyond the numbers of the list's type are named by none
    if there.len() > u32::MAX as usize + 1 {
        return Ok(None);
    }
    let mut back = vec![in alloc; 0; there.len()]?;
    put_places(back.as_mut_slice(), there);
    if !undo_each_other(there, back.as_slice()) {
        return Ok(None);
    }
    Ok(Some(back))
}

/// Writes the place of each number of the one list to the place in the other that it names.
fn put_places(back: &mut [u32], there: &[u32])
    requires few { length there.now ≤ 2 ^ 32 }
    requires long { length back.old ≡ length there.now }
    ensures long { length back.new ≡ length there.now }
    ensures undone { (wanted : List ℕ) → AreInverse (length there.now) there.now wanted → IsUndone there.now back.new }
{
    for place in 0..there.len() {
        let to = there[place] as usize;
        if to < back.len() {
            back[to] = place as u32;
        }
    }
}

/// Whether each list undoes the other.
fn undo_each_other(there: &[u32], back: &[u32]) -> bool
    ensures { IsTrue result ↔ (IsUndone there.now back.now × IsUndone back.now there.now) }
{
    is_undone(there, back) && is_undone(back, there)
}

/// Whether the number at each place of the one list is a place of the other, where the number of the first place is.
fn is_undone(there: &[u32], back: &[u32]) -> bool
    ensures { IsTrue result ↔ IsUndone there.now back.now }
{
    for place in 0..there.len() {
        let to = there[place] as usize;
        if to >= back.len() || back[to] as usize != place {
            return false;
        }
    }
    true
}

/// Whether each crossing, with its edges renamed, is the one that the list names.
fn are_same(names: &[u32], crossings: &[u32], ones: &[Crossing], twos: &[Crossing]) -> bool
    requires few { length names.now < 2 ^ 32 }
    requires within { AreBelow names.now (length names.now) }
    requires named { NameEdges (length names.now) ones.now }
    requires long { length crossings.now ≡ length ones.now }
    requires inside { AreBelow crossings.now (length twos.now) }
    ensures { IsTrue result ↔ IsSame names.now crossings.now ones.now twos.now }
{
    for k in 0..ones.len() {
        if !becomes(names, &ones[k], &twos[crossings[k] as usize]) {
            return false;
        }
    }
    true
}

/// Whether a crossing with its edges renamed is another.
fn becomes(names: &[u32], one: &Crossing, two: &Crossing) -> bool
    requires few { length names.now < 2 ^ 32 }
    requires within { AreBelow names.now (length names.now) }
    requires named { names_edges (length names.now) one.now ≡ true }
    ensures { IsTrue result ↔ (renamed names.now one.now ≡ two.now) }
{
    renamed(names, one) == *two
}

/// A crossing with its edges renamed.
fn renamed(names: &[u32], crossing: &Crossing) -> Crossing
    requires few { length names.now < 2 ^ 32 }
    requires within { AreBelow names.now (length names.now) }
    requires named { names_edges (length names.now) crossing.now ≡ true }
    ensures { result ≡ renamed names.now crossing.now }
{
    Crossing {
        first: new_name(names, crossing.first),
        second: new_name(names, crossing.second),
        third: new_name(names, crossing.third),
        fourth: new_name(names, crossing.fourth),
        positive: crossing.positive,
    }
}

/// The new name of an edge.
fn new_name(names: &[u32], edge: u32) -> u32
    requires few { length names.now < 2 ^ 32 }
    requires within { AreBelow names.now (length names.now) }
    requires edge { is_edge (length names.now) edge ≡ true }
    ensures { result ≡ new_name names.now edge }
{
    names[edge as usize - 1] + 1
}
