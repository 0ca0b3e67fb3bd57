//! Signs of crossings, with which each edge leads from one passage to one where any signs do that.
ghost use Rattle.std.specs.Prelude.{◌≡◌, ◌<◌, ◌≤◌, ◌*◌, ◌/◌, ◌==◌, ℕ, false, map, length, slice_index, IfOk};
ghost use Rattle.std.specs.List.{range_with_len};
ghost use Rattle.code_rows.specs.declared.code_fault.TheConstants.{MAX_CROSSINGS};
ghost use Rattle.code_rows.specs.Rows.{all_names};
ghost use Rattle.code_rows.specs.RowSigns.{turned_by, value_of, tie_of, tied, replaced, chosen_values, JoinsIfTwo, Reached, AreBest};

use crate::numbers::names_of;
use crate::row::CodeRow;
use crate::rows_fault::ends_of;
use memory_core::OutOfMemory;
use std::alloc::{AllocError, Global};

/// The sign of a crossing: the value of a root, or the other one. A root is a crossing by its number, or the number of all, whose value is true.
#[derive(Clone, Copy, PartialEq, Eq)]
pub(crate) struct Tie {
    /// The root.
    pub(crate) root: usize,
    /// Whether the sign is the other one.
    pub(crate) turned: bool,
}

/// A sign for each row, whose edges are numbered: where any signs make each edge lead from one passage to one, these do. Otherwise they do so for
/// the least edges, up to one with which no signs do. A component that only passes over goes from its least edge to the lesser of the two next
/// to it; where these are one, through the earlier of the two rows. There may be at most `MAX_CROSSINGS` rows.
pub(crate) fn signs_of(alloc: Global, rows: &[CodeRow]) -> Result<Vec<bool>, OutOfMemory>
    requires { length rows.now ≤ MAX_CROSSINGS }
    ensures { IfOk result (λ v. AreBest rows.now v.items) }
{
    let names = names_of(alloc, rows)?;
    let ties = joined_ties(alloc, rows, names.as_slice())?;
    let values = values_of(alloc, ties.as_slice(), names.as_slice())?;
    let signs = signs_by(alloc, ties.as_slice(), values.as_slice())?;
    Ok(signs)
}

/// Ties by which each edge is joined, as far as that can be done.
fn joined_ties(alloc: Global, rows: &[CodeRow], names: &[u32]) -> Result<Vec<Tie>, AllocError>
    requires few { length rows.now ≤ MAX_CROSSINGS }
    requires names { names.now ≡ all_names rows.now }
    ensures { IfOk result (λ v. Reached rows.now v.items (2 * length rows.now)) }
{
    let mut ties = free_ties(alloc, rows.len())?;
    for before in 0..2 * rows.len() as u32 {
        join(ties.as_mut_slice(), names, before + 1);
    }
    Ok(ties)
}

/// A tie for each crossing, which is its own root.
fn free_ties(alloc: Global, count: usize) -> Result<Vec<Tie>, AllocError>
    ensures { IfOk result (λ v. v.items ≡ map (λ k. record { root = k; turned = false }) (range_with_len 0 count)) }
{
    (0..count)
        .map(|root| Tie {
            root,
            turned: false,
        })
        .collect(alloc)
}

/// Makes the strand of an edge with two ends leave one and come to the other, where it can.
fn join(ties: &mut [Tie], names: &[u32], edge: u32)
    requires { length names.now ≡ 4 * length ties.old }
    ensures { JoinsIfTwo names.now edge ties.old ties.new }
{
    if ends_of(names, edge) != 2 {
        return;
    }
    let one = end_from(names, 0, edge);
    let two = end_from(names, one + 1, edge);
    let (first, second) = (tie_at(ties, one), tie_at(ties, two));
    part(ties, first, second);
}

/// The first end from this one on at which an edge is; their number where there is none.
fn end_from(names: &[u32], from: usize, edge: u32) -> usize
    requires { from ≤ length names.now }
    ensures within { (from ≤ result) × (result ≤ length names.now) }
    ensures before { (k : ℕ) → from ≤ k → k < result → (slice_index names.now k == edge) ≡ false }
    ensures there { result < length names.now → slice_index names.now result ≡ edge }
{
    for end in from..names.len() {
        if names[end] == edge {
            return end;
        }
    }
    names.len()
}

/// The tie at an end.
fn tie_at(ties: &[Tie], end: usize) -> Tie
    requires { end / 4 < length ties.now }
    ensures { result ≡ tie_of ties.now end }
{
    let tie = ties[end / 4];
    match end % 4 {
        0 => Tie {
            root: ties.len(),
            turned: true,
        },
        1 => tie,
        2 => Tie {
            root: ties.len(),
            turned: false,
        },
        _ => Tie {
            root: tie.root,
            turned: !tie.turned,
        },
    }
}

/// Makes two values differ, where they can.
fn part(ties: &mut [Tie], one: Tie, two: Tie)
    ensures { ties.new ≡ tied one two ties.old }
{
    if one.root == two.root {
        return;
    }
    let turn = !turned_by(one.turned, two.turned);
    if one.root == ties.len() {
        replace(ties, two.root, one.root, turn);
    } else {
        replace(ties, one.root, two.root, turn);
    }
}

/// Puts another root for one, against which it is turned or not.
fn replace(ties: &mut [Tie], from: usize, to: usize, turn: bool)
    ensures { ties.new ≡ map (replaced from to turn) ties.old }
{
    for k in 0..ties.len() {
        ties[k] = replaced(ties[k], from, to, turn);
    }
}

/// A tie with another root, where it has that one.
fn replaced(tie: Tie, from: usize, to: usize, turn: bool) -> Tie
    ensures { result ≡ replaced from to turn tie }
{
    if tie.root == from {
        Tie {
            root: to,
            turned: turned_by(turn, tie.turned),
        }
    } else {
        tie
    }
}

/// A value, or the other one.
fn turned_by(turn: bool, value: bool) -> bool
    ensures { result ≡ turned_by turn value }
{
    if turn { !value } else { value }
}

/// Values for the roots, such that each component that only passes over takes the way that its least edge gives.
fn values_of(alloc: Global, ties: &[Tie], names: &[u32]) -> Result<Vec<bool>, AllocError>
    requires { length names.now ≤ 4 * MAX_CROSSINGS }
{
    let mut values: Vec<bool> = vec![in alloc; false; ties.len()]?;
    let mut chosen: Vec<bool> = vec![in alloc; false; ties.len()]?;
    for before in 0..names.len() / 2 {
        let end = way_of(names, before as u32 + 1);
        choose(values.as_mut_slice(), chosen.as_mut_slice(), ties, end);
    }
    Ok(values)
}

/// The end at which an edge comes to a crossing, where its component only passes over: after it lies the lesser edge.
fn way_of(names: &[u32], edge: u32) -> usize {
    let one = end_from(names, 0, edge);
    if one >= names.len() {
        return one;
    }
    let two = end_from(names, one + 1, edge);
    if edge_across(names, one) <= edge_across(names, two) {
        one
    } else {
        two
    }
}

/// The edge at the end straight across a crossing.
fn edge_across(names: &[u32], end: usize) -> u32 {
    match names.get(end - end % 4 + (end % 4 + 2) % 4) {
        Some(edge) => *edge,
        None => 0,
    }
}

/// Lets the strand at an end come to its crossing, where the root there has no value yet.
fn choose(values: &mut [bool], chosen: &mut [bool], ties: &[Tie], end: usize) {
    if end / 4 >= ties.len() {
        return;
    }
    let tie = tie_at(ties, end);
    if tie.root < values.len() && tie.root < chosen.len() && !chosen[tie.root] {
        chosen[tie.root] = true;
        values[tie.root] = tie.turned;
    }
}

/// The sign of each crossing by the values of the roots.
fn signs_by(alloc: Global, ties: &[Tie], values: &[bool]) -> Result<Vec<bool>, AllocError>
    ensures { IfOk result (λ v. v.items ≡ map (value_of (chosen_values (length ties.now) values.now)) ties.now) }
{
    let count = ties.len();
    ties.iter()
        .map(|tie| sign_by(count, values, tie))
        .collect(alloc)
}

/// The sign of a tie by the values of the roots.
fn sign_by(count: usize, values: &[bool], tie: &Tie) -> bool
    ensures { result ≡ value_of (chosen_values count values.now) tie.now }
{
    turned_by(
        tie.turned,
        tie.root == count || (tie.root < values.len() && values[tie.root]),
    )
}
