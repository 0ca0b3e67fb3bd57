//! The ruling on the pairs of classes of a table.
ghost use Rattle.std.specs.Prelude.{◌≡◌, true, false, None, IfSome, length};
ghost use Rattle.std.specs.List.{Contains, slice_get};
ghost use Rattle.table_check.specs.TableHolds.{numbers_at, Differ, AreToldApart, PairHolds, PairsWith, PairsHold, ClassesHold};
ghost use Rattle.table_check.specs.Cause.{PairFails, IsTableCause};

use crate::cause::TableCause;
use crate::class_items::Class;
use crate::classes::numbers_at;
use crate::row_items::OpenPair;
use crate::tables::KnotTable;
use evidence_core::{Block, first_unequal};

/// Why the pairs of classes of a table, whose classes hold, don't: the first cause, if there is one.
pub(crate) fn pairs_cause(table: &KnotTable) -> Option<TableCause>
    requires classes { ClassesHold table.now (length table.now.classes) }
    ensures some { IfSome result (λ cause. IsTableCause table.now cause) }
    ensures none { result ≡ None → PairsHold table.now (length table.now.classes) }
{
    for first in 0..table.classes.as_slice().len() {
        if let Some(second) = same_as(table, first) {
            return Some(TableCause::Same { first, second });
        }
    }
    None
}

/// The first class after this one from which it's neither distinguished nor left open.
fn same_as(table: &KnotTable, first: usize) -> Option<usize>
    ensures some { IfSome result (λ second. PairsWith table.now first second × PairFails table.now first second) }
    ensures none { result ≡ None → PairsWith table.now first (length table.now.classes) }
{
    for second in 0..table.classes.as_slice().len() {
        if are_same(table, first, second) {
            return Some(second);
        }
    }
    None
}

/// Whether two classes, the lesser first, are neither distinguished nor left open.
fn are_same(table: &KnotTable, first: usize, second: usize) -> bool
    ensures yes { result ≡ true → PairFails table.now first second }
    ensures no { result ≡ false → PairHolds table.now first second }
{
    let classes = table.classes.as_slice();
    let (Some(one), Some(two)) = (classes.get(first), classes.get(second)) else {
        return false;
    };
    first < second
        && !are_told_apart(table.blocks.as_slice(), one, two)
        && !is_left(table.left.as_slice(), first, second)
}

/// Whether two classes are left open.
fn is_left(left: &[OpenPair], first: usize, second: usize) -> bool
    ensures yes { result ≡ true → Contains left.now (record { first = first; second = second }) }
    ensures no { result ≡ false → Contains left.now (record { first = first; second = second }) → ⊥ }
{
    for pair in left {
        if pair.first as usize == first && pair.second as usize == second {
            return true;
        }
    }
    false
}

/// Whether some block has numbers of both that differ.
fn are_told_apart(blocks: &[Block], one: &Class, two: &Class) -> bool
    ensures yes { result ≡ true → AreToldApart blocks.now one.now two.now }
    ensures no { result ≡ false → AreToldApart blocks.now one.now two.now → ⊥ }
{
    for at in 0..blocks.len() {
        if differ_at(one, two, at) {
            return true;
        }
    }
    false
}

/// Whether the numbers of both by the block at this place are said, and differ.
fn differ_at(one: &Class, two: &Class, at: usize) -> bool
    ensures yes { result ≡ true → Differ (numbers_at one.now at) (numbers_at two.now at) }
    ensures no { result ≡ false → Differ (numbers_at one.now at) (numbers_at two.now at) → ⊥ }
{
    match (numbers_at(one, at), numbers_at(two, at)) {
        (Some(first), Some(second)) => first_unequal(first, second).is_some(),
        _ => false,
    }
}
