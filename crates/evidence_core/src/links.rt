//! The ruling on linking numbers.
ghost use Rattle.std.specs.Prelude.{◌≡◌, IfOk, length, take};
ghost use Rattle.linking_core.specs.Component.{components};
ghost use Rattle.linking_core.specs.Linking.{linking};
ghost use Rattle.evidence_core.specs.Links.{linked_of, linked_cause, are_same_links, cause_of_links};

use crate::cause::{Cause, place_cause};
use crate::evidence::Linked;
use crate::unequal::first_unequal_of;
use grid_core::{Grid, Rows};
use linking_core::{component, linking};
use memory_core::{Items, OutOfMemory};
use std::alloc::Global;

/// Why linking numbers do not distinguish two diagrams: the first cause, if there is one.
pub fn cause_of_links(
    alloc: Global,
    first: &Grid,
    second: &Grid,
    one: &Linked,
    two: &Linked,
) -> Result<Option<Cause>, OutOfMemory>
    ensures { IfOk result (λ o. o ≡ cause_of_links first.now second.now one.now two.now) }
{
    if let Some(cause) = linked_cause(alloc, 1, first, one)? {
        return Ok(Some(cause));
    }
    if let Some(cause) = linked_cause(alloc, 2, second, two)? {
        return Ok(Some(cause));
    }
    if are_same(one, two) {
        return Ok(Some(Cause::Equal));
    }
    Ok(None)
}

/// Why what is said of a link does not hold.
fn linked_cause(
    alloc: Global,
    which: u8,
    grid: &Grid,
    linked: &Linked,
) -> Result<Option<Cause>, OutOfMemory>
    ensures { IfOk result (λ o. o ≡ linked_cause which grid.now linked.now) }
{
    if linked.components != component_count(grid) {
        return Ok(Some(Cause::Components { which }));
    }
    let own = own_numbers(alloc, grid)?;
    Ok(place_cause(
        which,
        first_unequal_of(linked.numbers.as_slice(), own.as_slice()),
    ))
}

/// How many components a link has, and its linking numbers.
pub fn linked_of(alloc: Global, grid: &Grid) -> Result<Linked, OutOfMemory>
    ensures { IfOk result (λ l. l ≡ linked_of grid.now) }
{
    let numbers = own_numbers(alloc, grid)?;
    Ok(Linked {
        components: component_count(grid),
        numbers: Items::from_vec(numbers),
    })
}

/// Whether the same is said of both.
pub fn are_same(one: &Linked, two: &Linked) -> bool
    ensures { result ≡ are_same_links one.now two.now }
{
    one.components == two.components && one.numbers.as_slice() == two.numbers.as_slice()
}

/// How many components the link has.
fn component_count(grid: &Grid) -> u32
    ensures { result ≡ length (components grid.now) }
{
    components_of(grid).len() as u32
}

/// The numbers of all components, in ascending order.
fn components_of(grid: &Grid) -> Rows
    ensures { result.items ≡ components grid.now }
{
    let _size = grid.size();
    let mut found = Rows::new();
    for c in 0..grid.size() {
        if component(grid, c) == c {
            found.push(c);
        }
    }
    found
}

/// The linking numbers of the link.
fn own_numbers(alloc: Global, grid: &Grid) -> Result<Vec<i64>, OutOfMemory>
    ensures { IfOk result (λ v. v.items ≡ linking grid.now) }
{
    let list = linking(alloc, grid)?;
    let mut numbers = Vec::new(alloc);
    for number in list.as_slice() {
        numbers.push(i64::from(*number))?;
    }
    Ok(numbers)
}
