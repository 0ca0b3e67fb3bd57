//! The components of a link, as classes of the columns of its grid.
ghost use Rattle.std.specs.Prelude.{◌≡◌, ◌<◌, ◌≤◌, ◌==◌, ℕ, length, if◌then◌else◌};
ghost use Rattle.std.specs.List.{range_with_len};
ghost use Rattle.grid_core.specs.declared.grid.TheConstants.{MAX_SIZE};
ghost use Rattle.grid_core.specs.Diagram.{size};
ghost use Rattle.linking_core.specs.Component.{OfOneComponent, united, united_at, component_numbers_below, component_number, components};

use arrayvec::ArrayVec;
use grid_core::{Grid, Rows, Span};

/// The number of the component of a column, which is the component's least column.
///
/// Two columns are of one component where a chain of columns leads from one to the other in which each shares a row with the next.
/// The column is to be below the size. Takes no memory.
pub fn component(grid: &Grid, column: u8) -> u8
    requires { column < size grid.now }
    ensures number { result ≡ component_number grid.now column }
    ensures chain { OfOneComponent grid.now result column }
    ensures least { (b : ℕ) → OfOneComponent grid.now b column → result ≤ b }
{
    let _size = grid.size();
    numbers_of(grid)[column as usize]
}

/// The number of each column's component, from the left.
pub(crate) fn numbers_of(grid: &Grid) -> Rows
    ensures numbers { result.items ≡ component_numbers_below grid.now (size grid.now) }
    ensures long { length result.items ≡ size grid.now }
{
    let size = grid.size();
    let mut numbers = each_by_itself(size);
    for r in 0..size {
        unite_at(grid, r, numbers.as_mut_slice());
    }
    numbers
}

/// The numbers of all components, in ascending order.
pub(crate) fn components_of(grid: &Grid, numbers: &Rows) -> Rows
    requires { numbers.now.items ≡ component_numbers_below grid.now (size grid.now) }
    ensures { result.items ≡ components grid.now }
{
    let mut found = Rows::new();
    for c in 0..grid.size() {
        if number_of(grid, numbers, c) == c {
            found.push(c);
        }
    }
    found
}

/// The number of the component of a column, from the list of them all.
#[tactic(auto, using(crate::proofs::ComponentNumbers::numbers_long))]
pub(crate) fn number_of(grid: &Grid, numbers: &Rows, c: u8) -> u8
    requires numbers { numbers.now.items ≡ component_numbers_below grid.now (size grid.now) }
    requires column { c < size grid.now }
    ensures { result ≡ component_number grid.now c }
{
    numbers[c as usize]
}

/// Each of n columns a component of its own.
fn each_by_itself(n: u8) -> Rows
    requires { n ≤ MAX_SIZE }
    ensures { result.items ≡ range_with_len 0 n }
{
    let mut numbers = ArrayVec::new();
    for c in 0..n {
        numbers.push(c);
    }
    numbers
}

/// The components of the two ends of a row become one.
fn unite_at(grid: &Grid, r: u8, numbers: &mut [u8])
    requires row { r < size grid.now }
    requires long { length numbers.old ≡ size grid.now }
    ensures { numbers.new ≡ united_at grid.now r numbers.old }
{
    let _size = grid.size();
    let (left, right) = grid.ends(r);
    unite(
        Span::between(numbers[left as usize], numbers[right as usize]),
        numbers,
    );
}

/// Two components become one, which keeps the lesser of their numbers.
fn unite(both: Span, numbers: &mut [u8])
    ensures { numbers.new ≡ united both numbers.old }
{
    for place in 0..numbers.len() {
        numbers[place] = after_uniting(both, numbers[place]);
    }
}

/// What becomes of the number of a component when two become one.
fn after_uniting(both: Span, number: u8) -> u8
    ensures { result ≡ (if number == both.high then both.low else number) }
{
    if number == both.high {
        both.low
    } else {
        number
    }
}
