//! The components of a grid, as the columns through which each strand runs.
ghost use Rattle.std.specs.Prelude.{◌≡◌, ◌<◌, ◌||◌, ◌==◌, ℕ, length, slice_index_or, false};
ghost use Rattle.std.specs.List.{All, list_any};
ghost use Rattle.grid_core.specs.Diagram.{size};
ghost use Rattle.crossing_codes.specs.Components.{component, component_starts};

use crate::layout::Layout;
use arrayvec::ArrayVec;
use grid_core::MAX_SIZE;

/// Columns, in some order.
pub(crate) type Columns = ArrayVec<u8, MAX_SIZE>;

/// The columns of a component from one of them on, in the order in which its strand runs through them.
pub(crate) fn component(layout: &Layout, start: u8) -> Columns
    requires { start < size layout.now }
    ensures columns { result.items ≡ component layout.now start }
    ensures inside { All (λ c. c < size layout.now) result.items }
{
    let mut columns = Columns::new();
    let mut column = start;
    for _ in 0..layout.size() {
        columns.push(column);
        column = layout.next_column(column);
        if column == start {
            return columns;
        }
    }
    // A strand is back after at most as many columns as there are.
    unreachable!()
}

/// The least columns of the components, from the left.
pub(crate) fn starts(layout: &Layout) -> Columns
    ensures starts { result.items ≡ component_starts layout.now }
    ensures inside { All (λ c. c < size layout.now) result.items }
{
    let mut seen = [false; MAX_SIZE];
    let mut starts = Columns::new();
    for column in 0..layout.size() {
        if !seen[column as usize] {
            mark(&mut seen, component(layout, column).as_slice());
            starts.push(column);
        }
    }
    starts
}

/// Notes columns as seen.
fn mark(seen: &mut [bool], columns: &[u8])
    requires { All (λ c. c < length seen.old) columns.now }
    ensures { (c : ℕ) → c < length seen.old → slice_index_or seen.new c false ≡ (slice_index_or seen.old c false || list_any (λ b. b == c) columns.now) }
{
    for column in columns {
        seen[*column as usize] = true;
    }
}
