//! Colours that go with their columns: shifts of columns, and blocks put in and taken out.
ghost use Rattle.std.specs.Prelude.{◌≡◌, ◌<◌, ◌+◌, length};
ghost use Rattle.grid_core.specs.declared.grid.TheConstants.{MAX_SIZE};
ghost use Rattle.grid_core.specs.Diagram.{size};
ghost use Rattle.colour_laws.specs.Carried.{columns_shifted, stabilised, destabilised};

use arrayvec::ArrayVec;
use colour_rows::Colouring;
use grid_core::Grid;

/// The same colours again.
pub(crate) fn copy_of(colours: &Colouring) -> Colouring
    ensures { result.items ≡ colours.now.items }
{
    let mut copy = ArrayVec::new();
    copy.try_extend_from_slice(colours.as_slice()).unwrap();
    copy
}

/// The colours of the k leftmost columns go, in order, to the right end.
pub(crate) fn shift_columns(grid: &Grid, colours: &Colouring, k: u8) -> Colouring
    requires most { k < size grid.now }
    requires colours { length colours.now.items ≡ size grid.now }
    ensures { result.items ≡ columns_shifted k grid.now colours.now.items }
{
    let (left, right) = colours.as_slice().split_at(k as usize);
    let mut carried = ArrayVec::new();
    carried.try_extend_from_slice(right).unwrap();
    carried.try_extend_from_slice(left).unwrap();
    carried
}

/// Both columns of the block have the old column's colour.
pub(crate) fn stabilise(grid: &Grid, colours: &Colouring, column: u8) -> Colouring
    requires inside { column < size grid.now }
    requires room { size grid.now < MAX_SIZE }
    requires colours { length colours.now.items ≡ size grid.now }
    ensures { result.items ≡ stabilised column grid.now colours.now.items }
{
    let mut carried = copy_of(colours);
    carried.insert(column as usize, colours[column as usize]);
    carried
}

/// The merged column has the colour of the block's left column, which is that of its right one.
pub(crate) fn destabilise(grid: &Grid, colours: &Colouring, column: u8) -> Colouring
    requires inside { column + 1 < size grid.now }
    requires colours { length colours.now.items ≡ size grid.now }
    ensures { result.items ≡ destabilised column grid.now colours.now.items }
{
    let mut carried = copy_of(colours);
    carried.remove(column as usize + 1);
    carried
}
