//! A diagram as it is given.
ghost use Rattle.std.specs.Prelude.{◌≡◌, ◌≤◌};
ghost use Rattle.grid_core.specs.declared.grid.TheConstants.{MAX_SIZE};
ghost use Rattle.verdict_core.specs.Diagrams.{grid_of, column_count};

use braid_closure::close;
use braid_core::Braid;
use grid_core::Grid;

/// A diagram as it is given.
#[derive(Drop)]
pub enum Diagram {
    /// A grid, by the rows of its marks.
    Grid(Grid),
    /// A braid, which stands for its closure.
    Braid(Braid),
}

impl Diagram {
    /// The grid of the diagram, as a copy: that of a braid is its closure. Takes no memory.
    pub fn grid(&self) -> Grid
        ensures { result ≡ grid_of self.now }
    {
        match self {
            Diagram::Grid(grid) => grid.copy(),
            Diagram::Braid(braid) => close(braid).grid,
        }
    }

    /// The number of its columns, l + 2m for a braid of m strands and l letters, whose closure is not built.
    pub fn columns(&self) -> u8
        ensures columns { result ≡ column_count self.now }
        ensures within { result ≤ MAX_SIZE }
    {
        match self {
            Diagram::Grid(grid) => grid.size(),
            Diagram::Braid(braid) => braid.letters().len() as u8 + 2 * braid.strands(),
        }
    }
}
