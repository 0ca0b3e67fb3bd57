//! A row, read off its diagram once for the weights of many lists of colours.
ghost use Rattle.std.specs.Prelude.{◌≡◌, ◌<◌, ◌≤◌, map, IfOk};
ghost use Rattle.std.specs.List.{range_with_len};
ghost use Rattle.grid_core.specs.Diagram.{size};
ghost use Rattle.colour_numbers.specs.Lanes.{covering, lane};

use arrayvec::ArrayVec;
use colour_rows::{Pass, Row};
use grid_core::{Grid, MAX_SIZE};
use std::alloc::{AllocFailed, Global};

/// A row of a diagram, with the columns that cover it: those left of its left end, and those that it passes under.
#[derive(Drop)]
pub struct Lane {
    pub row: Row,
    /// Whether the column of the left end is up.
    pub up: bool,
    pub rightward: bool,
    pub before: ArrayVec<Pass, MAX_SIZE>,
    pub passed: ArrayVec<Pass, MAX_SIZE>,
}

impl Lane {
    /// The lane of a row of a grid. Takes no memory.
    fn of(grid: &Grid, row: u8) -> Lane
        requires { row < size grid.now }
        ensures { result ≡ lane grid.now row }
    {
        let _size = grid.size();
        let (left, right) = grid.ends(row);
        Lane {
            row: Row::of(grid, row),
            up: grid.is_up(left),
            rightward: grid.is_rightward(row),
            before: covering(grid, row, 0, left),
            passed: covering(grid, row, left + 1, right),
        }
    }
}

/// The columns from one on and before another that cover a row, from left to right.
fn covering(grid: &Grid, row: u8, from: u8, to: u8) -> ArrayVec<Pass, MAX_SIZE>
    requires { (from ≤ to) × (to < size grid.now) }
    ensures { result.items ≡ covering grid.now row from to }
{
    let _size = grid.size();
    let mut passes = ArrayVec::new();
    for column in from..to {
        if grid.covers(column, row) {
            passes.push(Pass {
                column,
                up: grid.is_up(column),
            });
        }
    }
    passes
}

/// The lanes of all rows of a grid, from the lowest upward.
pub(crate) fn lanes_of(alloc: Global, grid: &Grid) -> Result<Vec<Lane>, AllocFailed<Lane>>
    ensures { IfOk result (λ v. v.items ≡ map (lane grid.now) (range_with_len 0 (size grid.now))) }
{
    let mut lanes = Vec::new(alloc);
    for row in 0..grid.size() {
        lanes.push(Lane::of(grid, row))?;
    }
    Ok(lanes)
}
