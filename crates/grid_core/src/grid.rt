//! The grid: how it is made, compared and copied, and its rows.
ghost use Rattle.std.specs.Prelude.{◌≡◌, ◌<◌, ◌≤◌, ◌↔◌, length, slice_index, IsTrue, IfOk};
ghost use Rattle.std.specs.List.{All};
ghost use Rattle.std.specs.Result.{result_err};
ghost use Rattle.grid_core.specs.Diagram.{Diagram, IsGrid, size, rows_of, row_of};
ghost use Rattle.grid_core.specs.Fault.{first_grid_fault};

use crate::fault::{GridFault, lowest_outside, lowest_repeated, lowest_same};
use crate::mark::Kind;
use arrayvec::ArrayVec;
use std::marker::Model;

/// The greatest size of a grid: every other place names this constant.
pub const MAX_SIZE: usize = 48;

/// A row for each column, from the left.
pub type Rows = ArrayVec<u8, MAX_SIZE>;

/// A grid diagram (arc presentation: Cromwell 1995, Dynnikov 2006), of size 2 to `MAX_SIZE`.
/// Each column and each row has exactly one X and exactly one O, and no cell has two marks.
/// Contracts see it as two lists, the rows of its Xs and of its Os by column.
#[derive(Drop)]
pub struct Grid {
    x: Rows,
    o: Rows,
}

impl Model for Grid {
    ghost use Rattle.grid_core.specs.Diagram.{Diagram, IsGrid};

    ghost Value = { Diagram };

    ghost view = { λ g. record { x = g.x.items; o = g.o.items } };

    ghost invariant = { λ g. IsGrid (record { x = g.x.items; o = g.o.items }) };
}

impl Grid {
    /// The grid whose column c has its X in row `x[c]` and its O in row `o[c]`, or the first reason why there is none.
    /// The faults are tried in the order of `GridFault`, each for its lowest column. Takes no memory.
    pub fn new(x: &[u8], o: &[u8]) -> Result<Grid, GridFault>
        ensures fault { result_err result ≡ first_grid_fault x.now o.now }
        ensures grid { IfOk result (λ g. g ≡ record { x = x.now; o = o.now }) }
    {
        if x.len() < 2 || x.len() > MAX_SIZE {
            return Err(GridFault::Size);
        }
        if o.len() != x.len() {
            return Err(GridFault::Length);
        }
        if let Some(column) = lowest_outside(x, o) {
            return Err(GridFault::Range { column });
        }
        if let Some(column) = lowest_repeated(x, o) {
            return Err(GridFault::Repeat { column });
        }
        if let Some(column) = lowest_same(x, o) {
            return Err(GridFault::Same { column });
        }
        Ok(Grid::of_rows(rows_from(x), rows_from(o)))
    }

    /// The grid of these rows by column, which must be those of a grid: `new` checks that.
    pub fn of_rows(x: Rows, o: Rows) -> Grid
        requires { IsGrid (record { x = x.items; o = o.items }) }
        ensures { result ≡ record { x = x.items; o = o.items } }
    {
        Grid { x, o }
    }

    /// Replaces its rows by column by these, which must be those of a grid.
    pub fn set_rows(&mut self, x: Rows, o: Rows)
        requires { IsGrid (record { x = x.items; o = o.items }) }
        ensures { self.new ≡ record { x = x.items; o = o.items } }
    {
        self.x = x;
        self.o = o;
    }

    /// A copy of the grid. Takes no memory.
    pub fn copy(&self) -> Self
        ensures { result ≡ self.now }
    {
        Grid {
            x: copy_of(&self.x),
            o: copy_of(&self.o),
        }
    }

    /// Whether the two grids are the same diagram: equal sizes and equal marks.
    pub fn same_as(&self, other: &Grid) -> bool
        ensures { IsTrue result ↔ (self.now ≡ other.now) }
    {
        self.x.as_slice() == other.x.as_slice() && self.o.as_slice() == other.o.as_slice()
    }

    /// The number of columns, which is that of the rows: from 2 to `MAX_SIZE`.
    pub fn size(&self) -> u8
        ensures size { result ≡ size self.now }
        ensures grid { IsGrid self.now }
    {
        self.x.len() as u8
    }

    /// The rows of the marks of one kind, by column from the left.
    pub fn rows(&self, kind: Kind) -> &[u8]
        ensures rows { result.now ≡ rows_of kind self.now }
        ensures inside { All (λ r. r < size self.now) result.now }
    {
        let _size = self.size();
        match kind {
            Kind::Cross => self.x.as_slice(),
            Kind::Ring => self.o.as_slice(),
        }
    }

    /// The row of the mark of a kind in a column.
    pub fn row_of(&self, kind: Kind, c: u8) -> u8
        requires { c < size self.now }
        ensures row { result ≡ row_of kind self.now c }
        ensures inside { result < size self.now }
    {
        let _size = self.size();
        self.rows(kind)[c as usize]
    }

    /// The row of the X of a column.
    pub fn x_row(&self, c: u8) -> u8
        requires { c < size self.now }
        ensures { result ≡ slice_index self.now.x c }
    {
        self.x[c as usize]
    }

    /// The row of the O of a column.
    pub fn o_row(&self, c: u8) -> u8
        requires { c < size self.now }
        ensures { result ≡ slice_index self.now.o c }
    {
        self.o[c as usize]
    }
}

/// The same rows again.
fn copy_of(list: &Rows) -> Rows
    ensures { result ≡ list.now }
{
    let mut copy = ArrayVec::new();
    copy.try_extend_from_slice(list.as_slice()).unwrap();
    copy
}

/// The rows of a list that fits.
fn rows_from(list: &[u8]) -> Rows
    requires { length list.now ≤ MAX_SIZE }
    ensures { result.items ≡ list.now }
{
    let mut rows = ArrayVec::new();
    rows.try_extend_from_slice(list).unwrap();
    rows
}
