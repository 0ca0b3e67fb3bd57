//! A grid read off once, ready to be followed along its strands.
ghost use Rattle.std.specs.Prelude.{◌≡◌, ◌<◌, ◌==◌, ℕ, length, slice_index};
ghost use Rattle.grid_core.specs.declared.grid.TheConstants.{MAX_SIZE};
ghost use Rattle.grid_core.specs.declared.mark.Kind.TheVariants.{Cross, Ring};
ghost use Rattle.grid_core.specs.Diagram.{IsGrid, IsOneEach, size, rows_of, row_of};
ghost use Rattle.grid_core.specs.Span.{lies_within};
ghost use Rattle.grid_core.specs.Parts.{column_of, column_span, ends, is_up, is_rightward, covers};
ghost use Rattle.crossing_codes.specs.Components.{next_column};
ghost use Rattle.crossing_codes.specs.Layout.{HasColumns, cell_place};
ghost use Rattle.crossing_codes.specs.declared.layout.TheConstants.{MAX_CELLS};

use grid_core::{Grid, Kind, MAX_SIZE, Span};
use std::marker::Model;

/// The greatest number of cells of a grid.
pub(crate) const MAX_CELLS: usize = MAX_SIZE * MAX_SIZE;

/// A grid with the columns of its marks by row. Contracts see it as the grid.
#[derive(Drop)]
pub(crate) struct Layout {
    grid: Grid,
    crosses: [u8; MAX_SIZE],
    rings: [u8; MAX_SIZE],
}

impl Model for Layout {
    ghost use Rattle.grid_core.specs.declared.mark.Kind.TheVariants.{Cross, Ring};
    ghost use Rattle.grid_core.specs.Diagram.{Diagram};
    ghost use Rattle.crossing_codes.specs.Layout.{HasColumns};

    ghost Value = { Diagram };

    ghost view = { λ l. l.grid };

    ghost invariant = { λ l. HasColumns Cross l.grid l.crosses × HasColumns Ring l.grid l.rings };
}

impl Layout {
    /// The layout of a grid. Takes no memory.
    pub(crate) fn of(grid: &Grid) -> Layout
        ensures { result ≡ grid.now }
    {
        Layout {
            grid: grid.copy(),
            crosses: columns_by_row(grid, Kind::Cross),
            rings: columns_by_row(grid, Kind::Ring),
        }
    }

    /// The number of columns, which is that of the rows.
    pub(crate) fn size(&self) -> u8
        ensures size { result ≡ size self.now }
        ensures grid { IsGrid self.now }
    {
        self.grid.size()
    }

    /// The column of the mark of a kind in a row.
    fn column_of(&self, kind: Kind, row: u8) -> u8
        requires { row < size self.now }
        ensures column { result ≡ column_of kind self.now row }
        ensures inside { result < size self.now }
    {
        let _size = self.grid.size();
        match kind {
            Kind::Cross => self.crosses[row as usize],
            Kind::Ring => self.rings[row as usize],
        }
    }

    /// The column to which the row of a column's O leads.
    pub(crate) fn next_column(&self, column: u8) -> u8
        requires { column < size self.now }
        ensures column { result ≡ next_column self.now column }
        ensures inside { result < size self.now }
    {
        self.column_of(Kind::Cross, self.grid.row_of(Kind::Ring, column))
    }

    /// The row of the O of a column.
    pub(crate) fn row_after(&self, column: u8) -> u8
        requires { column < size self.now }
        ensures row { result ≡ row_of Ring self.now column }
        ensures inside { result < size self.now }
    {
        self.grid.row_of(Kind::Ring, column)
    }

    /// The interval of rows between the marks of a column.
    pub(crate) fn column_span(&self, column: u8) -> Span
        requires { column < size self.now }
        ensures span { result ≡ column_span self.now column }
        ensures within { (result.low < result.high) × (result.high < size self.now) }
    {
        let _size = self.grid.size();
        self.grid.column_span(column)
    }

    /// The interval of columns between the marks of a row.
    pub(crate) fn row_span(&self, row: u8) -> Span
        requires { row < size self.now }
        ensures span { result ≡ ends self.now row }
        ensures within { (result.low < result.high) × (result.high < size self.now) }
    {
        let _size = self.grid.size();
        Span::between(
            self.column_of(Kind::Cross, row),
            self.column_of(Kind::Ring, row),
        )
    }

    /// Whether a column runs upward.
    pub(crate) fn is_up(&self, column: u8) -> bool
        requires { column < size self.now }
        ensures { result ≡ is_up self.now column }
    {
        self.grid.is_up(column)
    }

    /// Whether a row runs to the right.
    pub(crate) fn is_rightward(&self, row: u8) -> bool
        requires { row < size self.now }
        ensures { result ≡ is_rightward self.now row }
    {
        self.column_of(Kind::Ring, row) < self.column_of(Kind::Cross, row)
    }

    /// Whether a column covers a row.
    pub(crate) fn covers(&self, column: u8, row: u8) -> bool
        requires { column < size self.now }
        ensures { result ≡ covers self.now column row }
    {
        self.grid.covers(column, row)
    }

    /// Whether a column lies strictly between the ends of a row.
    pub(crate) fn lies_across(&self, row: u8, column: u8) -> bool
        requires { row < size self.now }
        ensures { result ≡ lies_within (ends self.now row) column }
    {
        let span = self.row_span(row);
        span.low < column && column < span.high
    }
}

/// The columns of the marks of a kind, by row.
fn columns_by_row(grid: &Grid, kind: Kind) -> [u8; MAX_SIZE]
    ensures { HasColumns kind grid.now result }
{
    let size = grid.size();
    let mut columns = [0; MAX_SIZE];
    for column in 0..size {
        columns[grid.row_of(kind, column) as usize] = column;
    }
    columns
}

/// The place of a cell in a table by row and column.
pub(crate) fn cell(column: u8, row: u8) -> usize
    requires { (column < MAX_SIZE) × (row < MAX_SIZE) }
    ensures is { result ≡ cell_place column row }
    ensures within { result < MAX_CELLS }
{
    row as usize * MAX_SIZE + column as usize
}
