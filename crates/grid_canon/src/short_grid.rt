//! Short grids: the rows of at most `MAX_SHORT_SIZE` columns as the digits of two numbers.
ghost use Rattle.std.specs.Prelude.{◌≡◌, ◌<◌, ◌≤◌, ◌+◌, ◌↔◌, slice_index, nat_lt, IsTrue};
ghost use Rattle.std.specs.declared.cmp.Ordering.TheVariants.{Less};
ghost use Rattle.grid_core.specs.Diagram.{IsGrid, size};
ghost use Rattle.grid_core.specs.Parts.{column_span, ends};
ghost use Rattle.grid_moves.specs.Widening.{widened};
ghost use Rattle.grid_moves.specs.Narrowing.{narrowed};
ghost use Rattle.grid_moves.specs.Exchanged.{columns_exchanged, rows_exchanged};
ghost use Rattle.grid_keys.specs.Translation.{translate};
ghost use Rattle.grid_canon.specs.Digits.{short_number};
ghost use Rattle.grid_keys.specs.Order.{compare};
ghost use Rattle.grid_keys.specs.Cornered.{cornered, IsFirstLeast};
ghost use Rattle.grid_canon.specs.LowColumns.{IsCornered, AreLowColumns};
ghost use Rattle.grid_keys.specs.CanonicalForm.{IsLeastKey};
ghost use Rattle.grid_canon.specs.ShortTrades.{trades_of};

use crate::digits::{
    GUARD, MAX_SHORT_SIZE, SHORT_BITS, cut, digits_behind, dropped, exchanged, first_digit, lifted,
    low_digits, lowered, lowered_each, number_of, places, swapped, with_digit, without_digit,
};
use crate::short_trades::{ShortTrades, trades_of};
use crate::spread::short_words;
use grid_core::{Grid, Kind};
use grid_keys::{LeastKey, Packed};
use grid_moves::{Narrowing, Widening};
use std::marker::Model;

/// A grid of at most `MAX_SHORT_SIZE` columns, as two numbers whose digits are its rows: one step of arithmetic moves the marks of all columns.
/// Contracts see it as the diagram.
#[derive(Drop)]
pub struct ShortGrid {
    size: u32,
    /// The rows of the Xs by column, the first column's as the highest digit.
    crosses: u64,
    /// The rows of the Os, likewise.
    rings: u64,
}

impl Model for ShortGrid {
    ghost use Rattle.grid_core.specs.Diagram.{Diagram};
    ghost use Rattle.grid_canon.specs.ShortGrid.{of_digits, IsShort};

    ghost Value = { Diagram };

    ghost view = { λ g. of_digits g.size g.crosses g.rings };

    ghost invariant = { λ g. IsShort g.size g.crosses g.rings };
}

impl ShortGrid {
    /// The short grid of a grid that has at most `MAX_SHORT_SIZE` columns. Takes no memory.
    pub fn of(grid: &Grid) -> ShortGrid
        requires { size grid.now ≤ MAX_SHORT_SIZE }
        ensures { result ≡ grid.now }
    {
        ShortGrid {
            size: u32::from(grid.size()),
            crosses: number_of(grid.rows(Kind::Cross)),
            rings: number_of(grid.rows(Kind::Ring)),
        }
    }

    /// The grid with one more row, and for the marks of each kind one more column, which are known to make a grid. Takes no memory.
    pub fn widened(&self, widening: Widening) -> ShortGrid
        requires grid { IsGrid (widened widening self.now) }
        requires short { size self.now < MAX_SHORT_SIZE }
        requires row { widening.row ≤ size self.now }
        requires crosses { widening.crosses ≤ size self.now }
        requires rings { widening.rings ≤ size self.now }
        ensures { result ≡ widened widening self.now }
    {
        let size = self.size;
        let row = u64::from(widening.row);
        let crosses = lifted(self.crosses, row, size);
        let rings = lifted(self.rings, row, size);
        ShortGrid {
            size: size + 1,
            crosses: with_digit(crosses, row, u32::from(widening.crosses), size),
            rings: with_digit(rings, row, u32::from(widening.rings), size),
        }
    }

    /// The grid without one row and, for the marks of each kind, without one column, which is known to be a grid. Takes no memory.
    pub fn narrowed(&self, narrowing: Narrowing) -> ShortGrid
        requires grid { IsGrid (narrowed narrowing self.now) }
        requires row { narrowing.row < size self.now }
        requires crosses { narrowing.crosses < size self.now }
        requires rings { narrowing.rings < size self.now }
        ensures { result ≡ narrowed narrowing self.now }
    {
        let left = self.size - 1;
        let row = u64::from(narrowing.row);
        let crosses = without_digit(self.crosses, u32::from(narrowing.crosses), self.size);
        let rings = without_digit(self.rings, u32::from(narrowing.rings), self.size);
        ShortGrid {
            size: left,
            crosses: dropped(crosses, row, left),
            rings: dropped(rings, row, left),
        }
    }

    /// The same grid again.
    fn copy(&self) -> ShortGrid
        ensures same { result ≡ self.now }
        ensures grid { IsGrid self.now }
    {
        ShortGrid {
            size: self.size,
            crosses: self.crosses,
            rings: self.rings,
        }
    }

    /// The translate after both shifts, as `translate` makes it of a grid. Takes no memory, and for no shifts nearly no time.
    pub fn translated(&self, columns: u8, rows: u8) -> ShortGrid
        requires columns { columns < size self.now }
        requires rows { rows < size self.now }
        ensures { result ≡ translate self.now columns rows }
    {
        if columns == 0 && rows == 0 {
            self.copy()
        } else {
            self.shifted(columns, rows)
        }
    }

    /// The translate after both shifts: each number is cut at a column, and its digits are lowered.
    fn shifted(&self, columns: u8, rows: u8) -> ShortGrid
        requires columns { columns < size self.now }
        requires rows { rows < size self.now }
        ensures { result ≡ translate self.now columns rows }
    {
        let size = self.size;
        let place = u32::from(columns);
        let by = u64::from(rows);
        ShortGrid {
            size,
            crosses: lowered(cut(self.crosses, place, size), by, size),
            rings: lowered(cut(self.rings, place, size), by, size),
        }
    }

    /// The grid with a column and the next one in each other's place, whether or not it is a move. Takes no memory.
    pub fn with_columns_exchanged(&self, column: u8) -> ShortGrid
        requires { column + 1 < size self.now }
        ensures { result ≡ columns_exchanged column self.now }
    {
        let size = self.size;
        let place = u32::from(column);
        ShortGrid {
            size,
            crosses: swapped(self.crosses, place, size),
            rings: swapped(self.rings, place, size),
        }
    }

    /// The grid with a row and the next one in each other's place, whether or not it is a move. Takes no memory.
    pub fn with_rows_exchanged(&self, row: u8) -> ShortGrid
        requires short { size self.now < MAX_SHORT_SIZE }
        requires row { row + 1 < size self.now }
        ensures { result ≡ rows_exchanged row self.now }
    {
        let size = self.size;
        let first = u64::from(row);
        ShortGrid {
            size,
            crosses: exchanged(self.crosses, first, size),
            rings: exchanged(self.rings, first, size),
        }
    }

    /// Which columns may trade places with the next one, round the circle. Takes no memory.
    pub fn column_trades(&self) -> ShortTrades
        ensures { result ≡ trades_of (size self.now) (column_span self.now) }
    {
        trades_of(self.crosses, self.rings, self.size)
    }

    /// Which rows may trade places with the next one, round the circle. Takes no memory.
    pub fn row_trades(&self) -> ShortTrades
        ensures { result ≡ trades_of (size self.now) (ends self.now) }
    {
        let size = self.size;
        trades_of(places(self.crosses, size), places(self.rings, size), size)
    }

    /// The key of the canonical form with its least shifts, as `canonical_key` answers it for a grid. Takes no memory. It is inlined,
    /// so that its callers write the key into its place at once.
    #[inline(always)]
    pub fn canonical_key(&self) -> LeastKey
        ensures { IsLeastKey self.now result }
    {
        let size = self.size;
        let least = self.least_translate();
        let rings = self.cornered_rings(least.column, least.row);
        LeastKey {
            key: Packed {
                size: size as u8,
                x: short_words(least.crosses, size),
                o: short_words(rings, size),
            },
            columns: least.column as u8,
            rows: least.row as u8,
        }
    }

    /// The least translate with an X in its lower left cell, by the first column that gives it. Mostly few of the columns are marked.
    #[inline(always)]
    fn least_translate(&self) -> Cornered
        ensures first { IsFirstLeast self.now (size self.now) result.column }
        ensures found { IsCornered self.now result.column result.row result.crosses }
    {
        let size = self.size;
        let mut marks = self.low_columns();
        let behind = digits_behind(marks);
        marks -= GUARD << (SHORT_BITS * behind);
        let mut best = self.cornered_at(size - 1 - behind);
        while marks != 0 {
            let behind = digits_behind(marks);
            marks -= GUARD << (SHORT_BITS * behind);
            let next = self.cornered_at(size - 1 - behind);
            if self.comes_before(&next, &best) {
                best = next;
            }
        }
        best
    }

    /// Marks of columns, as guards of their digits: the least translate is that of a marked column, for the X of the second column in it is
    /// lower than in those of the others.
    fn low_columns(&self) -> u64
        ensures { AreLowColumns self.now result }
    {
        let size = self.size;
        low_digits(
            lowered_each(cut(self.crosses, 1, size), self.crosses, size),
            size,
        )
    }

    /// The translate with the X of a column in its lower left cell.
    fn cornered_at(&self, column: u32) -> Cornered
        requires { column < size self.now }
        ensures column { result.column ≡ column }
        ensures found { IsCornered self.now column result.row result.crosses }
    {
        let size = self.size;
        let crosses = cut(self.crosses, column, size);
        let row = first_digit(crosses, size);
        Cornered {
            column,
            row,
            crosses: lowered(crosses, row, size),
        }
    }

    /// Whether one translate comes before another.
    fn comes_before(&self, near: &Cornered, far: &Cornered) -> bool
        requires near { IsCornered self.now near.now.column near.now.row near.now.crosses }
        requires far { IsCornered self.now far.now.column far.now.row far.now.crosses }
        ensures { IsTrue result ↔ (compare (cornered self.now near.now.column) (cornered self.now far.now.column) ≡ Less) }
    {
        let _size = self.size;
        if near.crosses > far.crosses {
            false
        } else if near.crosses < far.crosses {
            true
        } else {
            self.rings_come_before(near, far)
        }
    }

    /// Whether the number of the Os of one translate is below that of another. It is seldom called: kept out of the loop over the
    /// columns, whose numbers so stay in registers.
    #[inline(never)]
    fn rings_come_before(&self, near: &Cornered, far: &Cornered) -> bool
        requires near { IsCornered self.now near.now.column near.now.row near.now.crosses }
        requires far { IsCornered self.now far.now.column far.now.row far.now.crosses }
        ensures { result ≡ nat_lt (short_number (cornered self.now near.now.column).o) (short_number (cornered self.now far.now.column).o) }
    {
        self.cornered_rings(near.column, near.row) < self.cornered_rings(far.column, far.row)
    }

    /// The number of the Os of the translate that has the X of a column, in this row, in its lower left cell.
    fn cornered_rings(&self, column: u32, row: u64) -> u64
        requires column { column < size self.now }
        requires row { row ≡ slice_index self.now.x column }
        ensures { result ≡ short_number (cornered self.now column).o }
    {
        lowered(cut(self.rings, column, self.size), row, self.size)
    }
}

/// A translate with an X in its lower left cell.
#[derive(Clone, Copy, Drop)]
struct Cornered {
    /// The column of this X in the grid.
    column: u32,
    /// Its row.
    row: u64,
    /// The number of the translate's Xs.
    crosses: u64,
}
