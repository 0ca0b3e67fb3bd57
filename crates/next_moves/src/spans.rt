//! The spans of all columns, and of all rows, as lane_spans takes them.
ghost use Rattle.std.specs.Prelude.{◌≡◌, ◌<◌, ◌≤◌, ◌++◌, ◌∷◌, [], ℕ, length, slice_index};
ghost use Rattle.grid_core.specs.declared.grid.TheConstants.{MAX_SIZE};
ghost use Rattle.grid_core.specs.Diagram.{size};
ghost use Rattle.grid_core.specs.Parts.{column_of, column_lows, column_highs, row_lows, row_highs};
ghost use Rattle.grid_core.specs.Span.{share_one_end};
ghost use Rattle.lane_spans.specs.Columns.{has_bit, trades, AreSpans};
ghost use Rattle.grid_canon.specs.ShortTrades.{next};

use crate::side_by_side::next;
use arrayvec::ArrayVec;
use grid_core::{Grid, Kind, MAX_SIZE, Rows, Span};
use lane_spans::exchange_mask;

/// The lower ends and the higher ends of the columns of a grid, or of its rows, by their numbers.
#[derive(Drop)]
pub(crate) struct Spans {
    lows: Rows,
    highs: Rows,
}

impl Spans {
    /// None yet.
    fn new() -> Spans
        ensures lows { result.lows.items ≡ [] }
        ensures highs { result.highs.items ≡ [] }
    {
        Spans {
            lows: ArrayVec::new(),
            highs: ArrayVec::new(),
        }
    }

    /// Those of the columns: each from the row of the lower mark to that of the higher one.
    pub(crate) fn of_columns(grid: &Grid) -> Spans
        ensures lows { result.lows.items ≡ column_lows grid.now }
        ensures highs { result.highs.items ≡ column_highs grid.now }
    {
        let mut spans = Spans::new();
        for c in 0..grid.size() {
            spans.push(grid.column_span(c));
        }
        spans
    }

    /// Those of the rows: each from the column of the left mark to that of the right one.
    pub(crate) fn of_rows(grid: &Grid) -> Spans
        ensures lows { result.lows.items ≡ row_lows grid.now }
        ensures highs { result.highs.items ≡ row_highs grid.now }
    {
        let crosses = columns_by_row(grid, Kind::Cross);
        let rings = columns_by_row(grid, Kind::Ring);
        let mut spans = Spans::new();
        for r in 0..grid.size() {
            spans.push(Span::between(crosses[r as usize], rings[r as usize]));
        }
        spans
    }

    /// Appends one more.
    fn push(&mut self, span: Span)
        requires lows { length self.old.lows.items < MAX_SIZE }
        requires highs { length self.old.highs.items < MAX_SIZE }
        ensures lows { self.new.lows.items ≡ self.old.lows.items ++ span.low ∷ [] }
        ensures highs { self.new.highs.items ≡ self.old.highs.items ++ span.high ∷ [] }
    {
        self.lows.push(span.low);
        self.highs.push(span.high);
    }

    /// The mask of those that may be exchanged with the next one, round the circle.
    pub(crate) fn exchanges(&self) -> u64
        requires same { length self.now.lows.items ≡ length self.now.highs.items }
        requires most { length self.now.lows.items ≤ MAX_SIZE }
        requires spans { AreSpans self.now.lows.items self.now.highs.items }
        ensures { (c : ℕ) → has_bit result c ≡ trades self.now.lows.items self.now.highs.items c }
    {
        exchange_mask(self.lows.as_slice(), self.highs.as_slice())
    }

    /// Whether this one and the next, round the circle of as many as the size, have exactly one end in common.
    pub(crate) fn touch_once(&self, c: u8, size: u8) -> bool
        requires lows { length self.now.lows.items ≡ size }
        requires highs { length self.now.highs.items ≡ size }
        requires inside { c < size }
        ensures { result ≡ share_one_end
            (record { low = slice_index self.now.lows.items c; high = slice_index self.now.highs.items c })
            (record { low = slice_index self.now.lows.items (next size c); high = slice_index self.now.highs.items (next size c) }) }
    {
        let near = self.at(c);
        let far = self.at(next(c, size));
        near.touches(far) && !near.touches_twice(far)
    }

    /// The span of this number.
    fn at(&self, c: u8) -> Span
        requires lows { c < length self.now.lows.items }
        requires highs { c < length self.now.highs.items }
        ensures { result ≡ record { low = slice_index self.now.lows.items c; high = slice_index self.now.highs.items c } }
    {
        Span {
            low: self.lows[c as usize],
            high: self.highs[c as usize],
        }
    }
}

/// The column of the mark of a kind in each row.
fn columns_by_row(grid: &Grid, kind: Kind) -> [u8; MAX_SIZE]
    ensures { (r : ℕ) → r < size grid.now → slice_index result r ≡ column_of kind grid.now r }
{
    let _size = grid.size();
    let mut columns = [0u8; MAX_SIZE];
    for c in 0..grid.size() {
        columns[grid.row_of(kind, c) as usize] = c;
    }
    columns
}
