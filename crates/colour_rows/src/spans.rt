//! The spans of a diagram's columns, packed so that one kernel finds which of them cover a row.
ghost use Rattle.std.specs.Prelude.{◌≡◌, ℕ};
ghost use Rattle.lane_spans.specs.Columns.{lane_covers, has_bit};
ghost use Rattle.colour_rows.specs.Spans.{spans_of};

use arrayvec::ArrayVec;
use grid_core::{Grid, Rows};
use lane_spans::covering_mask;
use std::marker::Model;

/// The rows of the lower marks of a grid's columns and those of the higher ones, from left to right. They are read off the grid
/// once for all its rows.
#[derive(Drop)]
pub struct Spans {
    low: Rows,
    high: Rows,
}

impl Model for Spans {
    ghost use Rattle.std.specs.Prelude.{◌≡◌, ◌≤◌, length};
    ghost use Rattle.grid_core.specs.declared.grid.TheConstants.{MAX_SIZE};
    ghost use Rattle.colour_rows.specs.Spans.{ColumnSpans};

    ghost Value = { ColumnSpans };

    ghost view = { λ s. record { lows = s.low.items; highs = s.high.items } };

    ghost invariant = { λ s. (length s.low.items ≡ length s.high.items) × (length s.low.items ≤ MAX_SIZE) };
}

impl Spans {
    /// The spans of the columns of a grid. Takes no memory.
    pub fn of(grid: &Grid) -> Spans
        ensures { result ≡ spans_of grid.now }
    {
        let mut low = ArrayVec::new();
        let mut high = ArrayVec::new();
        for column in 0..grid.size() {
            let span = grid.column_span(column);
            low.push(span.low);
            high.push(span.high);
        }
        Spans { low, high }
    }

    /// The mask of the columns that cover a row: bit c is set exactly where column c does.
    pub fn covering(&self, row: u8) -> u64
        ensures { (c : ℕ) → has_bit result c ≡ lane_covers self.now.lows self.now.highs row c }
    {
        covering_mask(self.low.as_slice(), self.high.as_slice(), row)
    }
}
