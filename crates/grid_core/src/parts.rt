//! The parts of a grid: intervals, ends, covering columns, directions and bottoms.
ghost use Rattle.std.specs.Prelude.{◌==◌, ◌≡◌, ◌<◌};
ghost use Rattle.std.specs.List.{position};
ghost use Rattle.grid_core.specs.Diagram.{size};
ghost use Rattle.grid_core.specs.Parts.{covers, is_up, is_rightward, bottoms, is_bottom, column_span, column_of, ends};

use crate::grid::Grid;
use crate::mark::Kind;
use crate::span::Span;

impl Grid {
    /// The interval of rows between the two marks of a column.
    pub fn column_span(&self, c: u8) -> Span
        requires { c < size self.now }
        ensures { result ≡ column_span self.now c }
    {
        Span::between(self.x_row(c), self.o_row(c))
    }

    /// The column of the mark of a kind in a row.
    pub fn column_of(&self, kind: Kind, r: u8) -> u8
        requires { r < size self.now }
        ensures inside { result < size self.now }
        ensures column { result ≡ column_of kind self.now r }
    {
        let _size = self.size();
        match place_of(self.rows(kind), r) {
            Some(c) => c as u8,
            None => unreachable!(),
        }
    }

    /// The interval of columns between the two marks of a row: its low end is the left one.
    pub fn row_span(&self, r: u8) -> Span
        requires { r < size self.now }
        ensures span { result ≡ ends self.now r }
        ensures within { (result.low < result.high) × (result.high < size self.now) }
    {
        let _size = self.size();
        Span::between(
            self.column_of(Kind::Cross, r),
            self.column_of(Kind::Ring, r),
        )
    }

    /// The ends of a row: the columns of its two marks, the left one first.
    pub fn ends(&self, r: u8) -> (u8, u8)
        requires { r < size self.now }
        ensures left { result.0 ≡ (ends self.now r).low }
        ensures right { result.1 ≡ (ends self.now r).high }
        ensures within { (result.0 < result.1) × (result.1 < size self.now) }
    {
        let span = self.row_span(r);
        (span.low, span.high)
    }

    /// Whether column c covers row r: the row lies strictly between the column's two marks.
    pub fn covers(&self, c: u8, r: u8) -> bool
        requires { c < size self.now }
        ensures { result ≡ covers self.now c r }
    {
        let span = self.column_span(c);
        span.low < r && r < span.high
    }

    /// Whether a column is up: its X lies below its O. Otherwise it is down.
    pub fn is_up(&self, c: u8) -> bool
        requires { c < size self.now }
        ensures { result ≡ is_up self.now c }
    {
        self.x_row(c) < self.o_row(c)
    }

    /// Whether a row runs to the right: its O lies left of its X.
    pub fn is_rightward(&self, r: u8) -> bool
        requires { r < size self.now }
        ensures { result ≡ is_rightward self.now r }
    {
        self.column_of(Kind::Ring, r) < self.column_of(Kind::Cross, r)
    }

    /// The number of bottoms: rows that are the lower end of both their columns.
    #[tactic(auto, using(crate::proofs::Bottoms::count_more))]
    pub fn bottoms(&self) -> u8
        ensures { result ≡ bottoms self.now }
    {
        let size = self.size();
        let mut count = 0;
        for r in 0..size {
            count += u8::from(self.is_bottom(r));
        }
        count
    }

    /// Whether a row is the lower end of both its columns.
    fn is_bottom(&self, r: u8) -> bool
        requires { r < size self.now }
        ensures { result ≡ is_bottom self.now r }
    {
        let _size = self.size();
        let cross = self.column_of(Kind::Cross, r);
        let ring = self.column_of(Kind::Ring, r);
        self.column_span(cross).low == r && self.column_span(ring).low == r
    }
}

/// The first place of r in a list.
fn place_of(rows: &[u8], r: u8) -> Option<usize>
    ensures { result ≡ position (λ s. s == r) rows.now }
{
    rows.iter().position(|s| *s == r)
}
