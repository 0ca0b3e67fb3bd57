//! A row, read off its diagram once.
ghost use Rattle.std.specs.Prelude.{◌≡◌, ◌<◌, length};
ghost use Rattle.std.specs.List.{All};
ghost use Rattle.grid_core.specs.Diagram.{size};
ghost use Rattle.colour_rows.specs.Equation.{equation, passes, walk_of, walk_back_of};
ghost use Rattle.colour_rows.specs.Spans.{spans_of};

use crate::spans::Spans;
use crate::walking::{leftward, rightward};
use arrayvec::ArrayVec;
use grid_core::{Grid, MAX_SIZE};
use lane_spans::has_bit;
use quandle_core::{Operations, Quandle};
use std::marker::Model;

/// A column that a row passes under.
#[derive(Clone, Copy, Default, PartialEq, Eq)]
pub struct Pass {
    /// The column, from 0 on the left.
    pub column: u8,
    /// Whether its X lies below its O.
    pub up: bool,
}

/// A row's ends and the columns that it passes under, from left to right, ready to be walked under many lists of colours.
///
/// Contracts see it as an `Equation`: its walk is to end with the colour of its right end.
#[derive(Drop)]
pub struct Row {
    left: u8,
    right: u8,
    passed: ArrayVec<Pass, MAX_SIZE>,
}

impl Model for Row {
    ghost use Rattle.std.specs.Prelude.{◌<◌};
    ghost use Rattle.std.specs.List.{All};
    ghost use Rattle.colour_rows.specs.Equation.{Equation};
    ghost use Rattle.colour_rows.specs.declared.equation.Pass.{Pass};

    ghost Value = { Equation };

    ghost view = { λ r. record { left_end = r.left; right_end = r.right; passes = r.passed.items } };

    ghost invariant = { λ r. (r.left < r.right) × All (λ (p : Pass). p.column < r.right) r.passed.items };
}

impl Row {
    /// The row of a grid, counted from 0 at the bottom. Takes no memory.
    pub fn of(grid: &Grid, row: u8) -> Row
        requires { row < size grid.now }
        ensures equation { result ≡ equation grid.now row }
        ensures within { (result.left_end < result.right_end) × (result.right_end < size grid.now) }
    {
        Row::by_spans(grid, &Spans::of(grid), row)
    }

    /// A row of a grid, by the spans of the grid's columns, which serve all its rows.
    pub fn by_spans(grid: &Grid, spans: &Spans, row: u8) -> Row
        requires row { row < size grid.now }
        requires spans { spans.now ≡ spans_of grid.now }
        ensures equation { result ≡ equation grid.now row }
        ensures within { (result.left_end < result.right_end) × (result.right_end < size grid.now) }
    {
        let (left, right) = grid.ends(row);
        let passed = passed(grid, spans, row, left, right);
        Row {
            left,
            right,
            passed,
        }
    }

    /// The column of the row's left end.
    pub fn left(&self) -> u8
        ensures { result ≡ self.now.left_end }
    {
        self.left
    }

    /// The column of the row's right end.
    pub fn right(&self) -> u8
        ensures { result ≡ self.now.right_end }
    {
        self.right
    }

    /// The last colour of the walk that starts with the colour of the left end.
    /// Of the list only the left end and the columns passed are read.
    pub fn walk(&self, quandle: &Quandle, colours: &[u8]) -> u8
        requires within { self.now.right_end < length colours.now }
        requires below { All (λ y. y < quandle.now.order) colours.now }
        ensures { result ≡ walk_of quandle.now self.now colours.now }
    {
        self.walk_by(&quandle.operations(), colours)
    }

    /// The last colour of the walk, by the operations of a quandle of up to `MAX_LARGE_ORDER` colours.
    pub fn walk_by(&self, quandle: &Operations, colours: &[u8]) -> u8
        requires within { self.now.right_end < length colours.now }
        requires below { All (λ y. y < quandle.now.order) colours.now }
        ensures { result ≡ walk_of quandle.now self.now colours.now }
    {
        let _order = quandle.order();
        let mut colour = colours[self.left as usize];
        for pass in self.passed.as_slice() {
            colour = rightward(quandle, pass.up, colour, colours[pass.column as usize]);
        }
        colour
    }

    /// The last colour of the walk taken backwards from the colour of the right end: the one from which `walk` gets there.
    /// Of the list only the right end and the columns passed are read.
    pub fn walk_back(&self, quandle: &Quandle, colours: &[u8]) -> u8
        requires within { self.now.right_end < length colours.now }
        requires below { All (λ y. y < quandle.now.order) colours.now }
        ensures { result ≡ walk_back_of quandle.now self.now colours.now }
    {
        self.walk_back_by(&quandle.operations(), colours)
    }

    /// The last colour of the walk taken backwards, by the operations of a quandle of up to `MAX_LARGE_ORDER` colours.
    pub fn walk_back_by(&self, quandle: &Operations, colours: &[u8]) -> u8
        requires within { self.now.right_end < length colours.now }
        requires below { All (λ y. y < quandle.now.order) colours.now }
        ensures { result ≡ walk_back_of quandle.now self.now colours.now }
    {
        let _order = quandle.order();
        let mut colour = colours[self.right as usize];
        let passed = self.passed.as_slice();
        for done in 0..passed.len() {
            let pass = passed[passed.len() - 1 - done];
            colour = leftward(quandle, pass.up, colour, colours[pass.column as usize]);
        }
        colour
    }
}

/// The columns strictly between two that cover a row, from left to right.
pub(crate) fn passed(
    grid: &Grid,
    spans: &Spans,
    row: u8,
    left: u8,
    right: u8,
) -> ArrayVec<Pass, MAX_SIZE>
    requires columns { (left < right) × (right < size grid.now) }
    requires spans { spans.now ≡ spans_of grid.now }
    ensures { result.items ≡ passes grid.now row left right }
{
    let _size = grid.size();
    let covering = spans.covering(row);
    let mut passed = ArrayVec::new();
    for column in left + 1..right {
        if has_bit(covering, column) {
            passed.push(Pass {
                column,
                up: grid.is_up(column),
            });
        }
    }
    passed
}
