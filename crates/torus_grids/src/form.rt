//! One name for all translates of a diagram.

use crate::lines::{Lines, Marks, after};
use crate::torus::Torus;
use grid_core::MAX_SIZE;

/// The columns of which a word holds the marks, each mark in eight bits.
const COLUMNS: usize = 4;

/// The words for all columns of the greatest size.
const WORDS: usize = (MAX_SIZE + COLUMNS - 1) / COLUMNS;

/// A diagram on the torus from one of its columns on, with the X of this column in the lowest row: the column is chosen so that all
/// translates have one form. It is a name for the walks alone, and costs less than the canonical form, which grids are named by.
#[derive(Clone, Copy, PartialEq, Eq, Hash)]
pub struct Form {
    /// The columns' marks, four columns in a word. The size takes the place of the first X, which is in row 0.
    words: [u64; WORDS],
}

impl Form {
    /// The form of a diagram: equal for two diagrams exactly where one is a translate of the other.
    pub fn of(torus: &Torus) -> Form {
        let size = torus.size();
        let mut column = least_column(torus);
        let low = torus.marks(column).cross;
        let mut words = [0u64; WORDS];
        for place in 0..MAX_SIZE.min(size as usize) {
            let marks = bits(shifted(torus.marks(column), low, size));
            words[place / COLUMNS] |= marks << (16 * (place % COLUMNS) as u32);
            column = after(column, size);
        }
        words[0] |= u64::from(size);
        Form { words }
    }

    /// How many columns the diagram has.
    pub fn size(self) -> u8 {
        (self.words[0] % 256) as u8
    }

    /// The diagram of the form, one of the translates that it names.
    pub fn torus(self) -> Torus {
        let size = self.size();
        let mut columns = Lines::none();
        for column in 0..size {
            columns.set(column, self.marks(column));
        }
        Torus::by_columns(size, columns)
    }

    /// The marks of a column.
    fn marks(self, column: u8) -> Marks {
        let place = column as usize;
        let word = self.words[place / COLUMNS % WORDS];
        let value = word >> (16 * (place % COLUMNS) as u32);
        Marks {
            cross: if column == 0 { 0 } else { (value % 256) as u8 },
            ring: (value / 256 % 256) as u8,
        }
    }
}

/// The first column that gives the least form: the one by whose X the next columns' marks are lowest.
fn least_column(torus: &Torus) -> u8 {
    let size = torus.size();
    let mut best = 0;
    let mut best_rise = rise(torus, 0);
    for column in 1..size {
        let next = rise(torus, column);
        if next < best_rise || next == best_rise && comes_before(torus, column, best) {
            best = column;
            best_rise = next;
        }
    }
    best
}

/// How far above the X of a column that of the next one is, round the circle.
fn rise(torus: &Torus, column: u8) -> u8 {
    let size = torus.size();
    lowered_round(
        torus.marks(after(column, size)).cross,
        torus.marks(column).cross,
        size,
    )
}

/// Whether the marks from a column on, by its X, come before those from another one on, by the other's X. It is seldom called: kept out of
/// the loop over the columns.
#[inline(never)]
fn comes_before(torus: &Torus, near: u8, far: u8) -> bool {
    let size = torus.size();
    let near_low = torus.marks(near).cross;
    let far_low = torus.marks(far).cross;
    let mut one = near;
    let mut other = far;
    for _column in 0..size {
        let near_bits = bits(shifted(torus.marks(one), near_low, size));
        let far_bits = bits(shifted(torus.marks(other), far_low, size));
        if near_bits != far_bits {
            return near_bits < far_bits;
        }
        one = after(one, size);
        other = after(other, size);
    }
    false
}

/// The marks of a column with each row lower by a number, round the circle of `size`.
fn shifted(marks: Marks, by: u8, size: u8) -> Marks {
    Marks {
        cross: lowered_round(marks.cross, by, size),
        ring: lowered_round(marks.ring, by, size),
    }
}

/// A row lower by a number, round the circle of `size`: below 0 a number goes round to the greatest ones, so of the difference and the
/// difference one size higher the right one is the less.
fn lowered_round(row: u8, by: u8, size: u8) -> u8 {
    let down = row.wrapping_sub(by);
    down.min(down.wrapping_add(size))
}

/// The two marks as sixteen bits.
fn bits(marks: Marks) -> u64 {
    u64::from(marks.cross) + 256 * u64::from(marks.ring)
}
