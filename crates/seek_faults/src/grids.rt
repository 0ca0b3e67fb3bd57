//! Why lines are no grid.

use crate::numbers::Numbers;
use crate::reason::{Due, Reason};
use grid_core::MAX_SIZE;
use std::fmt;
use text_lines::Line;

/// The kind of the marks of a line.
#[derive(Clone, Copy, PartialEq, Eq)]
pub enum MarkKind {
    Crosses,
    Rings,
}

/// Why a line is no line of a grid.
#[derive(Clone, Copy, PartialEq, Eq)]
pub enum GridReason {
    /// There are more numbers than a diagram may have columns.
    ManyColumns {
        count: usize,
    },
    /// There are fewer than two.
    FewColumns {
        count: usize,
    },
    /// There are not as many Os as Xs.
    OtherCount {
        rings: usize,
        columns: usize,
    },
    /// A number is not below the number of columns.
    NoRow {
        row: u32,
        columns: usize,
    },
    /// A row has two marks of a kind.
    TwoInRow {
        marks: MarkKind,
        row: u32,
        first: usize,
        second: usize,
    },
    /// A column has both its marks in one cell.
    OneCell {
        column: usize,
    },
}

impl fmt::Display for MarkKind {
    fn fmt<W: fmt::Write>(&self, f: &mut fmt::Formatter<W>) -> fmt::Result {
        match self {
            MarkKind::Crosses => write!(f, "Xs"),
            MarkKind::Rings => write!(f, "Os"),
        }
    }
}

impl fmt::Display for GridReason {
    fn fmt<W: fmt::Write>(&self, f: &mut fmt::Formatter<W>) -> fmt::Result {
        match self {
            GridReason::ManyColumns { count } => write!(
                f,
                "{count} columns are more than the {MAX_SIZE} that a diagram may have"
            ),
            GridReason::FewColumns { count } => write!(
                f,
                "a diagram has two columns or more, and this one has {count}"
            ),
            GridReason::OtherCount { rings, columns } => {
                write!(f, "there are {rings} Os in a diagram of {columns} columns")
            }
            GridReason::NoRow { row, columns } => {
                write!(f, "{row} is not a row of a diagram of {columns} columns")
            }
            GridReason::TwoInRow {
                marks,
                row,
                first,
                second,
            } => write!(
                f,
                "row {row} has two {marks}, in columns {first} and {second}"
            ),
            GridReason::OneCell { column } => {
                write!(f, "an X and an O in one cell of column {column}")
            }
        }
    }
}

/// The Xs of a line, after its first word, or why they are none.
pub(crate) fn crosses_of<'a>(line: &mut Line<'a>) -> Result<Numbers<'a>, Reason<'a>> {
    let numbers = Numbers::of(line)?;
    let count = numbers.count;
    if count < 2 {
        return Err(Reason::Grid(GridReason::FewColumns { count }));
    }
    match marks_reason(&numbers, MarkKind::Crosses, count) {
        Some(reason) => Err(Reason::Grid(reason)),
        None => Ok(numbers),
    }
}

/// Why the line of the Os is bad, below these Xs.
pub(crate) fn rings_reason<'a>(crosses: &Numbers, line: &mut Line<'a>, due: Due) -> Reason<'a> {
    let rings = match Numbers::of(line) {
        Ok(rings) => rings,
        Err(reason) => return reason,
    };
    match rings_fault(crosses, &rings) {
        Some(reason) => Reason::Grid(reason),
        None => Reason::Other { due },
    }
}

/// Why numbers are not the Os of a diagram of these Xs.
fn rings_fault(crosses: &Numbers, rings: &Numbers) -> Option<GridReason> {
    let columns = crosses.count;
    if rings.count <= MAX_SIZE && rings.count != columns {
        return Some(GridReason::OtherCount {
            rings: rings.count,
            columns,
        });
    }
    match marks_reason(rings, MarkKind::Rings, columns) {
        Some(reason) => Some(reason),
        None => one_cell(crosses, rings),
    }
}

/// Why numbers are not the rows of the marks of a diagram of so many columns.
fn marks_reason(numbers: &Numbers, marks: MarkKind, columns: usize) -> Option<GridReason> {
    let count = numbers.count;
    if count > MAX_SIZE {
        return Some(GridReason::ManyColumns { count });
    }
    if let Some(row) = numbers.outside(columns) {
        return Some(GridReason::NoRow { row, columns });
    }
    let (first, second) = numbers.repeated()?;
    let row = numbers.first.as_slice().get(first).copied()?;
    Some(GridReason::TwoInRow {
        marks,
        row,
        first,
        second,
    })
}

/// That a column has both its marks in one cell, for the first such column.
fn one_cell(crosses: &Numbers, rings: &Numbers) -> Option<GridReason> {
    let crosses = crosses.first.as_slice();
    let rings = rings.first.as_slice();
    let columns = crosses.len().min(rings.len());
    for column in 0..columns {
        if crosses[column] == rings[column] {
            return Some(GridReason::OneCell { column });
        }
    }
    None
}
