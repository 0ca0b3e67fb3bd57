//! The moves and their faults.

use grid_core::{Corner, Kind};

/// A move of a grid diagram of size n (Cromwell 1995, Dynnikov 2006; the slide is made of theirs, see the crate's README).
/// Columns are counted from the left and rows from below, both from 0.
#[derive(Clone, Copy, PartialEq, Eq)]
pub enum Move {
    /// By k, from 1 to n - 1: the k leftmost columns go, in order, to the right end.
    ShiftColumns(u8),
    /// By k, from 1 to n - 1: the k lowest rows go, in order, to the top.
    ShiftRows(u8),
    /// Columns c and c + 1 trade places. Their four marks lie in four different rows, and their intervals are
    /// disjoint or strictly nested.
    ExchangeColumns(u8),
    /// Rows r and r + 1 trade places. Their four marks lie in four different columns, and their intervals are
    /// disjoint or strictly nested.
    ExchangeRows(u8),
    /// Columns c and c + 1 trade places. Their four marks lie in exactly three different rows.
    SlideColumns(u8),
    /// Rows r and r + 1 trade places. Their four marks lie in exactly three different columns.
    SlideRows(u8),
    /// The mark of this kind in this column becomes a block of two columns and two rows with three marks.
    /// The corner gets the other kind, the two cells beside it the kind, and the fourth cell stays empty.
    Stabilise {
        column: u8,
        kind: Kind,
        corner: Corner,
    },
    /// The block of columns `column`, `column + 1` and rows `row`, `row + 1` holds three marks, and becomes the one
    /// mark from which a stabilisation makes it.
    Destabilise {
        column: u8,
        row: u8,
    },
}

/// Why a move is not legal on a grid of size n: the first of these that holds.
#[derive(Clone, Copy, PartialEq, Eq)]
pub enum MoveFault {
    /// A shift by 0 or by n or more, an exchange or a slide whose second column or row lies outside, a stabilisation in
    /// a column that is not there, or a block that reaches outside.
    Range,
    /// The two neighbours of an exchange share a row (or a column), or those of a slide share two.
    Touching,
    /// The intervals of an exchange are neither disjoint nor strictly nested.
    Interleaved,
    /// The block of a destabilisation holds this number of marks, which is not three.
    Block { marks: u8 },
    /// A stabilisation of a grid of the size `MAX_SIZE`.
    Full,
    /// The two neighbours of a slide share no row (or column).
    Apart,
}
