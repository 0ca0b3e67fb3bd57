//! What the checker of tables answers.

use cert_check::Why;

/// The answer of the checker.
#[derive(Clone, Copy, PartialEq, Eq)]
pub enum TableRuling {
    /// The table holds.
    Accepted,
    /// The table does not hold, and this is the first cause.
    Rejected(TableCause),
}

/// Why a table does not hold: of the first class that doesn't hold, else the first pair of classes that is said to be of different knots
/// and isn't distinguished, else the first row that doesn't hold. Classes, blocks, rows and places are counted from 0.
#[derive(Clone, Copy, PartialEq, Eq)]
pub enum TableCause {
    /// What is said of this class isn't shown.
    Class { class: usize, cause: ClassCause },
    /// These classes aren't left open, and no block has numbers of both that differ.
    Same { first: usize, second: usize },
    /// The moves of this row don't lead to the diagram of its class: one is not legal, or they lead to another diagram.
    Row { row: usize, why: Why },
}

/// Why what is said of a class isn't shown: the first of these that holds of its seeds, else of the first block whose numbers aren't shown.
#[derive(Clone, Copy, PartialEq, Eq)]
pub enum ClassCause {
    /// The first of its seeds that is no column of its diagram.
    Outside { column: u8 },
    /// The leftmost column that its seeds don't settle.
    Unsettled { column: u8 },
    /// Its seeds have more than `MAX_CANDIDATES` choices of colours of this block.
    Wide { block: usize },
    /// Its numbers by this block and the diagram's own first differ at this place, or one of both lists ends there.
    Numbers { block: usize, place: usize },
}
