//! What the checker answers.

use grid_moves::MoveFault;

/// The answer of the checker.
#[derive(Clone, Copy, PartialEq, Eq)]
pub enum Ruling {
    /// The evidence holds.
    Accepted,
    /// The evidence does not hold, and this is the first cause.
    Rejected(Why),
}

/// Why evidence does not hold: `Step` or `OtherEnd` for moves, and for lists of colourings the first of `Wide`, `List` and
/// `SameLength` that holds, the first diagram before the second.
#[derive(Clone, Copy, PartialEq, Eq)]
pub enum Why {
    /// The move at this place, counted from 0, is the first that is not legal, for this fault.
    Step { place: usize, fault: MoveFault },
    /// All moves are legal, and they lead to another diagram.
    OtherEnd,
    /// The quandle does not fit diagram 1 or 2, which has so many bottoms.
    Wide { which: u8, bottoms: u8 },
    /// List 1 or 2 and the complete list of its diagram first differ at this place, counted from 0, or one of them ends there.
    List { which: u8, place: usize },
    /// Both lists are complete, and equally long.
    SameLength,
    /// The verdict claims nothing.
    NoEvidence,
}
