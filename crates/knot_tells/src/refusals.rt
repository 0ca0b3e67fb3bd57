//! Why no diagram of a code is answered.

use crate::lines::number_behind;
use std::fmt;

/// Why no diagram of a code is answered.
#[derive(Clone, Copy, PartialEq, Eq)]
pub enum Refusal {
    /// There is no crossing and no loop.
    Empty,
    /// An edge does not occur exactly twice.
    Edge { edge: usize },
    /// Strands run against each other on an edge.
    Direction { edge: usize },
    /// The rows are the code of no diagram in the plane.
    Plane,
    /// The Gauss lines are not those of the rows.
    Gauss,
    /// The drawing is no diagram of the code.
    Drawing,
}

/// Why no diagram is answered, by the text of an answer that says so.
pub(crate) fn refusal_in(text: &[u8]) -> Option<Refusal> {
    if text == b"rejected empty\n".as_slice() {
        return Some(Refusal::Empty);
    }
    if text == b"rejected plane\n".as_slice() {
        return Some(Refusal::Plane);
    }
    if text == b"rejected gauss\n".as_slice() {
        return Some(Refusal::Gauss);
    }
    if text == b"rejected drawing\n".as_slice() {
        return Some(Refusal::Drawing);
    }
    if let Some(edge) = number_behind(b"rejected edge ", text) {
        return Some(Refusal::Edge { edge });
    }
    let edge = number_behind(b"rejected direction ", text)?;
    Some(Refusal::Direction { edge })
}

impl fmt::Display for Refusal {
    fn fmt<W: fmt::Write>(&self, f: &mut fmt::Formatter<W>) -> fmt::Result {
        match self {
            Refusal::Empty => write!(f, "the code has no crossing and no loop"),
            Refusal::Edge { edge } => write!(f, "edge {edge} does not occur exactly twice"),
            Refusal::Direction { edge } => {
                write!(f, "strands run against each other on edge {edge}")
            }
            Refusal::Plane => write!(f, "the code is that of no diagram in the plane"),
            Refusal::Gauss => write!(f, "the lines `gauss` are not those of the rows"),
            Refusal::Drawing => write!(f, "no diagram was found"),
        }
    }
}
