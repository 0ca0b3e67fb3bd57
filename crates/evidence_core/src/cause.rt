//! What the checker answers.
ghost use Rattle.std.specs.Prelude.{◌≡◌};
ghost use Rattle.evidence_core.specs.Links.{place_cause};

/// The answer of the checker.
#[derive(Clone, Copy, PartialEq, Eq)]
pub enum NumberRuling {
    /// The evidence holds.
    Accepted,
    /// The evidence does not hold, and this is the first cause.
    Rejected(Cause),
}

/// Why evidence by numbers does not hold: the first of these that holds of diagram 1, else the first that holds of diagram 2, else `Equal`.
#[derive(Clone, Copy, PartialEq, Eq)]
pub enum Cause {
    /// The first of the seeds of this diagram that is no column of it. One that was read as a number over 254 is reported as 255.
    Outside { which: u8, column: u8 },
    /// The leftmost column of this diagram that its seeds do not settle.
    Unsettled { which: u8, column: u8 },
    /// The order of the quandle to the power of so many seeds of this diagram is over `MAX_CANDIDATES`. For a shadow cocycle the exponent is one more.
    Wide { which: u8, seeds: usize },
    /// This link has another number of components than is said.
    Components { which: u8 },
    /// The numbers that are said to be this diagram's and its own first differ at this place, counted from 0, or one of both lists ends there.
    Number { which: u8, place: usize },
    /// What is said of both diagrams is right, and the same.
    Equal,
}

/// The cause of a place at which numbers differ.
pub fn place_cause(which: u8, place: Option<usize>) -> Option<Cause>
    ensures { result ≡ place_cause which place }
{
    match place {
        Some(place) => Some(Cause::Number { which, place }),
        None => None,
    }
}
