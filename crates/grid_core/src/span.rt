//! The interval between the two marks of a column or of a row.
ghost use Rattle.std.specs.Prelude.{◌≡◌, ◌||◌};
ghost use Rattle.grid_core.specs.Span.{span, share_an_end, share_both_ends, are_disjoint, are_nested};

/// An interval of rows or of columns, by its lower end and its higher end.
#[derive(Clone, Copy, PartialEq, Eq)]
pub struct Span {
    pub low: u8,
    pub high: u8,
}

impl Span {
    /// The interval with these two ends, in any order.
    pub fn between(a: u8, b: u8) -> Span
        ensures { result ≡ span a b }
    {
        if a < b {
            Span { low: a, high: b }
        } else {
            Span { low: b, high: a }
        }
    }

    /// Whether the two intervals have an end in common.
    pub fn touches(self, other: Span) -> bool
        ensures { result ≡ share_an_end self other }
    {
        self.low == other.low
            || self.low == other.high
            || self.high == other.low
            || self.high == other.high
    }

    /// Whether the two intervals have the same two ends.
    pub fn touches_twice(self, other: Span) -> bool
        ensures { result ≡ share_both_ends self other }
    {
        self.low == other.low && self.high == other.high
    }

    /// Whether the two intervals are disjoint, or one lies strictly within the other.
    pub fn is_clear_of(self, other: Span) -> bool
        ensures { result ≡ (are_disjoint self other || are_nested self other) }
    {
        self.high < other.low
            || other.high < self.low
            || (self.low < other.low && other.high < self.high)
            || (other.low < self.low && self.high < other.high)
    }
}
