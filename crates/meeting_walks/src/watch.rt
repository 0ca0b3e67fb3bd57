//! How a search reports how far it is.

/// How far the first worker of a search is.
#[derive(Clone, Copy, PartialEq, Eq)]
pub struct Progress {
    /// The steps that it has made.
    pub steps: u64,
    /// The forms in its table: fewer than before where the table was emptied.
    pub forms: usize,
    /// The least size that its walk from the first diagram has reached since the table was last empty.
    pub first_size: u8,
    /// The least size that its walk from the second diagram has reached since then.
    pub second_size: u8,
}

/// Sees a search's progress while it is under way.
pub trait Watch {
    /// Takes note of how far the search is. It is called in the thread that called the search, after each round of at most 65,536 steps,
    /// and has no say in what is found. Translates are joined without a round.
    fn note(&mut self, progress: Progress);
}

/// Takes note of nothing.
#[derive(Clone, Copy)]
pub struct Unwatched;

impl Watch for Unwatched {
    fn note(&mut self, _progress: Progress) {}
}
