//! What bounds a search, and how many take part in it.

/// What bounds a search, and the seed of its random words. Where several workers search, the bounds are those of each.
#[derive(Clone, Copy, PartialEq, Eq)]
pub struct Bounds {
    /// The seed: for the same diagrams, the same bounds and as many workers, the same list is found again.
    pub seed: u64,
    /// How many steps the walks make before they stop; the start of an excursion is a step, and so is each of its moves. Two excursions,
    /// one of each side, may pass it, since they are ended first. Walks that met no new form in a million steps stop before.
    pub steps: u64,
    /// How many forms the table of the walks holds at most. Two excursions, one of each side, add at most `2 * 512 * MAX_SIZE`. Where there
    /// might not be room for so many more, the table is emptied, and both walks begin anew with the random words that follow. With less
    /// room than for these and the two first forms they do so before every two excursions, and the table may pass the room.
    /// The graph that shortens what the walks find has a bound of its own.
    pub room: usize,
}

/// Bounds, and how many workers search within them.
#[derive(Clone, Copy, PartialEq, Eq)]
pub struct Plan {
    /// The seed of the first worker, and what bounds the walks of each.
    pub bounds: Bounds,
    /// How many workers search; 0 counts as 1. Each has a table of its own, and the seed one above that of the worker before; 0 follows
    /// `u64::MAX`.
    pub workers: u32,
}

impl Bounds {
    /// Those of the worker of a number, counted from 0.
    pub(crate) fn of(self, worker: u32) -> Bounds {
        let mut own = self;
        own.seed = self.seed.wrapping_add(u64::from(worker));
        own
    }
}
