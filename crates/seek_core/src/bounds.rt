//! What bounds a search.

use meeting_walks::Plan;
use std::alloc::Global;

/// The most steps of the short walk, which joins most pairs of diagrams of one link. It takes some hundredths of a second.
pub const SHORT_STEPS: u64 = 32_768;

/// How the search for moves is bounded, and how many workers seek. That the same bounds have the same answer is not proved.
#[derive(Clone, Copy, PartialEq, Eq)]
pub struct Bounds {
    /// The seed of the first worker, and what bounds the walks of each.
    pub walks: meeting_walks::Bounds,
    /// How many workers seek, each in a thread and with a seed of its own; 0 counts as 1. The answer is that of the one with the fewest steps.
    pub workers: u32,
}

impl Bounds {
    /// What bounds the walks, and how many workers make them.
    pub(crate) fn plan(self) -> Plan {
        Plan {
            bounds: self.walks,
            workers: self.workers,
        }
    }

    /// These bounds, with at most `SHORT_STEPS` steps: those of the short walk.
    pub(crate) fn short(self) -> Bounds {
        let Bounds { walks, workers } = self;
        Bounds {
            walks: meeting_walks::Bounds {
                seed: walks.seed,
                steps: walks.steps.min(SHORT_STEPS),
                room: walks.room,
            },
            workers,
        }
    }
}

/// What a search may use: threads and memory, within these bounds.
#[derive(Drop)]
pub struct Resources<'a, R> {
    pub rt: &'a R,
    pub alloc: Global,
    pub bounds: Bounds,
}
