//! A gate at which workers wait for each other.
use search_pool::Gate;
use std::sync::atomic::{AtomicU64, Ordering};
use std::thread;

/// How many turns a pass waits at most.
const TURNS: u64 = 1_000_000_000;

/// A gate at which so many passes meet, after so many that don't wait: each of them but the last waits until that has begun,
/// and notes whether it came. It counts the passes of worker 0 and of worker 1.
#[derive(Drop)]
pub(crate) struct Meeting {
    before: u64,
    together: u64,
    begun: AtomicU64,
    met: AtomicU64,
    in_vain: AtomicU64,
    of_first: AtomicU64,
    of_second: AtomicU64,
}

impl Meeting {
    pub(crate) fn new(before: u64, together: u64) -> Meeting {
        Meeting {
            before,
            together,
            begun: AtomicU64::new(0),
            met: AtomicU64::new(0),
            in_vain: AtomicU64::new(0),
            of_first: AtomicU64::new(0),
            of_second: AtomicU64::new(0),
        }
    }

    /// How many passes saw the last one come, and how many waited in vain.
    pub(crate) fn seen(&self) -> (u64, u64) {
        (
            self.met.load(Ordering::SeqCst),
            self.in_vain.load(Ordering::SeqCst),
        )
    }

    /// How many passes worker 0 made, and worker 1.
    pub(crate) fn passes(&self) -> (u64, u64) {
        (
            self.of_first.load(Ordering::SeqCst),
            self.of_second.load(Ordering::SeqCst),
        )
    }

    /// Whether nobody passed.
    pub(crate) fn is_unused(&self) -> bool {
        self.begun.load(Ordering::SeqCst) == 0
    }

    /// Counts a pass of this worker.
    fn count(&self, worker: u32) {
        match worker {
            0 => {
                self.of_first.fetch_add(1, Ordering::SeqCst);
            }
            1 => {
                self.of_second.fetch_add(1, Ordering::SeqCst);
            }
            _ => {}
        }
    }

    /// Waits until so many passes have begun, and notes whether that came.
    fn wait(&self, last: u64) {
        for turn in 0..TURNS {
            // on a busy machine the others have to get on
            if turn % 1024 == 0 {
                thread::yield_now();
            }
            if self.begun.load(Ordering::SeqCst) >= last {
                self.met.fetch_add(1, Ordering::SeqCst);
                return;
            }
        }
        self.in_vain.fetch_add(1, Ordering::SeqCst);
    }
}

impl Gate for Meeting {
    fn pass(&self, worker: u32, _id: u32) {
        self.count(worker);
        let last = self.before.saturating_add(self.together);
        let begun = self.begun.fetch_add(1, Ordering::SeqCst).saturating_add(1);
        if begun > self.before && begun < last {
            self.wait(last);
        }
    }
}
