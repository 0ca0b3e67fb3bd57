//! The workers of a search, each with walks, a table and random words of its own, and the rounds in which they work.
//!
//! In a round each worker goes on until it has made as many steps as the round allows. Where some have met, the others go on to the
//! least number of steps at which one has. So the answer is that of the fewest steps whatever the threads' order.
ghost use Rattle.std.specs.Prelude.{◌≡◌};
ghost use Rattle.meeting_walks.specs.Rounds.{limit_after};

use crate::plan::Plan;
use crate::watch::Watch;
use crate::worker::Worker;
use grid_core::Grid;
use memory_core::OutOfMemory;
use std::alloc::Global;
use std::thread;
use std::thread::Threads;
use torus_grids::Form;

/// A round has at least so many steps.
const SHORT_ROUND: u64 = 2048;

/// And it has at most so many.
const LONG_ROUND: u64 = 65536;

/// The workers.
#[derive(Drop)]
pub(crate) struct Crew {
    workers: Vec<Worker>,
    /// The steps after which no worker goes on.
    steps: u64,
    /// The steps that the last round allowed.
    limit: u64,
}

/// A path of forms from one diagram's to another's, each a move away from the one before.
#[derive(Drop)]
pub(crate) struct Found {
    pub(crate) path: Vec<Form>,
    /// The seed of the worker that found it.
    pub(crate) seed: u64,
}

impl Crew {
    /// The workers of a plan at their starts.
    pub(crate) fn new(
        alloc: Global,
        first: &Grid,
        second: &Grid,
        plan: Plan,
    ) -> Result<Crew, OutOfMemory> {
        Ok(Crew {
            workers: workers_of(alloc, first, second, plan)?,
            steps: plan.bounds.steps,
            limit: 0,
        })
    }

    /// Works in as many threads as there are workers until the search is over.
    pub(crate) fn work_by<R: Threads + Sync, W: Watch>(
        &mut self,
        rt: &R,
        alloc: Global,
        watch: &mut W,
    ) {
        let threads = self.workers.len().max(1);
        for _round in 0..self.steps {
            let Some(limit) = self.next_limit() else {
                break;
            };
            let go_on = |_at: usize, worker: &mut Worker| worker.walk(alloc, limit);
            thread::for_each_mut(rt, self.workers.as_mut_slice(), threads, &go_on);
            self.report(watch);
        }
    }

    /// Begins a round, and returns the steps that it allows; or None where no worker has steps to make.
    fn next_limit(&mut self) -> Option<u64> {
        let most = self.most_steps();
        if self.is_done(most) {
            return None;
        }
        self.limit = limit_after(self.limit, most);
        Some(self.limit)
    }

    /// The steps after which a worker has no say: the fewest with which one has met, or the bound.
    fn most_steps(&self) -> u64 {
        self.fewest_steps().unwrap_or(self.steps).min(self.steps)
    }

    /// The fewest steps with which a worker has met, or None where none has.
    fn fewest_steps(&self) -> Option<u64> {
        let mut fewest = None;
        for worker in &self.workers {
            if worker.has_met() {
                fewest = Some(worker.made().min(fewest.unwrap_or(u64::MAX)));
            }
        }
        fewest
    }

    /// Whether each worker has ended or made so many steps, or one found no memory.
    fn is_done(&self, most: u64) -> bool {
        let workers = self.workers.as_slice();
        self.is_out_of_memory()
            || workers
                .iter()
                .all(|worker| worker.has_ended() || worker.made() >= most)
    }

    /// Whether a worker found no memory.
    fn is_out_of_memory(&self) -> bool {
        self.workers
            .as_slice()
            .iter()
            .any(|worker| worker.is_out_of_memory())
    }

    /// Tells how far the first worker is.
    fn report<W: Watch>(&self, watch: &mut W) {
        if let Some(worker) = self.workers.as_slice().first() {
            watch.note(worker.progress());
        }
    }

    /// What the worker with the fewest steps has found, or None where none has. It is an error if memory ran out in one of them.
    pub(crate) fn found(&self, alloc: Global) -> Result<Option<Found>, OutOfMemory> {
        if self.is_out_of_memory() {
            return Err(OutOfMemory);
        }
        match self.quickest() {
            Some(worker) => found_by(alloc, worker),
            None => Ok(None),
        }
    }

    /// The worker that has met with the fewest steps, the first of those with as few; or None where none has.
    fn quickest(&self) -> Option<&Worker> {
        let fewest = self.fewest_steps();
        for worker in &self.workers {
            if worker.has_met() && Some(worker.made()) == fewest {
                return Some(worker);
            }
        }
        None
    }
}

/// The workers of a plan, at least one. The seed of each is the one above that of the worker before it.
fn workers_of(
    alloc: Global,
    first: &Grid,
    second: &Grid,
    plan: Plan,
) -> Result<Vec<Worker>, OutOfMemory> {
    let mut workers = Vec::new(alloc);
    for number in 0..plan.workers.max(1) {
        workers.push(Worker::new(alloc, first, second, plan.bounds.of(number))?)?;
    }
    Ok(workers)
}

/// The steps that a round allows after one that allowed so many, where no worker has a say after the most.
fn limit_after(limit: u64, most: u64) -> u64
    ensures { result ≡ limit_after limit most }
{
    let more = (limit / 4).clamp(SHORT_ROUND, LONG_ROUND);
    limit.saturating_add(more).min(most)
}

/// What a worker has found.
fn found_by(alloc: Global, worker: &Worker) -> Result<Option<Found>, OutOfMemory> {
    match worker.path(alloc)? {
        Some(path) => Ok(Some(Found {
            path,
            seed: worker.seed(),
        })),
        None => Ok(None),
    }
}
