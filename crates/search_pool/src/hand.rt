//! What a worker has in hand between its claims and its settlements.
ghost use Rattle.std.specs.Prelude.{◌≡◌, ◌≤◌, Some, None, All};
ghost use Rattle.search_pool.specs.Task.{AllowsOffers};

use crate::gate::Gate;
use crate::hints::HintTable;
use crate::locked::{Task, Waking};
use crate::seat::Seat;
use crate::shared::SharedBook;
use crate::shared_problem::OfProblem;
use crate::task_offers::{TaskOffers, find_in};
use std::alloc::{AllocError, Global};
use std::array;
use std::marker::Model;
use std::sync::Wait;
use std::sync::ledger::Ledger;

/// A place for one task that a worker has in hand, and for its offers, for which memory is taken beforehand. A list of offers stays for the
/// next task, which renews it. Contracts see the task.
#[derive(Drop)]
pub struct TaskPlace {
    task: Option<Task>,
    found: Option<Vec<TaskOffers>>,
}

impl Model for TaskPlace {
    ghost use Rattle.std.specs.Prelude.{Option, IfSome};
    ghost use Rattle.search_pool.specs.declared.locked.Task.{Task};
    ghost use Rattle.search_pool.specs.Task.{AllowsOffers};

    ghost Value = { Option Task };

    ghost view = { λ p. p.task };

    ghost invariant = { λ p. IfSome p.task AllowsOffers };
}

impl TaskPlace {
    /// A place without a task and without room for offers.
    pub fn empty() -> TaskPlace
        ensures { result ≡ None }
    {
        TaskPlace {
            task: None,
            found: None,
        }
    }

    /// Takes memory for one list of offers.
    pub fn reserve(&mut self, alloc: Global) -> Result<(), AllocError>
        ensures { self.new ≡ self.old }
    {
        let room = Vec::with_capacity(alloc, 1)?;
        self.found = Some(room);
        Ok(())
    }

    /// Whether there is room for offers here.
    pub fn has_room(&self) -> bool {
        self.found.is_some()
    }

    /// Whether there was plenty of entries when the task was claimed; false without a task.
    pub fn has_plenty(&self) -> bool {
        match &self.task {
            Some(task) => task.plenty,
            None => false,
        }
    }

    /// Puts a task here.
    pub fn put(&mut self, task: Task)
        requires { AllowsOffers task }
        ensures { self.new ≡ Some task }
    {
        self.task = Some(task);
    }

    /// Notes the ids that the last settlement here left, if it had hints; without a task does nothing.
    pub fn note(&self, table: &mut HintTable) {
        if let (Some(_), Some(room)) = (&self.task, &self.found) {
            for found in room.iter() {
                found.note(table);
            }
        }
    }

    /// Passes the gate for the task and finds its offers; without a task does nothing.
    pub fn find_offers<G: Gate>(&mut self, worker: u32, gate: &G)
        ensures { self.new ≡ self.old }
    {
        let TaskPlace { task, found } = self;
        let Some(task) = task else {
            return;
        };
        gate.pass(worker, task.id);
        if let Some(room) = found {
            find_in(room, task);
        }
    }

    /// Looks up ids for the keys of the offers; without a task does nothing.
    pub fn look(&mut self, table: &HintTable)
        ensures { self.new ≡ self.old }
    {
        let TaskPlace { task, found } = self;
        if task.is_some() {
            if let Some(room) = found {
                if let Some(found) = room.get_mut(0) {
                    found.look(table);
                }
            }
        }
    }

    /// Settles the task, where it and its offers are here, and takes it away. Answers whom that wakes.
    pub fn settle<L: Ledger, M: Ledger, K: OfProblem, R: Wait>(
        &mut self,
        rt: &R,
        shared: &SharedBook<L, M, K>,
        seat: &mut Seat<L, M>,
    ) -> Waking
        ensures place { self.new ≡ None }
        ensures worker { seat.new.worker ≡ seat.old.worker }
        ensures made { seat.old.made ≤ seat.new.made }
    {
        let TaskPlace { task, found } = self;
        let mut waking = Waking::Count(0);
        if let (Some(task), Some(room)) = (&*task, found) {
            if let Some(found) = room.get_mut(0) {
                waking = shared.settle(rt, seat, task.id, found);
            }
        }
        *task = None;
        waking
    }
}

/// How many further tasks a worker has in hand at most.
const OTHERS: usize = 15;

/// The places of a worker: one for the task that it waits for, and further ones for those that it claims after it where there is
/// plenty.
#[derive(Drop)]
pub struct Hand {
    pub first: TaskPlace,
    pub others: [TaskPlace; OTHERS],
}

impl Hand {
    /// Places without tasks, and without room for offers.
    pub fn empty() -> Hand
        ensures first { result.first ≡ None }
        ensures others { All (λ p. p ≡ None) result.others }
    {
        Hand {
            first: TaskPlace::empty(),
            others: array::from_fn(|_| TaskPlace::empty()),
        }
    }

    /// Places of which the first has room for offers.
    pub fn with_first(alloc: Global) -> Result<Hand, AllocError> {
        let mut hand = Hand::empty();
        hand.first.reserve(alloc)?;
        Ok(hand)
    }

    /// Takes memory for a list of offers at each further place, up to the first for which it is refused.
    pub fn reserve_others(&mut self, alloc: Global) {
        for place in self.others.iter_mut() {
            if place.reserve(alloc).is_err() {
                return;
            }
        }
    }

    /// Whether there was plenty of entries when the first task was claimed; false without a task.
    pub fn has_plenty(&self) -> bool {
        self.first.has_plenty()
    }

    /// Notes the ids that the last settlements left at the places with tasks.
    pub fn note(&self, table: &mut HintTable) {
        self.first.note(table);
        for place in self.others.iter() {
            place.note(table);
        }
    }

    /// Passes the gate for each task and finds its offers.
    pub fn find_offers<G: Gate>(&mut self, worker: u32, gate: &G)
        ensures { self.new ≡ self.old }
    {
        self.first.find_offers(worker, gate);
        for place in self.others.iter_mut() {
            place.find_offers(worker, gate);
        }
    }

    /// Looks up ids for the keys of all offers.
    pub fn look(&mut self, table: &HintTable)
        ensures { self.new ≡ self.old }
    {
        self.first.look(table);
        for place in self.others.iter_mut() {
            place.look(table);
        }
    }
}
