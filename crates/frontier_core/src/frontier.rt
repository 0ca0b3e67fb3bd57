// The frontier.

ghost use Rattle.std.specs.Prelude.{◌≡◌, ◌<◌, ◌++◌, ◌∷◌, [], List, IfOk, IfSome};
ghost use Rattle.frontier_core.specs.Held.{IsHeld, empty, pushed, first_of_least, without_first_of_least};
ghost use Rattle.frontier_core.specs.Order.{SizedId, sized, IsOrderOf, PopsLeast};
ghost use Rattle.frontier_core.specs.declared.sizes.TheConstants.{SIZES};

use crate::queue::Queue;
use crate::sizes::{SIZES, kept_size, least_size, with_size};
use memory_core::OutOfMemory;
use std::alloc::Global;
use std::marker::Model;

/// Ids below a capacity, each held at most once and under a size from 0 to 64. Contracts see, for
/// each size, the list of the ids held of that size in the order in which they were pushed.
#[derive(Drop)]
pub struct Frontier {
    next: Vec<u32>,
    queues: [Queue; SIZES],
    mask: u128,
}

impl Model for Frontier {
    ghost use Rattle.std.specs.Prelude.{map, vec_len};
    ghost use Rattle.frontier_core.specs.Held.{HeldIds};

    ghost Value = { HeldIds };

    ghost use Rattle.frontier_core.specs.Chain.{held_by, IsLinked};

    ghost view = { λ f. held_by f.next.items f.queues };

    ghost invariant = { λ f. IsLinked f.next.items f.queues f.mask };
}

impl Frontier {
    /// A frontier that holds nothing, with the memory for the ids below the capacity: four bytes an
    /// id. `OutOfMemory` if memory runs out.
    pub fn reserve(alloc: Global, capacity: u32) -> Result<Frontier, OutOfMemory>
        ensures lists { IfOk result (λ frontier. frontier ≡ empty capacity) }
        ensures order { IfOk result (λ frontier. IsOrderOf [] frontier) }
    {
        let next = vec![in alloc; 0u32; capacity as usize]?;
        let none = Queue {
            first: 0,
            last: 0,
            count: 0,
        };
        Ok(Frontier {
            next,
            queues: [none; SIZES],
            mask: 0,
        })
    }

    /// Adds an id, which is below the capacity and not held, under a size from 0 to 64, after all
    /// ids of that size that are held.
    pub fn push(&mut self, id: u32, size: u8)
        requires below { id < self.old.capacity }
        requires free { ¬ IsHeld self.old id }
        requires size { size < SIZES }
        ensures lists { self.new ≡ pushed self.old id size }
        ensures order { (order : List SizedId) → IsOrderOf order self.old → IsOrderOf (order ++ sized id size ∷ []) self.new }
    {
        let queue = self.queues[size as usize];
        let end = queue.end_before(id);
        self.next[end as usize] = id;
        self.queues[size as usize] = queue.longer(id);
        self.mask = with_size(self.mask, size);
    }

    /// Removes and returns, of the ids of the least size held, the one that was pushed first;
    /// `None` exactly where nothing is held.
    pub fn pop_least(&mut self) -> Option<u32>
        ensures first { result ≡ first_of_least self.old }
        ensures below { IfSome result (λ id. id < self.old.capacity) }
        ensures rest { self.new ≡ without_first_of_least self.old }
        ensures order { (order : List SizedId) → IsOrderOf order self.old → PopsLeast order result self.new }
    {
        if self.mask == 0 {
            return None;
        }
        let size = least_size(self.mask);
        let queue = self.queues[size as usize];
        let second = self.next[queue.first as usize];
        self.queues[size as usize] = queue.shorter(second);
        self.mask = kept_size(self.mask, size, queue.count > 1);
        Some(queue.first)
    }
}
