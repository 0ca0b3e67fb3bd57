//! The seats of workers.
ghost use Rattle.std.specs.Prelude.{◌≡◌, ◌+◌, ◌-◌, ◌<◌, ◌≤◌, ◌^◌, true, if◌then◌else◌};
ghost use Rattle.search_pool.specs.Seats.{SeatState, fresh};

use crate::hand::Hand;
use std::alloc::Global;
use std::marker::Model;
use std::mem;
use std::sync::ledger::{Book as Tally, Ledger, Share};

/// The seat of one worker at a shared book. Contracts see it as its worker's number, the settlements that this worker
/// made, and whether it saw the end of the book. It holds one part of each of the book's two ledgers: what it made is its
/// share of the ledger of settlements, and its share of the ledger of ends is 1 where it saw the end, and else 0. While the worker doesn't
/// work it keeps the room for what the worker has in hand.
#[derive(Drop)]
pub struct Seat<L: Ledger, M: Ledger> {
    worker: u32,
    made: u64,
    saw_end: bool,
    made_share: Share<L>,
    end_share: Share<M>,
    hand: Hand,
}

impl<L: Ledger, M: Ledger> Model for Seat<L, M> {
    ghost use Rattle.std.specs.Prelude.{◌≡◌, if◌then◌else◌};
    ghost use Rattle.search_pool.specs.Seats.{SeatState};

    ghost Value = { SeatState };

    ghost view = { λ s. record { worker = s.worker; made = s.made; saw_end = s.saw_end } };

    ghost invariant = { λ s. (s.made_share.parts ≡ 1)
        × (s.end_share.parts ≡ 1)
        × (s.made_share.amount ≡ s.made)
        × (s.end_share.amount ≡ (if s.saw_end then 1 else 0)) };
}

impl<L: Ledger, M: Ledger> Seat<L, M> {
    /// The number of the worker.
    pub fn worker(&self) -> u32
        ensures { result ≡ self.now.worker }
    {
        self.worker
    }

    /// The settlements that the worker made.
    pub fn made(&self) -> u64
        ensures { result ≡ self.now.made }
    {
        self.made
    }

    /// Whether the worker saw the end of the book.
    pub fn saw_end(&self) -> bool
        ensures { result ≡ self.now.saw_end }
    {
        self.saw_end
    }

    /// The seat of a worker that has made nothing yet, with one part of each ledger.
    pub(crate) fn fresh(
        worker: u32,
        made_share: Share<L>,
        end_share: Share<M>,
        hand: Hand,
    ) -> Seat<L, M>
        requires made_share { (made_share.parts ≡ 1) × (made_share.amount ≡ 0) }
        requires end_share { (end_share.parts ≡ 1) × (end_share.amount ≡ 0) }
        ensures { result ≡ fresh worker }
    {
        Seat {
            worker,
            made: 0,
            saw_end: false,
            made_share,
            end_share,
            hand,
        }
    }

    /// Takes room for the further tasks of the worker, as far as memory for it can be had.
    pub(crate) fn reserve_others(&mut self, alloc: Global)
        ensures { self.new ≡ self.old }
    {
        self.hand.reserve_others(alloc);
    }

    /// Gives the places of the worker for others.
    pub(crate) fn swap_hand(&mut self, hand: &mut Hand)
        ensures { self.new ≡ self.old }
    {
        mem::swap(&mut self.hand, hand);
    }

    /// Counts a settlement, here and in the ledger of settlements.
    pub(crate) fn count(&mut self, made_ledger: &mut Tally<L>)
        requires { made_ledger.old.total < 2 ^ 64 - 1 }
        ensures total { made_ledger.new.total ≡ made_ledger.old.total + 1 }
        ensures seat { self.new ≡ record self.old { made = self.old.made + 1 } }
    {
        // a share is at most the total
        made_ledger.audit(&mut self.made_share);
        made_ledger.add(&mut self.made_share, 1);
        self.made += 1;
    }

    /// Notes that the worker saw the end, here and in the ledger of ends.
    pub(crate) fn note_end(&mut self, end_ledger: &mut Tally<M>)
        ensures seat { self.new ≡ record self.old { saw_end = true } }
    {
        if !self.saw_end {
            end_ledger.add(&mut self.end_share, 1);
            self.saw_end = true;
        }
    }

    /// Gives its parts of the two ledgers back.
    pub(crate) fn give_back(self, made_share: &mut Share<L>, end_share: &mut Share<M>)
        ensures made_parts { made_share.new.parts ≡ made_share.old.parts + 1 }
        ensures made { made_share.new.amount ≡ made_share.old.amount + self.made }
        ensures end_parts { end_share.new.parts ≡ end_share.old.parts + 1 }
        ensures saw_end { end_share.new.amount ≡ end_share.old.amount + (if self.saw_end then 1 else 0) }
    {
        made_share.merge(self.made_share);
        end_share.merge(self.end_share);
    }
}
