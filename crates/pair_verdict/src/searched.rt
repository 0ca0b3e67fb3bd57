//! What is searched for a list of moves that joins two diagrams: both simplified first.
ghost use Rattle.std.specs.Prelude.{◌≡◌, ◌≤◌, List, IfOk};
ghost use Rattle.grid_core.specs.Diagram.{size};
ghost use Rattle.grid_moves.specs.declared.step.Move.{Move};
ghost use Rattle.grid_moves.specs.Joining.{JoinsWithin};
ghost use Rattle.grid_canon.specs.Tidied.{tidied};
ghost use Rattle.search_book.specs.Bounded.{IsBounded};
ghost use Rattle.pair_verdict.specs.Searched.{AreSimplified, searched, IsWholeList};

use grid_canon::tidy;
use grid_moves::{Move, push_undone};
use memory_core::OutOfMemory;
use mono_simplify::{Simplified, simplify_by};
use next_moves::Offers;
use search_book::Problem;
use std::alloc::Global;

/// The two diagrams of a problem, simplified.
#[derive(Drop)]
pub(crate) struct SimplifiedPair {
    pub(crate) first: Simplified,
    pub(crate) second: Simplified,
}

impl SimplifiedPair {
    /// The diagrams of a problem, the first simplified with its budget and then the second likewise, by one list of offers.
    pub(crate) fn of(
        alloc: Global,
        given: &Problem,
        offers: &mut Offers,
    ) -> Result<SimplifiedPair, OutOfMemory>
        requires { 1 ≤ given.now.budget }
        ensures { IfOk result (λ pair. AreSimplified given.now pair.first pair.second) }
    {
        Ok(SimplifiedPair {
            first: simplify_by(alloc, &given.first, given.budget, offers)?,
            second: simplify_by(alloc, &given.second, given.budget, offers)?,
        })
    }

    /// What is searched: the simplified diagrams, within the cap of the given problem and with its budget.
    pub(crate) fn problem(&self, given: &Problem) -> Problem
        requires simplified { AreSimplified given.now self.now.first self.now.second }
        requires bounded { IsBounded given.now }
        ensures problem { result ≡ searched given.now self.now.first self.now.second }
        ensures bounded { IsBounded result }
    {
        Problem {
            first: self.first.grid.copy(),
            second: self.second.grid.copy(),
            cap: given.cap,
            budget: given.budget,
        }
    }

    /// The whole list, tidied.
    pub(crate) fn tidy_list(
        self,
        alloc: Global,
        given: &Problem,
        between: &[Move],
    ) -> Result<Vec<Move>, OutOfMemory>
        requires simplified { AreSimplified given.now self.first self.second }
        requires bounded { IsBounded given.now }
        requires between { JoinsWithin given.now.cap self.first.grid between.now self.second.grid }
        ensures whole { IfOk result (λ list. (whole : List Move)
            × (IsWholeList given.now self.first self.second between.now whole × (list.items ≡ tidied (size given.now.first) 0 0 whole))) }
        ensures joins { IfOk result (λ list. JoinsWithin given.now.cap given.now.first list.items given.now.second) }
    {
        let whole = self.whole_list(alloc, given, between)?;
        tidy(alloc, &given.first, whole.as_slice())
    }

    /// The list of the given diagrams with a list of the simplified ones: the first simplification's moves, that list, and the
    /// second simplification's moves undone. Takes the memory of the first one's moves for it.
    pub(crate) fn whole_list(
        self,
        alloc: Global,
        given: &Problem,
        between: &[Move],
    ) -> Result<Vec<Move>, OutOfMemory>
        requires simplified { AreSimplified given.now self.first self.second }
        requires bounded { IsBounded given.now }
        requires between { JoinsWithin given.now.cap self.first.grid between.now self.second.grid }
        ensures whole { IfOk result (λ list. IsWholeList given.now self.first self.second between.now list.items) }
        ensures joins { IfOk result (λ list. JoinsWithin given.now.cap given.now.first list.items given.now.second) }
    {
        let SimplifiedPair { first, second } = self;
        let mut list = first.moves.into_vec();
        list.extend_from_slice(between)?;
        push_undone(alloc, &mut list, &given.second, second.moves.as_slice())?;
        Ok(list)
    }
}
