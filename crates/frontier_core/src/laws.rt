// Laws of pushes and pops in any order, over the definitions.

ghost use Rattle.std.specs.Prelude.{◌≡◌, ◌++◌, ℕ, List, None, IsPermutation};
ghost use Rattle.frontier_core.specs.Held.{first_of_least, ids_of};
ghost use Rattle.frontier_core.specs.Order.{of_size};
ghost use Rattle.frontier_core.specs.Run.{Event, run, SizesFit, all_held};

/// What is pushed comes out exactly once: what came out and what is held are together what was
/// pushed, and where a pop answers that nothing is held, what came out is what was pushed.
pub fn comes_out_once()
    ensures together { (capacity : ℕ) (events : List Event) → SizesFit events
        → IsPermutation (run capacity events).went_in ((run capacity events).came_out ++ all_held (run capacity events).held) }
    ensures drained { (capacity : ℕ) (events : List Event) → SizesFit events
        → first_of_least (run capacity events).held ≡ None
        → IsPermutation (run capacity events).went_in (run capacity events).came_out }
{}

/// Ids of one size come out in the order in which they were pushed: those that came out, followed
/// by those that are held, are those that were pushed.
pub fn same_size_in_order()
    ensures { (capacity : ℕ) (events : List Event) (size : ℕ) → SizesFit events
        → of_size size (run capacity events).went_in
        ≡ of_size size (run capacity events).came_out ++ ids_of (run capacity events).held size }
{}
