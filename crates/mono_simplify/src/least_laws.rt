//! Laws of least diagrams, over the definitions alone.
ghost use Rattle.std.specs.Prelude.{◌≡◌, ◌≤◌, ℕ};
ghost use Rattle.grid_core.specs.Diagram.{Diagram, IsGrid};
ghost use Rattle.grid_keys.specs.CanonicalForm.{IsCanonical};
ghost use Rattle.next_moves.specs.Reach.{HasMembers, HasMoreMembers};
ghost use Rattle.mono_simplify.specs.ExchangeClass.{JoinedByExchanges, IsInClass};
ghost use Rattle.mono_simplify.specs.Listing.{HasAtMost};
ghost use Rattle.mono_simplify.specs.Least.{IsLeastReached, IsLeastOfFirst};

/// Two diagrams have one least diagram exactly where shifts and exchanges join them.
pub fn least_diagrams_are_one_exactly_where_exchanges_join()
    ensures joined { (a b d e : Diagram)
        → JoinedByExchanges a b
        → IsLeastReached a d
        → IsLeastReached b e
        → d ≡ e }
    ensures same { (a b d : Diagram) → IsLeastReached a d → IsLeastReached b d → JoinedByExchanges a b }
{}

/// The least diagram that shifts and exchanges reach from a grid is canonical.
pub fn a_least_diagram_is_canonical()
    ensures { (d e : Diagram) → IsGrid d → IsLeastReached d e → IsCanonical e }
{}

/// The two ends, by the number of canonical diagrams that shifts and exchanges reach: at most the budget, or more. So they exclude each
/// other.
pub fn the_ends_count_the_class()
    ensures whole { (d : Diagram) (b : ℕ) → IsGrid d → HasAtMost d b → (k : ℕ) × ((k ≤ b) × HasMembers (IsInClass d) k) }
    ensures spent { (d e : Diagram) (b : ℕ) → IsGrid d → IsLeastOfFirst d b e → HasMoreMembers (IsInClass d) b }
    ensures apart { (d e : Diagram) (b : ℕ) → HasAtMost d b → IsLeastOfFirst d b e → ⊥ }
{}
