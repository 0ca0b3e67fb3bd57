//! Laws of sound books: what their entries and their ends say of the diagrams that moves reach.
ghost use Rattle.std.specs.Prelude.{◌≡◌, ◌≤◌, ◌↔◌, ℕ, Some, length};
ghost use Rattle.grid_core.specs.Diagram.{Diagram};
ghost use Rattle.next_moves.specs.Reach.{HasMembers, HasMoreMembers};
ghost use Rattle.search_book.specs.State.{State};
ghost use Rattle.search_book.specs.Sound.{IsSound};
ghost use Rattle.search_book.specs.Ended.{IsReachedIn, IsEntered, IsJoined, Shows};

use grid_keys::Packed;
use search_book::{End, Meeting};

/// Moves within the cap reach the diagram of each entry from a diagram of its problem, so there are at most as many
/// entries as diagrams that are reached.
pub fn every_entry_is_reached()
    ensures entry { (s : State) (d : Diagram) → IsSound s → IsEntered s.entries d → IsReachedIn s.problem d }
    ensures count { (s : State) (k : ℕ) → IsSound s → HasMembers (IsReachedIn s.problem) k → length s.entries ≤ k }
{}

/// Where a book is exhausted its entries are exactly what moves reach within the cap, each diagram once, and no list of
/// moves joins the two diagrams within the cap.
pub fn an_exhausted_book_has_all_that_is_reached()
    ensures members { (s : State) → IsSound s → s.end ≡ Some End.Exhausted → HasMembers (IsReachedIn s.problem) (length s.entries) }
    ensures entries { (s : State) (d : Diagram)
        → IsSound s
        → s.end ≡ Some End.Exhausted
        → IsReachedIn s.problem d
        ↔ IsEntered s.entries d }
    ensures apart { (s : State) → IsSound s → s.end ≡ Some End.Exhausted → IsJoined s.problem → ⊥ }
{}

/// Where a book is spent moves reach more diagrams than its budget.
pub fn more_than_the_budget_of_a_spent_book_is_reached()
    ensures { (s : State) (refused : Packed)
        → IsSound s
        → s.end ≡ Some (End.Spent refused)
        → HasMoreMembers (IsReachedIn s.problem) s.problem.budget }
{}

/// Where the sides of a book have met some list of moves joins its two diagrams within the cap.
pub fn the_diagrams_of_a_book_that_met_are_joined()
    ensures { (s : State) (meeting : Meeting) → IsSound s → s.end ≡ Some (End.Met meeting) → IsJoined s.problem }
{}

/// All three in one: what the end of a sound book shows is true.
pub fn an_end_shows_what_is_reached()
    ensures { (s : State) (end : End) → IsSound s → s.end ≡ Some end → Shows s end }
{}
