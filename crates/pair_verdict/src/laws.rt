//! Laws of decisions, over the definitions alone.
ghost use Rattle.std.specs.Prelude.{◌≡◌, ◌≤◌, ◌⊎◌, ◌↔◌, ℕ, List, Option, None};
ghost use Rattle.std.specs.List.{All};
ghost use Rattle.grid_core.specs.Diagram.{Diagram, size};
ghost use Rattle.grid_moves.specs.declared.step.Move.{Move};
ghost use Rattle.grid_moves.specs.Joining.{JoinsWithin, WithinCap};
ghost use Rattle.quandle_core.specs.Quandle.{IsQuandle};
ghost use Rattle.quandle_core.specs.Names.{NamedQuandle};
ghost use Rattle.verdict_core.specs.declared.verdict.Verdict.{Verdict};
ghost use Rattle.verdict_core.specs.Evidence.{Claims, VerdictHolds, HasEvidence, IsTidyVerdict};
ghost use Rattle.next_moves.specs.Reach.{IsReached, HasMembers, HasMoreMembers};
ghost use Rattle.mono_simplify.specs.declared.simplified.Simplified.{Simplified};
ghost use Rattle.search_book.specs.declared.problem.Problem.{Problem};
ghost use Rattle.search_pool.specs.declared.finding.Finding.{Finding};
ghost use Rattle.pair_verdict.specs.Separates.{first_separating};
ghost use Rattle.pair_verdict.specs.Searched.{AreSimplified, IsWholeList};
ghost use Rattle.pair_verdict.specs.Decided.{Decides};

use verdict_core::Verdict;

/// Where moves within a cap join a to s and b to t, they reach from s and t what they reach from a and b, as many diagrams, and
/// join s and t exactly where they join a and b. So a search may begin with s and t in place of a and b.
pub fn joined_diagrams_stand_for_each_other()
    ensures reached { (a b s t : Diagram) (cap : ℕ)
        → WithinCap a s cap
        → WithinCap b t cap
        → (f : Diagram)
        → IsReached s t cap f ↔ IsReached a b cap f }
    ensures joined { (a b s t : Diagram) (cap : ℕ)
        → WithinCap a s cap
        → WithinCap b t cap
        → WithinCap s t cap ↔ WithinCap a b cap }
    ensures members { (a b s t : Diagram) (cap k : ℕ)
        → WithinCap a s cap
        → WithinCap b t cap
        → HasMembers (IsReached s t cap) k
        → HasMembers (IsReached a b cap) k }
    ensures more { (a b s t : Diagram) (cap k : ℕ)
        → WithinCap a s cap
        → WithinCap b t cap
        → HasMoreMembers (IsReached s t cap) k
        → HasMoreMembers (IsReached a b cap) k }
{}

/// The diagrams of a problem within its cap are joined within it to what they are simplified to, which is within it too; a list of
/// the simplified ones within the cap makes a whole list that joins the given ones within it.
pub fn simplified_diagrams_are_joined_to_the_given_ones()
    ensures first { (p : Problem) (one two : Simplified)
        → AreSimplified p one two
        → size p.first ≤ p.cap
        → WithinCap p.first one.grid p.cap × (size one.grid ≤ p.cap) }
    ensures second { (p : Problem) (one two : Simplified)
        → AreSimplified p one two
        → size p.second ≤ p.cap
        → WithinCap p.second two.grid p.cap × (size two.grid ≤ p.cap) }
    ensures whole { (p : Problem) (one two : Simplified) (between list : List Move)
        → AreSimplified p one two
        → size p.first ≤ p.cap
        → size p.second ≤ p.cap
        → JoinsWithin p.cap one.grid between two.grid
        → IsWholeList p one two between list
        → JoinsWithin p.cap p.first list p.second }
{}

/// The table of answers. Where no listed quandle separates the diagrams, two things decide the kind of the verdict: whether
/// moves join them within the cap, and whether moves within the cap reach more canonical diagrams from them than the budget.
///
/// | | at most as many as the budget | more |
/// |---|---|---|
/// | joined | `Equal` | `Equal` or `UnknownBudget` |
/// | not joined | `UnknownExhausted` with their number | `UnknownBudget` |
pub fn reach_and_budget_decide_the_kind()
    ensures joined { (p : Problem) (quandles : List NamedQuandle) (workers : ℕ) (v : Verdict) (kept : Option Finding) (k : ℕ)
        → Decides p quandles workers v kept
        → first_separating p.first p.second quandles ≡ None
        → WithinCap p.first p.second p.cap
        → HasMembers (IsReached p.first p.second p.cap) k
        → k ≤ p.budget
        → (moves : List Move) × (v ≡ Verdict.Equal moves) }
    ensures joined_beyond { (p : Problem) (quandles : List NamedQuandle) (workers : ℕ) (v : Verdict) (kept : Option Finding)
        → Decides p quandles workers v kept
        → first_separating p.first p.second quandles ≡ None
        → WithinCap p.first p.second p.cap
        → ((moves : List Move) × (v ≡ Verdict.Equal moves)) ⊎ (v ≡ Verdict.UnknownBudget p.budget) }
    ensures apart { (p : Problem) (quandles : List NamedQuandle) (workers : ℕ) (v : Verdict) (kept : Option Finding) (k : ℕ)
        → Decides p quandles workers v kept
        → first_separating p.first p.second quandles ≡ None
        → (WithinCap p.first p.second p.cap → ⊥)
        → HasMembers (IsReached p.first p.second p.cap) k
        → k ≤ p.budget
        → v ≡ Verdict.UnknownExhausted p.cap k }
    ensures apart_beyond { (p : Problem) (quandles : List NamedQuandle) (workers : ℕ) (v : Verdict) (kept : Option Finding)
        → Decides p quandles workers v kept
        → first_separating p.first p.second quandles ≡ None
        → (WithinCap p.first p.second p.cap → ⊥)
        → HasMoreMembers (IsReached p.first p.second p.cap) p.budget
        → v ≡ Verdict.UnknownBudget p.budget }
{}

/// What a decision says of the diagrams is true: diagrams said to be equal are equivalent, and no list of moves joins diagrams
/// that are distinguished. Its evidence holds, so a checker accepts it, and its moves, if any, are a tidy list.
pub fn a_decision_is_true()
    ensures claims { (p : Problem) (quandles : List NamedQuandle) (workers : ℕ) (v : Verdict) (kept : Option Finding)
        → All (λ (q : NamedQuandle). IsQuandle q.table) quandles
        → Decides p quandles workers v kept
        → Claims p.first p.second v }
    ensures holds { (p : Problem) (quandles : List NamedQuandle) (workers : ℕ) (v : Verdict) (kept : Option Finding)
        → Decides p quandles workers v kept
        → HasEvidence v
        → VerdictHolds p.first p.second v }
    ensures tidy { (p : Problem) (quandles : List NamedQuandle) (workers : ℕ) (v : Verdict) (kept : Option Finding)
        → Decides p quandles workers v kept
        → IsTidyVerdict v }
{}
