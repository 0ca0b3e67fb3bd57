//! Laws of the ruling, over the definitions alone.
ghost use Rattle.std.specs.Prelude.{◌≡◌, ◌≢◌, ◌↔◌, ℕ, List, None, Some, slice_get, take};
ghost use Rattle.arrayvec.specs.ArrayVec.{ArrayVec};
ghost use Rattle.grid_core.specs.Diagram.{Diagram, IsGrid};
ghost use Rattle.grid_moves.specs.Joining.{Equivalent};
ghost use Rattle.quandle_core.specs.Quandle.{Table, IsQuandle};
ghost use Rattle.quandle_core.specs.Names.{NamedQuandle};
ghost use Rattle.verdict_core.specs.Evidence.{Claims, VerdictHolds, TellsApart};
ghost use Rattle.cert_check.specs.Cause.{first_difference, cause_of_lists};
ghost use Rattle.cert_check.specs.Ruling.{RulesOnVerdict};

use cert_check::Ruling;
use grid_moves::Move;
use verdict_core::Verdict;

/// Evidence that holds proves what the verdict claims: moves that join the diagrams, that they are equivalent; lists by which
/// a quandle distinguishes them, that they are not.
pub fn what_holds_is_true()
    ensures equal { (d e : Diagram) (moves : List Move) → VerdictHolds d e (Verdict.Equal moves) → Claims d e (Verdict.Equal moves) }
    ensures different { (d e : Diagram) (listed : NamedQuandle) (one two : List (ArrayVec ℕ))
        → IsQuandle listed.table
        → VerdictHolds d e (Verdict.Different listed one two)
        → Claims d e (Verdict.Different listed one two) }
{}

/// On every verdict on two grids there is exactly one ruling.
pub fn a_verdict_has_exactly_one_ruling()
    ensures some { (d e : Diagram) (verdict : Verdict) → IsGrid d → (ruling : Ruling) × RulesOnVerdict d e verdict ruling }
    ensures single { (d e : Diagram) (verdict : Verdict) (ruling other : Ruling)
        → RulesOnVerdict d e verdict ruling
        → RulesOnVerdict d e verdict other
        → ruling ≡ other }
{}

/// The ruling on a verdict is `Accepted` exactly where its evidence holds.
pub fn a_verdict_is_accepted_exactly_where_its_evidence_holds()
    ensures { (d e : Diagram) (verdict : Verdict) (ruling : Ruling)
        → RulesOnVerdict d e verdict ruling
        → (ruling ≡ Ruling.Accepted) ↔ VerdictHolds d e verdict }
{}

/// An accepted `equal` means that the diagrams are equivalent, an accepted `different` by a quandle that they are not.
/// So no two diagrams have both.
pub fn an_accepted_verdict_is_true()
    ensures equal { (d e : Diagram) (moves : List Move) → RulesOnVerdict d e (Verdict.Equal moves) Ruling.Accepted → Equivalent d e }
    ensures different { (d e : Diagram) (listed : NamedQuandle) (one two : List (ArrayVec ℕ))
        → IsQuandle listed.table
        → RulesOnVerdict d e (Verdict.Different listed one two) Ruling.Accepted
        → Equivalent d e
        → ⊥ }
    ensures not_both { (d e : Diagram) (moves : List Move) (listed : NamedQuandle) (one two : List (ArrayVec ℕ))
        → IsQuandle listed.table
        → RulesOnVerdict d e (Verdict.Equal moves) Ruling.Accepted
        → RulesOnVerdict d e (Verdict.Different listed one two) Ruling.Accepted
        → ⊥ }
{}

/// Two lists have no cause exactly where the quandle distinguishes the diagrams by them.
pub fn lists_without_a_cause_tell_apart()
    ensures { (t : Table) (d e : Diagram) (one two : List (List ℕ)) → (cause_of_lists t d e one two ≡ None) ↔ TellsApart t d e one two }
{}

/// Two lists have no first difference exactly where they are equal. They have it at a place exactly where they agree
/// before it, and at the place have different elements, or only one of them has an element.
pub fn a_first_difference_is_the_first()
    ensures equal { (one two : List (List ℕ)) → (first_difference one two ≡ None) ↔ (one ≡ two) }
    ensures place { (one two : List (List ℕ)) (place : ℕ)
        → (first_difference one two ≡ Some place)
        ↔ ((take place one ≡ take place two) × (slice_get one place ≢ slice_get two place)) }
{}
