//! Laws of the ruling, over the definitions alone.
ghost use Rattle.std.specs.Prelude.{◌≡◌, ◌↔◌};
ghost use Rattle.grid_core.specs.Diagram.{Diagram, IsGrid};
ghost use Rattle.grid_moves.specs.Joining.{Equivalent};
ghost use Rattle.quandle_core.specs.Quandle.{IsQuandle};
ghost use Rattle.colour_numbers.specs.Numbers.{IsCocycleOrNone};
ghost use Rattle.evidence_core.specs.declared.blocks.Block.{Block};
ghost use Rattle.evidence_core.specs.declared.evidence.Counted.{Counted};
ghost use Rattle.evidence_core.specs.declared.evidence.Linked.{Linked};
ghost use Rattle.evidence_core.specs.declared.evidence.Evidence.{Evidence};
ghost use Rattle.evidence_core.specs.declared.evidence.Evidence.TheVariants.{Numbers, Linking};
ghost use Rattle.number_check.specs.EvidenceHolds.{EvidenceHolds};
ghost use Rattle.number_check.specs.Ruling.{RulesOnEvidence};

use number_check::NumberRuling;

/// Evidence by numbers that holds distinguishes: no list of moves joins the two diagrams.
pub fn what_holds_tells_apart()
    ensures numbers { (d e : Diagram) (b : Block) (one two : Counted) → IsQuandle b.listed.table → IsCocycleOrNone b.cocycle
        → EvidenceHolds d e (Numbers b one two) → Equivalent d e → ⊥ }
    ensures linking { (d e : Diagram) (one two : Linked) → EvidenceHolds d e (Linking one two) → Equivalent d e → ⊥ }
{}

/// The ruling is `Accepted` exactly where the evidence holds.
pub fn evidence_is_accepted_exactly_where_it_holds()
    ensures { (d e : Diagram) (evidence : Evidence) (ruling : NumberRuling) → RulesOnEvidence d e evidence ruling
        → (ruling ≡ NumberRuling.Accepted) ↔ EvidenceHolds d e evidence }
{}

/// On all evidence on two grids there is exactly one ruling.
pub fn evidence_has_exactly_one_ruling()
    ensures some { (d e : Diagram) (evidence : Evidence) → IsGrid d → IsGrid e → (ruling : NumberRuling) × RulesOnEvidence d e evidence ruling }
    ensures single { (d e : Diagram) (evidence : Evidence) (one two : NumberRuling) → RulesOnEvidence d e evidence one → RulesOnEvidence d e evidence two
        → one ≡ two }
{}
