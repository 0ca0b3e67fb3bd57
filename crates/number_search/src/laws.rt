//! Laws of evidence that is found, over the definitions alone.
ghost use Rattle.std.specs.Prelude.{◌≡◌, List, Some, None, true, length};
ghost use Rattle.std.specs.List.{All};
ghost use Rattle.grid_core.specs.Diagram.{Diagram, IsGrid};
ghost use Rattle.evidence_core.specs.declared.blocks.Block.{Block};
ghost use Rattle.evidence_core.specs.declared.evidence.Evidence.{Evidence};
ghost use Rattle.linking_core.specs.Component.{components};
ghost use Rattle.linking_core.specs.Linking.{linking};
ghost use Rattle.number_check.specs.EvidenceHolds.{EvidenceHolds, numbers_by};
ghost use Rattle.number_search.specs.declared.seed_pair.SeedPair.{SeedPair};
ghost use Rattle.number_search.specs.Told.{ArePlansOf, fits_both, told_by_linking, told_by_blocks, told_apart};

/// What is found holds: the numbers are the diagrams' own, by seeds that settle them, and differ.
pub fn what_is_told_holds()
    ensures { (d e : Diagram) (s : SeedPair) (blocks : List Block) (evidence : Evidence) → IsGrid d → IsGrid e → ArePlansOf d e s
        → told_apart d e s blocks ≡ Some evidence → EvidenceHolds d e evidence }
{}

/// Where nothing is found, the links have as many components and the same linking numbers, and by each block that fits the plans of both diagrams
/// they have the same numbers of colourings.
pub fn where_nothing_is_told_the_numbers_agree()
    ensures linking { (d e : Diagram) → told_by_linking d e ≡ None → (length (components d) ≡ length (components e)) × (linking d ≡ linking e) }
    ensures blocks { (d e : Diagram) (s : SeedPair) (blocks : List Block) → told_by_blocks d e s blocks ≡ None
        → All (λ (b : Block). fits_both s b ≡ true → numbers_by b d ≡ numbers_by b e) blocks }
{}
