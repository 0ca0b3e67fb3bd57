//! Laws of the numbers, over the definitions alone.
ghost use Rattle.std.specs.Prelude.{◌≡◌, ◌≢◌, Option};
ghost use Rattle.grid_core.specs.Diagram.{Diagram};
ghost use Rattle.grid_moves.specs.Joining.{Equivalent};
ghost use Rattle.quandle_core.specs.Quandle.{Table, IsQuandle};
ghost use Rattle.evidence_core.specs.declared.blocks.LargeWeighing.{LargeWeighing};
ghost use Rattle.colour_numbers.specs.Numbers.{numbers, IsCocycleOrNone};

/// Equivalent diagrams have equal numbers. So two diagrams whose numbers differ are not equivalent.
pub fn equivalent_diagrams_have_equal_numbers()
    ensures equal { (t : Table) (o : Option LargeWeighing) (d e : Diagram) → IsQuandle t → IsCocycleOrNone o → Equivalent d e → numbers t o d ≡ numbers t o e }
    ensures different { (t : Table) (o : Option LargeWeighing) (d e : Diagram) → IsQuandle t → IsCocycleOrNone o → numbers t o d ≢ numbers t o e
        → Equivalent d e → ⊥ }
{}
