//! Laws of renamings, over the definitions alone.
ghost use Rattle.std.specs.Prelude.{◌≡◌, ◌<◌, ℕ, true, map, length, slice_index_or, IsPermutation};
ghost use Rattle.grid_core.specs.Diagram.{IsOneEach};
ghost use Rattle.quandle_core.specs.Quandle.{Table};
ghost use Rattle.quandle_core.specs.Bijection.{IsBijection};
ghost use Rattle.crossing_codes.specs.declared.crossing.Code.{Code};
ghost use Rattle.crossing_codes.specs.declared.crossing.Crossing.{Crossing};
ghost use Rattle.crossing_codes.specs.CodeColouring.{is_code_colouring};
ghost use Rattle.code_grids.specs.declared.renaming.Renaming.{Renaming};
ghost use Rattle.code_grids.specs.Renaming.{NameEdges, renamed, IsRenaming, IsRenamed};
ghost use Rattle.code_grids.specs.Recoloured.{recoloured};

/// A renaming has each edge's new name once, and each crossing's new place once; and the crossings of the second code are those of the
/// first with their edges renamed, each once.
pub fn a_renaming_is_one_to_one()
    ensures edges { (one two : Code) (r : Renaming) → IsRenaming one two r → IsOneEach one.edges r.edges }
    ensures crossings { (one two : Code) (r : Renaming) → IsRenaming one two r → IsOneEach (length one.crossings) r.crossings }
    ensures same { (one two : Code) (r : Renaming) → IsRenaming one two r
        → IsPermutation (map (renamed r.edges) one.crossings) two.crossings }
{}

/// The places of the crossings determine the new names of all edges that crossings name.
pub fn the_crossings_tell_the_edges()
    ensures { (one two : Code) (r s : Renaming) → IsRenaming one two r → IsRenaming one two s → r.crossings ≡ s.crossings
        → (k : ℕ) (d : Crossing) → k < length one.crossings
        → renamed r.edges (slice_index_or one.crossings k d) ≡ renamed s.edges (slice_index_or one.crossings k d) }
{}

/// To be another code under other names is an equivalence of codes that name their own edges alone.
pub fn renamed_codes_are_equivalent()
    ensures itself { (one : Code) → NameEdges one.edges one.crossings → IsRenamed one one }
    ensures back { (one two : Code) → IsRenamed one two → IsRenamed two one }
    ensures through { (one two three : Code) → IsRenamed one two → IsRenamed two three → IsRenamed one three }
{}

/// Colourings of a code and of the one that it becomes under other names correspond one to one.
pub fn renamed_codes_have_the_same_colourings()
    ensures { (t : Table) (one two : Code) (r : Renaming) → IsRenaming one two r
        → IsBijection (λ colours. is_code_colouring t two colours ≡ true) (λ colours. is_code_colouring t one colours ≡ true) (recoloured r.edges) }
{}
