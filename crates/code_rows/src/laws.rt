//! Laws of codes and of rows, over the definitions alone.
ghost use Rattle.std.specs.Prelude.{◌≡◌, ◌<◌, ◌≤◌, ◌↔◌, ◌⊎◌, ℕ, List, length, slice_index, Some, None};
ghost use Rattle.code_rows.specs.declared.code_fault.TheConstants.{MAX_CROSSINGS};
ghost use Rattle.code_rows.specs.CodeFault.{first_code_fault};
ghost use Rattle.code_rows.specs.CodeMap.{is_plane};
ghost use Rattle.code_rows.specs.Chains.{OfOnePart, HaveOtherEnds, part_number};
ghost use Rattle.code_rows.specs.JoinedEdges.{AreJoined};
ghost use Rattle.code_rows.specs.Rows.{IsCodeOf};
ghost use Rattle.code_rows.specs.RowsFault.{ends_of, unpaired, least_unpaired, IsLeastUnpaired};

use crate::code_fault::CodeFault;
use crate::row::CodeRow;
use crossing_codes::{Code, Crossing};

/// Two crossings are of the same part exactly where a chain of crossings leads from one to the other, each with an edge in common
/// with the next.
pub fn a_part_is_what_chains_join()
    ensures { (xs : List Crossing) (j k : ℕ) → HaveOtherEnds xs → j < length xs → k < length xs
        → (part_number xs j ≡ part_number xs k) ↔ OfOnePart xs j k }
{}

/// The number of a part is the least of its crossings.
pub fn a_part_is_numbered_by_its_least_crossing()
    ensures of_it { (xs : List Crossing) (k : ℕ) → HaveOtherEnds xs → k < length xs → OfOnePart xs (part_number xs k) k }
    ensures least { (xs : List Crossing) (j k : ℕ) → HaveOtherEnds xs → OfOnePart xs j k → part_number xs k ≤ j }
{}

/// In a code without a fault, except perhaps that of the plane, each end of an edge has another one.
pub fn each_end_has_another()
    ensures { (c : Code) → (first_code_fault c ≡ None) ⊎ (first_code_fault c ≡ Some CodeFault.Plane) → HaveOtherEnds c.crossings }
{}

/// Signs don't change the map: of all codes of the same rows, either each is one of spheres or none is.
pub fn the_map_has_no_signs()
    ensures { (rows : List CodeRow) (loops : ℕ) (b c : Code) → IsCodeOf rows loops b → IsCodeOf rows loops c
        → is_plane b.crossings ≡ is_plane c.crossings }
{}

/// Where one of the codes of rows has no fault, another has none exactly where each of its edges leads from one passage to one.
pub fn other_signs_can_only_part_edges()
    ensures { (rows : List CodeRow) (loops : ℕ) (b c : Code) → length rows ≤ MAX_CROSSINGS → unpaired rows loops ≡ None → IsCodeOf rows loops b
        → IsCodeOf rows loops c → first_code_fault b ≡ None → (first_code_fault c ≡ None) ↔ AreJoined c.crossings c.edges }
{}

/// The name that a fault reports is the least that doesn't occur exactly twice; if none is reported, each occurs twice.
pub fn the_edge_told_is_the_least()
    ensures some { (all : List ℕ) (name : ℕ) → least_unpaired all ≡ Some name → IsLeastUnpaired all name }
    ensures none { (all : List ℕ) → least_unpaired all ≡ None → (k : ℕ) → k < length all → ends_of all (slice_index all k) ≡ 2 }
{}
