//! Laws of crossing codes, over the definitions alone.
ghost use Rattle.std.specs.Prelude.{◌≡◌, ◌<◌, ◌≤◌, ◌+◌, ◌*◌, ◌++◌, ◌↔◌, ◌⊎◌, ℕ, Bool, true, false, List, [], map, take, codes, decimal, flat_map};
ghost use Rattle.std.specs.Prelude.{length, pos, negsuc, slice_index, slice_index_or, Contains, IsTrue, IsPermutation, if◌then◌else◌};
ghost use Rattle.std.specs.List.{range_with_len, AllPairs};
ghost use Rattle.grid_core.specs.declared.mark.Kind.TheVariants.{Cross, Ring};
ghost use Rattle.grid_core.specs.Diagram.{Diagram, IsGrid, size, row_of};
ghost use Rattle.grid_core.specs.Span.{IsBetween};
ghost use Rattle.grid_core.specs.Parts.{column_of};
ghost use Rattle.grid_core.specs.Crossing.{crosses, row_direction, sign};
ghost use Rattle.text_lines.specs.Lines.{lines_of};
ghost use Rattle.quandle_core.specs.Quandle.{Table, IsQuandle};
ghost use Rattle.colour_rows.specs.Colouring.{IsColouring};
ghost use Rattle.colour_list.specs.Listing.{colourings};
ghost use Rattle.quandle_core.specs.Bijection.{IsBijection};
ghost use Rattle.crossing_codes.specs.Components.{component, component_starts};
ghost use Rattle.crossing_codes.specs.declared.passages.Passage.{Passage};
ghost use Rattle.crossing_codes.specs.Passages.{Crossed, crossings, through, along_column, along_row, passages, passages_from};
ghost use Rattle.crossing_codes.specs.StrandPlaces.{place_after, met_after, at_cross};
ghost use Rattle.crossing_codes.specs.Edges.{leads_to, edges_after, edges_before, edge_from, edge_to};
ghost use Rattle.crossing_codes.specs.Code.{opposite, crossing, AreCounterclockwise, code};
ghost use Rattle.crossing_codes.specs.Printed.{crossing_line, pd_text, passage_token};
ghost use Rattle.crossing_codes.specs.CodeColouring.{edge_colour, is_code_colouring, code_colourings};
ghost use Rattle.crossing_codes.specs.EdgeColouring.{edge_colours, place_where_column_begins};

/// The edge colours of each colouring are a colouring of the code, and each colouring of the code is the edge colours of exactly one colouring. So
/// there are as many.
pub fn code_colourings_are_the_colourings()
    ensures one_to_one { (t : Table) (d : Diagram) → IsQuandle t → IsGrid d
        → IsBijection (IsColouring t d) (λ edges. is_code_colouring t (code d) edges ≡ true) (edge_colours t d) }
    ensures count { (t : Table) (d : Diagram) → IsQuandle t → IsGrid d → length (code_colourings t (code d)) ≡ length (colourings t d) }
{}

/// Each column has the colour of the edge or loop on which it begins, and of the edges between which it passes over a row.
pub fn a_column_has_the_colour_of_its_edges()
    ensures begins { (t : Table) (d : Diagram) (colours : List ℕ) (c : ℕ) → IsQuandle t → IsGrid d → IsColouring t d colours
        → c < size d
        → slice_index (edge_colours t d colours) (place_where_column_begins d c) ≡ slice_index colours c }
    ensures comes { (t : Table) (d : Diagram) (colours : List ℕ) (at : Crossed) → IsQuandle t → IsGrid d → IsColouring t d colours
        → Contains (crossings d) at
        → edge_colour (edge_colours t d colours) (edge_from d (through true at)) ≡ slice_index colours at.column }
    ensures goes { (t : Table) (d : Diagram) (colours : List ℕ) (at : Crossed) → IsQuandle t → IsGrid d → IsColouring t d colours
        → Contains (crossings d) at
        → edge_colour (edge_colours t d colours) (edge_to d (through true at)) ≡ slice_index colours at.column }
{}

/// There is a crossing exactly where a column crosses a row of the diagram: it covers the row, and lies strictly between the row's ends.
pub fn where_crossings_stand()
    ensures { (d : Diagram) (at : Crossed)
        → Contains (crossings d) at ↔ ((at.row < size d) × (crosses d at.column at.row ≡ true)) }
{}

/// The components share out the columns: each column is in exactly one, and none comes before the start of its component.
pub fn the_components_share_out_the_columns()
    ensures each { (d : Diagram) → IsGrid d → IsPermutation (range_with_len 0 (size d)) (flat_map (component d) (component_starts d)) }
    ensures least { (d : Diagram) (s c : ℕ) → Contains (component_starts d) s → Contains (component d s) c → s ≤ c }
{}

/// Each crossing is passed once over and once under, so there are twice as many passages as crossings.
pub fn each_crossing_is_passed_twice()
    ensures each { (d : Diagram) → IsGrid d → IsPermutation (passages d) (map (through true) (crossings d) ++ map (through false) (crossings d)) }
    ensures count { (d : Diagram) → IsGrid d → length (passages d) ≡ 2 * length (crossings d) }
{}

/// Crossings are listed by row from the lowest, and in a row by column from the left.
pub fn crossings_stand_by_row_and_column()
    ensures { (d : Diagram) → AllPairs (λ (a b : Crossed). (a.row < b.row) ⊎ ((a.row ≡ b.row) × (a.column < b.column))) (crossings d) }
{}

/// The passages of a component are the crossings that one meets, in this order, as one follows its strand from cell to cell once round:
/// along each column from its X to its O, and along each row from its O to its X.
///
/// Along a column each passage lies between the X and all later ones, and these between it and the O; along a row each lies between
/// the O and all later ones, and these between it and the X. What is met there are the crossings of the column, or of the row.
pub fn passages_follow_the_strand()
    ensures round { (d : Diagram) (c : ℕ) → IsGrid d → c < size d
        → (k : ℕ) × (place_after d k (at_cross d c) ≡ at_cross d c) × (met_after d k (at_cross d c) ≡ passages_from d c) }
    ensures column { (d : Diagram) (c : ℕ)
        → AllPairs (λ (p q : Passage). IsBetween (row_of Cross d c) q.row p.row × IsBetween p.row (row_of Ring d c) q.row) (along_column d c) }
    ensures row { (d : Diagram) (r : ℕ)
        → AllPairs (λ (p q : Passage). IsBetween (column_of Ring d r) q.column p.column × IsBetween p.column (column_of Cross d r) q.column) (along_row d r) }
    ensures over { (d : Diagram) (c : ℕ) (p : Passage)
        → Contains (along_column d c) p ↔ ((p.over ≡ true) × (p.column ≡ c) × IsTrue (crosses d c p.row)) }
    ensures under { (d : Diagram) (r : ℕ) (p : Passage)
        → Contains (along_row d r) p ↔ ((p.over ≡ false) × (p.row ≡ r) × IsTrue (crosses d p.column r)) }
{}

/// An edge is a piece of a strand: from the passage that leads to it, one follows the strand from cell to cell to the one that it leads
/// to, and meets no crossing on the way.
pub fn an_edge_has_no_crossing_on_its_way()
    ensures { (d : Diagram) (p q : Passage) → IsGrid d → Contains (passages d) p → Contains (passages d) q
        → edge_to d p ≡ edge_from d q
        → (k : ℕ) × (place_after d (k + 1) p ≡ q) × (met_after d k p ≡ []) }
{}

/// Each edge leads to one passage, and each comes from one.
pub fn each_edge_lies_between_two_passages()
    ensures ends { (d : Diagram) → IsGrid d → map (edge_from d) (passages d) ≡ range_with_len 1 (length (passages d)) }
    ensures begins { (d : Diagram) → IsGrid d → map (edge_to d) (passages d) ≡ edges_after d }
    ensures each { (d : Diagram) → IsGrid d → IsPermutation (range_with_len 1 (length (passages d))) (edges_after d) }
{}

/// The edges of a component are consecutive, and lie between its passages in their order, the last of which leads back to the first edge.
/// They come after those of the components with lesser starts.
pub fn the_edges_of_a_component_are_consecutive()
    ensures comes { (d : Diagram) (s : ℕ) → IsGrid d → Contains (component_starts d) s
        → map (edge_from d) (passages_from d s) ≡ range_with_len (edges_before d s + 1) (length (passages_from d s)) }
    ensures leads { (d : Diagram) (s : ℕ) → IsGrid d → Contains (component_starts d) s
        → map (edge_to d) (passages_from d s) ≡ leads_to (edges_before d s) (length (passages_from d s)) }
{}

/// The edges of a crossing in its code are listed counterclockwise, from the one on which the strand under comes: this one lies
/// against the direction of the row, and each other one a quarter turn further.
pub fn the_edges_of_a_crossing_stand_counterclockwise()
    ensures { (d : Diagram) (at : Crossed) → AreCounterclockwise d at (opposite (row_direction d at.row)) (crossing d at) }
{}

/// Of the two passages of a crossing the one printed `O` comes on the second or fourth edge of the crossing in its code, which are
/// those of the strand over, and the one printed `U` on the first.
pub fn the_text_tells_over_from_under()
    ensures over { (d : Diagram) (at : Crossed)
        → (take 1 (passage_token d (through true at)) ≡ codes "O")
        × ((edge_from d (through true at) ≡ (crossing d at).second) ⊎ (edge_from d (through true at) ≡ (crossing d at).fourth)) }
    ensures under { (d : Diagram) (at : Crossed)
        → (take 1 (passage_token d (through false at)) ≡ codes "U") × (edge_from d (through false at) ≡ (crossing d at).first) }
{}

/// The number by which the Gauss text names a crossing is that of its line in the text of the code, counted from 1 after the first
/// line, and the sign that it prints is the crossing's.
pub fn the_texts_name_crossings_alike()
    ensures number { (d : Diagram) (over : Bool) (at : Crossed) → IsGrid d → Contains (crossings d) at
        → (n : ℕ)
        × (passage_token d (through over at)
        ≡ (if over then codes "O" else codes "U") ++ (decimal n ++ (if (crossing d at).positive then codes "+" else codes "-")))
        × (slice_index_or (lines_of (pd_text (code d))) n [] ++ codes "\n" ≡ crossing_line (crossing d at)) }
    ensures sign { (d : Diagram) (at : Crossed)
        → sign d at.column at.row ≡ (if (crossing d at).positive then pos 1 else negsuc 0) }
{}
