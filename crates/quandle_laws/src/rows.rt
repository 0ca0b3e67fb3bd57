//! Laws of walks and colourings, over the definitions alone.
ghost use Rattle.std.specs.Prelude.{◌≡◌, ◌<◌, ◌≤◌, ◌-◌, ◌==◌, ◌↔◌, All, ℕ, List, length, slice_index, slice_set, true, false};
ghost use Rattle.grid_core.specs.Diagram.{Diagram, IsGrid, size};
ghost use Rattle.grid_core.specs.Parts.{covers, ends};
ghost use Rattle.quandle_core.specs.Quandle.{Table, IsQuandle};
ghost use Rattle.colour_rows.specs.Equation.{equation, walk_of, walk_back_of};
ghost use Rattle.colour_rows.specs.Walk.{walk, closes};
ghost use Rattle.colour_rows.specs.Colouring.{IsColouring, is_colouring};
ghost use Rattle.colour_rows.specs.Spans.{spans_of};
ghost use Rattle.lane_spans.specs.Columns.{AreSpans};
ghost use Rattle.lane_spans.specs.Columns as lanes;

/// The test for a colouring passes exactly where there is a colour below the order for each column and each row's walk ends with the colour of its right end.
pub fn a_colouring_closes_each_row()
    ensures { (t : Table) (d : Diagram) (colours : List ℕ) → (is_colouring t d colours ≡ true) ↔ IsColouring t d colours }
{}

/// A row without covering columns between its ends has equal colours at its ends, in each colouring. The lowest row and the highest row are such rows.
pub fn an_uncovered_row_has_equal_ends()
    ensures equal { (t : Table) (d : Diagram) (colours : List ℕ) (r : ℕ) → IsColouring t d colours → r < size d
        → ((c : ℕ) → (ends d r).low < c → c < (ends d r).high → covers d c r ≡ false)
        → slice_index colours (ends d r).low ≡ slice_index colours (ends d r).high }
    ensures lowest { (d : Diagram) (c : ℕ) → covers d c 0 ≡ false }
    ensures highest { (d : Diagram) (c : ℕ) → IsGrid d → covers d c (size d - 1) ≡ false }
{}

/// The equation that is read off a row once has the row's walk; and taken backwards, the walk finds the one colour of the
/// left end with which the row closes.
pub fn the_equation_of_a_row_is_its_walk()
    ensures forth { (t : Table) (d : Diagram) (colours : List ℕ) (r : ℕ) → walk_of t (equation d r) colours ≡ walk t d colours r }
    ensures back { (t : Table) (d : Diagram) (colours : List ℕ) (r a : ℕ) → IsQuandle t → IsGrid d → r < size d
        → size d ≤ length colours
        → All (λ y. y < t.order) colours
        → a < t.order
        → closes t d (slice_set colours (ends d r).low a) r ≡ (walk_back_of t (equation d r) colours == a) }
{}

/// The spans of a diagram's columns as two lists say what the diagram says: a column covers a row by its place in the lists
/// exactly where it covers it in the diagram, and no place after the columns covers any. In a grid each low end lies below
/// its high end.
pub fn the_listed_spans_are_those_of_the_columns()
    ensures columns { (d : Diagram) (c r : ℕ) → c < size d → lanes.lane_covers (spans_of d).lows (spans_of d).highs r c ≡ covers d c r }
    ensures behind { (d : Diagram) (c r : ℕ) → size d ≤ c → lanes.lane_covers (spans_of d).lows (spans_of d).highs r c ≡ false }
    ensures ordered { (d : Diagram) → IsGrid d → AreSpans (spans_of d).lows (spans_of d).highs }
{}
