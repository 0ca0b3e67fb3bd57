//! Laws of grids, over the definitions alone.
ghost use Rattle.std.specs.Prelude.{◌≡◌, ◌<◌, ◌↔◌, None, ℕ, List, IsTrue, pos, negsuc, not, slice_index, if◌then◌else◌};
ghost use Rattle.grid_core.specs.Diagram.{Diagram, IsGrid, IsGridByMarks, HasMark, size, row_of, other};
ghost use Rattle.grid_core.specs.declared.mark.TheConstants.Corner.{ALL};
ghost use Rattle.grid_core.specs.Corners.{corners};
ghost use Rattle.grid_core.specs.Span.{IsBetween};
ghost use Rattle.grid_core.specs.Parts.{column_of, column_span, ends, column_lows, column_highs, row_lows, row_highs, covers, is_up, is_rightward, is_bottom};
ghost use Rattle.grid_core.specs.Crossing.{crosses, column_direction, row_direction, turned_left, sign, is_positive};
ghost use Rattle.grid_core.specs.Fault.{first_grid_fault};

use grid_core::Kind;

/// Two lists are a grid exactly where they have no fault.
pub fn a_grid_is_what_has_no_fault()
    ensures { (x o : List ℕ) → (first_grid_fault x o ≡ None) ↔ IsGrid (record { x = x; o = o }) }
{}

/// The definition of a grid by its lists agrees with that by its marks.
pub fn a_grid_by_its_marks()
    ensures { (d : Diagram) → IsGrid d ↔ IsGridByMarks d }
{}

/// Each column of a grid has exactly one mark of each kind, in a row below the size.
pub fn a_column_has_one_mark_of_a_kind()
    ensures one { (d : Diagram) → IsGrid d → (kind : Kind) (c : ℕ) → c < size d → HasMark d kind c (row_of kind d c) }
    ensures single { (d : Diagram) → (kind : Kind) (c r s : ℕ) → HasMark d kind c r → HasMark d kind c s → r ≡ s }
    ensures below { (d : Diagram) → IsGrid d → (kind : Kind) (c r : ℕ) → HasMark d kind c r → r < size d }
{}

/// Each row of a grid has exactly one mark of each kind.
pub fn a_row_has_one_mark_of_a_kind()
    ensures one { (d : Diagram) → IsGrid d → (kind : Kind) (r : ℕ) → r < size d → HasMark d kind (column_of kind d r) r }
    ensures single { (d : Diagram) → IsGrid d → (kind : Kind) (c r : ℕ) → HasMark d kind c r → column_of kind d r ≡ c }
{}

/// A grid is the set of its marks.
pub fn a_grid_is_the_set_of_its_marks()
    ensures { (d e : Diagram)
        → IsGrid d
        → IsGrid e
        → ((kind : Kind) (c r : ℕ) → HasMark d kind c r → HasMark e kind c r)
        → ((kind : Kind) (c r : ℕ) → HasMark e kind c r → HasMark d kind c r)
        → d ≡ e }
{}

/// The constant of all corners is the list of the definitions.
pub fn all_corners_stand_in_order()
    ensures { ALL ≡ corners }
{}

/// The lists of all lower and all higher ends have at each place the ends of the span of that column, or of that row.
pub fn the_listed_ends_are_those_of_the_spans()
    ensures columns { (d : Diagram) (c : ℕ)
        → c < size d
        → column_span d c ≡ record { low = slice_index (column_lows d) c; high = slice_index (column_highs d) c } }
    ensures rows { (d : Diagram) (r : ℕ)
        → r < size d
        → ends d r ≡ record { low = slice_index (row_lows d) r; high = slice_index (row_highs d) r } }
{}

/// A column covers the rows strictly between its two marks, whichever of the two is the lower.
pub fn a_column_covers_between_its_marks()
    ensures { (d : Diagram) (c r : ℕ)
        → IsTrue (covers d c r) ↔ IsBetween (row_of Kind.Cross d c) (row_of Kind.Ring d c) r }
{}

/// A row is a bottom exactly where the other marks of both its columns lie above it.
pub fn a_bottom_lies_below_its_columns_other_marks()
    ensures { (d : Diagram) (r : ℕ) → IsGrid d → r < size d
        → IsTrue (is_bottom d r) ↔ ((kind : Kind) → r < row_of kind d (column_of (other kind) d r)) }
{}

/// A column crosses a row exactly where the row lies strictly between the column's two marks, and the column strictly between
/// the row's.
pub fn a_column_crosses_between_the_marks_of_both()
    ensures { (d : Diagram) (c r : ℕ)
        → IsTrue (crosses d c r)
        ↔ (IsBetween (row_of Kind.Cross d c) (row_of Kind.Ring d c) r × IsBetween (column_of Kind.Cross d r) (column_of Kind.Ring d r) c) }
{}

/// A crossing is positive exactly where the strand under runs to the left of the strand over, a quarter turn counterclockwise:
/// where the column runs up and the row to the left, or the column down and the row to the right. Its sign is 1, and else -1.
pub fn a_crossing_is_positive_by_its_directions()
    ensures turn { (d : Diagram) (c r : ℕ) → IsTrue (is_positive d c r) ↔ (row_direction d r ≡ turned_left (column_direction d c)) }
    ensures ways { (d : Diagram) (c r : ℕ) → is_positive d c r ≡ (if is_up d c then not (is_rightward d r) else is_rightward d r) }
    ensures sign { (d : Diagram) (c r : ℕ) → sign d c r ≡ (if is_positive d c r then pos 1 else negsuc 0) }
{}
