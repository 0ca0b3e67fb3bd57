//! Laws of components and linking numbers, over the definitions alone.
ghost use Rattle.std.specs.Prelude.{◌≡◌, ◌≢◌, ◌<◌, ◌≤◌, ◌↔◌, ℕ, ℤ, pos, ◌≤ℤ◌, length, IsPermutation};
ghost use Rattle.std.specs.List.{AllAdjacentBelow};
ghost use Rattle.grid_core.specs.Diagram.{Diagram, IsGrid, size};
ghost use Rattle.grid_core.specs.Parts.{column_of};
ghost use Rattle.grid_moves.specs.Step.{Step};
ghost use Rattle.grid_moves.specs.Joining.{Equivalent};
ghost use Rattle.linking_core.specs.Component.{OfOneComponent, component_number, row_component_number, components};
ghost use Rattle.linking_core.specs.Linking.{sum_of, linking_numbers, linking};
ghost use Rattle.linking_core.specs.Intersections.{intersections_with_height, intersections_with_column, intersections_between_columns};

use grid_core::{Corner, Kind};
use grid_moves::Move;

/// Two columns have the same component exactly where a chain of columns leads from one to the other, each sharing a row
/// with the next.
pub fn a_component_is_what_chains_join()
    ensures { (d : Diagram) (b c : ℕ) → IsGrid d → b < size d → c < size d → (component_number d b ≡ component_number d c) ↔ OfOneComponent d b c }
{}

/// The number of a component is the least of its columns.
pub fn a_component_is_numbered_by_its_least_column()
    ensures of_it { (d : Diagram) (c : ℕ) → IsGrid d → c < size d → OfOneComponent d (component_number d c) c }
    ensures least { (d : Diagram) (b c : ℕ) → IsGrid d → OfOneComponent d b c → component_number d c ≤ b }
{}

/// A row is of the component of each of its two marks.
pub fn a_row_is_of_the_component_of_its_ends()
    ensures { (d : Diagram) (kind : Kind) (r : ℕ) → IsGrid d → r < size d → row_component_number d r ≡ component_number d (column_of kind d r) }
{}

/// At each height between two neighbouring rows the signed intersections of one component add to 0: as many of its columns go up
/// through the height as down.
pub fn intersections_with_a_height_cancel()
    ensures { (d : Diagram) (i h : ℕ) → IsGrid d → sum_of (intersections_with_height d i h) ≡ pos 0 }
{}

/// The signed intersections of a component with each vertical line that is no column of its own add to 0: it crosses the line as
/// often to the right as to the left.
pub fn intersections_with_a_vertical_line_cancel()
    ensures at_columns { (d : Diagram) (j v : ℕ) → IsGrid d → v < size d → component_number d v ≢ j → sum_of (intersections_with_column d j v) ≡ pos 0 }
    ensures between_columns { (d : Diagram) (j v : ℕ) → IsGrid d → sum_of (intersections_between_columns d j v) ≡ pos 0 }
{}

/// The list has the linking numbers of all ordered pairs of different components, each at most the next one.
pub fn the_list_is_ascending()
    ensures same { (d : Diagram) → IsPermutation (linking_numbers d) (linking d) }
    ensures ascending { (d : Diagram) → AllAdjacentBelow (λ (y z : ℤ). y ≤ℤ z) (linking d) (length (linking d)) }
{}

/// A shift of columns keeps the number of components and the list of linking numbers.
pub fn shift_columns()
    ensures components { (d e : Diagram) (k : ℕ) → Step d (Move.ShiftColumns k) e → length (components d) ≡ length (components e) }
    ensures list { (d e : Diagram) (k : ℕ) → Step d (Move.ShiftColumns k) e → linking d ≡ linking e }
{}

/// A shift of rows keeps both.
pub fn shift_rows()
    ensures components { (d e : Diagram) (k : ℕ) → Step d (Move.ShiftRows k) e → length (components d) ≡ length (components e) }
    ensures list { (d e : Diagram) (k : ℕ) → Step d (Move.ShiftRows k) e → linking d ≡ linking e }
{}

/// An exchange of columns keeps both.
pub fn exchange_columns()
    ensures components { (d e : Diagram) (c : ℕ) → Step d (Move.ExchangeColumns c) e → length (components d) ≡ length (components e) }
    ensures list { (d e : Diagram) (c : ℕ) → Step d (Move.ExchangeColumns c) e → linking d ≡ linking e }
{}

/// An exchange of rows keeps both.
pub fn exchange_rows()
    ensures components { (d e : Diagram) (r : ℕ) → Step d (Move.ExchangeRows r) e → length (components d) ≡ length (components e) }
    ensures list { (d e : Diagram) (r : ℕ) → Step d (Move.ExchangeRows r) e → linking d ≡ linking e }
{}

/// A slide of columns keeps both.
pub fn slide_columns()
    ensures components { (d e : Diagram) (c : ℕ) → Step d (Move.SlideColumns c) e → length (components d) ≡ length (components e) }
    ensures list { (d e : Diagram) (c : ℕ) → Step d (Move.SlideColumns c) e → linking d ≡ linking e }
{}

/// A slide of rows keeps both.
pub fn slide_rows()
    ensures components { (d e : Diagram) (r : ℕ) → Step d (Move.SlideRows r) e → length (components d) ≡ length (components e) }
    ensures list { (d e : Diagram) (r : ℕ) → Step d (Move.SlideRows r) e → linking d ≡ linking e }
{}

/// A stabilisation, of either kind and at each corner, keeps both.
pub fn stabilise()
    ensures components { (d e : Diagram) (c : ℕ) (kind : Kind) (corner : Corner)
        → Step d (Move.Stabilise c kind corner) e
        → length (components d) ≡ length (components e) }
    ensures list { (d e : Diagram) (c : ℕ) (kind : Kind) (corner : Corner)
        → Step d (Move.Stabilise c kind corner) e
        → linking d ≡ linking e }
{}

/// A destabilisation keeps both.
pub fn destabilise()
    ensures components { (d e : Diagram) (c r : ℕ) → Step d (Move.Destabilise c r) e → length (components d) ≡ length (components e) }
    ensures list { (d e : Diagram) (c r : ℕ) → Step d (Move.Destabilise c r) e → linking d ≡ linking e }
{}

/// Every legal move, of every kind, keeps the number of components and the list of linking numbers.
pub fn every_move_keeps_linking_numbers()
    ensures components { (d e : Diagram) (move : Move) → Step d move e → length (components d) ≡ length (components e) }
    ensures list { (d e : Diagram) (move : Move) → Step d move e → linking d ≡ linking e }
{}

/// Equivalent diagrams have as many components and equal lists. So two diagrams whose lists differ are not equivalent.
pub fn equivalent_diagrams_have_equal_linking_numbers()
    ensures components { (d e : Diagram) → Equivalent d e → length (components d) ≡ length (components e) }
    ensures list { (d e : Diagram) → Equivalent d e → linking d ≡ linking e }
    ensures different { (d e : Diagram) → linking d ≢ linking e → Equivalent d e → ⊥ }
{}
