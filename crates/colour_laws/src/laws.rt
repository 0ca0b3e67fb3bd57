//! Laws of carried colourings, over the definitions alone.
ghost use Rattle.std.specs.Prelude.{◌≡◌, ◌≢◌, ◌<◌, ◌≤◌, ◌+◌, ◌++◌, ◌∷◌, [], ℕ, Bool, not, List, length, slice_index};
ghost use Rattle.std.specs.List.{All};
ghost use Rattle.grid_core.specs.Diagram.{Diagram, IsGrid, size};
ghost use Rattle.grid_moves.specs.Step.{Step};
ghost use Rattle.grid_moves.specs.Joining.{Equivalent};
ghost use Rattle.quandle_core.specs.Quandle.{Table, IsQuandle};
ghost use Rattle.colour_rows.specs.Walk.{passed_rightward};
ghost use Rattle.colour_rows.specs.Colouring.{IsColouring};
ghost use Rattle.colour_list.specs.Listing.{colourings};
ghost use Rattle.quandle_core.specs.Bijection.{IsBijection};
ghost use Rattle.colour_laws.specs.Carried.{carried, after_row_shift};
ghost use Rattle.colour_laws.specs.Chain.{follow};
ghost use Rattle.colour_laws.specs.Level.{across_height};

use grid_core::{Corner, Kind};
use grid_moves::Move;

/// A shift of columns carries the colourings of the old diagram one to one to those of the new one.
pub fn shift_columns()
    ensures { (t : Table) (d e : Diagram) (k : ℕ) → IsQuandle t → Step d (Move.ShiftColumns k) e
        → IsBijection (IsColouring t d) (IsColouring t e) (carried t d (Move.ShiftColumns k)) }
{}

/// A shift of rows carries the colourings one to one.
pub fn shift_rows()
    ensures { (t : Table) (d e : Diagram) (k : ℕ) → IsQuandle t → Step d (Move.ShiftRows k) e
        → IsBijection (IsColouring t d) (IsColouring t e) (carried t d (Move.ShiftRows k)) }
{}

/// The diagram that the table names for each moment of a shift of rows is the one to which the shift so far leads.
pub fn each_moment_of_a_row_shift()
    ensures before { (d : Diagram) → IsGrid d → after_row_shift 0 d ≡ d }
    ensures later { (d e : Diagram) (k : ℕ) → Step d (Move.ShiftRows k) e → e ≡ after_row_shift k d }
{}

/// An exchange of columns, nested or disjoint, carries the colourings one to one.
pub fn exchange_columns()
    ensures { (t : Table) (d e : Diagram) (c : ℕ) → IsQuandle t → Step d (Move.ExchangeColumns c) e
        → IsBijection (IsColouring t d) (IsColouring t e) (carried t d (Move.ExchangeColumns c)) }
{}

/// An exchange of rows carries the colourings one to one.
pub fn exchange_rows()
    ensures { (t : Table) (d e : Diagram) (r : ℕ) → IsQuandle t → Step d (Move.ExchangeRows r) e
        → IsBijection (IsColouring t d) (IsColouring t e) (carried t d (Move.ExchangeRows r)) }
{}

/// A slide of columns carries the colourings one to one.
pub fn slide_columns()
    ensures { (t : Table) (d e : Diagram) (c : ℕ) → IsQuandle t → Step d (Move.SlideColumns c) e
        → IsBijection (IsColouring t d) (IsColouring t e) (carried t d (Move.SlideColumns c)) }
{}

/// In each colouring the two columns of a slide have one colour: the shared row joins them, and nothing lies between its ends.
pub fn slid_columns_have_one_colour()
    ensures { (t : Table) (d e : Diagram) (c : ℕ) (colours : List ℕ) → IsQuandle t → Step d (Move.SlideColumns c) e → IsColouring t d colours
        → slice_index colours c ≡ slice_index colours (c + 1) }
{}

/// A slide of rows carries the colourings one to one.
pub fn slide_rows()
    ensures { (t : Table) (d e : Diagram) (r : ℕ) → IsQuandle t → Step d (Move.SlideRows r) e
        → IsBijection (IsColouring t d) (IsColouring t e) (carried t d (Move.SlideRows r)) }
{}

/// A stabilisation, of either kind and at each corner, carries the colourings one to one.
pub fn stabilise()
    ensures { (t : Table) (d e : Diagram) (c : ℕ) (kind : Kind) (corner : Corner)
        → IsQuandle t
        → Step d (Move.Stabilise c kind corner) e
        → IsBijection (IsColouring t d) (IsColouring t e) (carried t d (Move.Stabilise c kind corner)) }
{}

/// A destabilisation carries the colourings one to one.
pub fn destabilise()
    ensures { (t : Table) (d e : Diagram) (c r : ℕ) → IsQuandle t → Step d (Move.Destabilise c r) e
        → IsBijection (IsColouring t d) (IsColouring t e) (carried t d (Move.Destabilise c r)) }
{}

/// In each colouring the two columns that a destabilisation merges have one colour.
pub fn merged_columns_have_one_colour()
    ensures { (t : Table) (d e : Diagram) (c r : ℕ) (colours : List ℕ) → IsQuandle t → Step d (Move.Destabilise c r) e → IsColouring t d colours
        → slice_index colours c ≡ slice_index colours (c + 1) }
{}

/// Every legal move carries the colourings of the old diagram one to one to those of the new one.
pub fn every_move_carries_one_to_one()
    ensures { (t : Table) (d e : Diagram) (move : Move) → IsQuandle t → Step d move e
        → IsBijection (IsColouring t d) (IsColouring t e) (carried t d move) }
{}

/// An action slides along a chain: the action by colour a and then the chain are the same as the chain and then the action by what it makes of a.
/// So two columns of opposite directions at the two ends of one row cancel round the chain between them.
pub fn an_action_slides_along_a_chain()
    ensures sliding { (t : Table) (up : Bool) (chain : List (Bool × ℕ)) (a x : ℕ)
        → IsQuandle t
        → All (λ (column : Bool × ℕ). column.1 < t.order) chain
        → a < t.order
        → x < t.order
        → follow t chain (passed_rightward t up x a) ≡ passed_rightward t up (follow t chain x) (follow t chain a) }
    ensures cancelling { (t : Table) (up : Bool) (chain : List (Bool × ℕ)) (a x : ℕ)
        → IsQuandle t
        → All (λ (column : Bool × ℕ). column.1 < t.order) chain
        → a < t.order
        → x < t.order
        → follow t ((up, a) ∷ chain ++ (not up, follow t chain a) ∷ []) x ≡ follow t chain x }
{}

/// At each height between two neighbouring rows the actions of all columns that cover it compose to the identity, for
/// every colouring.
pub fn a_level_changes_no_colour()
    ensures { (t : Table) (d : Diagram) (colours : List ℕ) (h x : ℕ)
        → IsQuandle t
        → IsGrid d
        → IsColouring t d colours
        → h ≤ size d
        → x < t.order
        → across_height t d colours h x ≡ x }
{}

/// Equivalent diagrams have complete lists of equal length, by every quandle, whether all of the list can be made or not.
/// So two diagrams whose lists differ in length are not equivalent.
pub fn equivalent_diagrams_have_equally_many_colourings()
    ensures equal { (t : Table) (d e : Diagram) → IsQuandle t → Equivalent d e → length (colourings t d) ≡ length (colourings t e) }
    ensures different { (t : Table) (d e : Diagram) → IsQuandle t → length (colourings t d) ≢ length (colourings t e) → Equivalent d e → ⊥ }
{}
