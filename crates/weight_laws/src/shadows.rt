//! Laws of shadow weights, over the definitions alone.
ghost use Rattle.std.specs.Prelude.{◌≡◌, ◌≢◌, ◌<◌, ◌≤◌, ◌+◌, ◌↔◌, ℕ, List, Some, None};
ghost use Rattle.grid_core.specs.Diagram.{Diagram, IsGrid, size};
ghost use Rattle.grid_core.specs.Parts.{ends};
ghost use Rattle.grid_moves.specs.Step.{Step};
ghost use Rattle.grid_moves.specs.Joining.{Equivalent};
ghost use Rattle.quandle_core.specs.Quandle.{Table, IsQuandle, over};
ghost use Rattle.colour_rows.specs.Walk.{walk_to};
ghost use Rattle.colour_rows.specs.Colouring.{IsColouring};
ghost use Rattle.colour_laws.specs.Carried.{carried};
ghost use Rattle.cocycle_core.specs.ShadowCocycle.{ShadowCochain, IsShadowCocycle};
ghost use Rattle.cocycle_core.specs.ShadowFault.{first_shadow_fault};
ghost use Rattle.cocycle_core.specs.ShadowCases.{IsFirstShadowFault};
ghost use Rattle.cocycle_core.specs.declared.shadow_fault.ShadowFault.{ShadowFault};
ghost use Rattle.colour_weights.specs.Region.{region, height_beside, height_across};
ghost use Rattle.colour_weights.specs.ShadowWeight.{shadow_weight};
ghost use Rattle.colour_weights.specs.ShadowWalkSum.{shadow_weight_by_rows};
ghost use Rattle.grid_core.specs.Trefoils.{right_trefoil, left_trefoil};
ghost use Rattle.colour_weights.specs.ShadowWeights.{shadow_weights};

use grid_core::{Corner, Kind};
use grid_moves::Move;

/// A table of numbers over a quandle has no fault exactly where it is a shadow cocycle.
pub fn no_fault_is_a_shadow_cocycle()
    ensures { (t : ShadowCochain) → IsQuandle t.quandle → (first_shadow_fault t ≡ None) ↔ IsShadowCocycle t }
{}

/// The first fault is exactly the one whose case fails, where no earlier law fails and no lexicographically smaller case of its own law.
pub fn the_first_fault_comes_first()
    ensures { (t : ShadowCochain) (fault : ShadowFault) → (first_shadow_fault t ≡ Some fault) ↔ IsFirstShadowFault t fault }
{}

/// The sum over the crossings is the sum over the rows.
pub fn the_weight_is_that_of_the_rows()
    ensures { (t : ShadowCochain) (d : Diagram) (colours : List ℕ) (outer : ℕ) → IsShadowCocycle t → IsGrid d → IsColouring t.quandle d colours
        → outer < t.quandle.order → shadow_weight t d colours outer ≡ shadow_weight_by_rows t d colours outer }
{}

/// A row parts the regions above and below it between its ends alone: passing it from its right-hand side to its left-hand side takes w to `w ▷ x`,
/// where x is the colour of its strand there.
pub fn a_row_parts_two_regions()
    ensures between { (t : Table) (d : Diagram) (colours : List ℕ) (outer r c : ℕ) → IsQuandle t → IsGrid d → IsColouring t d colours → outer < t.order
        → r < size d → (ends d r).low < c → c ≤ (ends d r).high
        → region t d colours outer (height_across d r) c ≡ over t (region t d colours outer (height_beside d r) c) (walk_to t d colours r c) }
    ensures before { (t : Table) (d : Diagram) (colours : List ℕ) (outer r c : ℕ) → IsQuandle t → IsGrid d → IsColouring t d colours → outer < t.order
        → r < size d → c ≤ (ends d r).low → region t d colours outer (r + 1) c ≡ region t d colours outer r c }
    ensures behind { (t : Table) (d : Diagram) (colours : List ℕ) (outer r c : ℕ) → IsQuandle t → IsGrid d → IsColouring t d colours → outer < t.order
        → r < size d → (ends d r).high < c → c ≤ size d → region t d colours outer (r + 1) c ≡ region t d colours outer r c }
{}

/// The outer region lies all round the diagram: below it, above it, left of all columns and right of them.
pub fn the_outer_region_lies_all_round()
    ensures below { (t : Table) (d : Diagram) (colours : List ℕ) (outer c : ℕ) → region t d colours outer 0 c ≡ outer }
    ensures above { (t : Table) (d : Diagram) (colours : List ℕ) (outer c : ℕ) → IsGrid d → c ≤ size d → region t d colours outer (size d) c ≡ outer }
    ensures left { (t : Table) (d : Diagram) (colours : List ℕ) (outer h : ℕ) → region t d colours outer h 0 ≡ outer }
    ensures right { (t : Table) (d : Diagram) (colours : List ℕ) (outer h : ℕ) → IsQuandle t → IsGrid d → IsColouring t d colours → outer < t.order
        → h ≤ size d → region t d colours outer h (size d) ≡ outer }
{}

/// A shift of columns carries each colouring to one of the same weight, with the same colour of the outer region.
pub fn shift_columns()
    ensures { (t : ShadowCochain) (d e : Diagram) (k : ℕ) (colours : List ℕ) (outer : ℕ) → IsShadowCocycle t → Step d (Move.ShiftColumns k) e
        → IsColouring t.quandle d colours → outer < t.quandle.order
        → shadow_weight t e (carried t.quandle d (Move.ShiftColumns k) colours) outer ≡ shadow_weight t d colours outer }
{}

/// A shift of rows carries each colouring to one of the same weight, with the same colour of the outer region.
pub fn shift_rows()
    ensures { (t : ShadowCochain) (d e : Diagram) (k : ℕ) (colours : List ℕ) (outer : ℕ) → IsShadowCocycle t → Step d (Move.ShiftRows k) e
        → IsColouring t.quandle d colours → outer < t.quandle.order
        → shadow_weight t e (carried t.quandle d (Move.ShiftRows k) colours) outer ≡ shadow_weight t d colours outer }
{}

/// An exchange of columns, nested or disjoint, carries each colouring to one of the same weight, with the same colour of the outer region.
pub fn exchange_columns()
    ensures { (t : ShadowCochain) (d e : Diagram) (c : ℕ) (colours : List ℕ) (outer : ℕ) → IsShadowCocycle t → Step d (Move.ExchangeColumns c) e
        → IsColouring t.quandle d colours → outer < t.quandle.order
        → shadow_weight t e (carried t.quandle d (Move.ExchangeColumns c) colours) outer ≡ shadow_weight t d colours outer }
{}

/// An exchange of rows carries each colouring to one of the same weight, with the same colour of the outer region.
pub fn exchange_rows()
    ensures { (t : ShadowCochain) (d e : Diagram) (r : ℕ) (colours : List ℕ) (outer : ℕ) → IsShadowCocycle t → Step d (Move.ExchangeRows r) e
        → IsColouring t.quandle d colours → outer < t.quandle.order
        → shadow_weight t e (carried t.quandle d (Move.ExchangeRows r) colours) outer ≡ shadow_weight t d colours outer }
{}

/// A slide of columns carries each colouring to one of the same weight, with the same colour of the outer region.
pub fn slide_columns()
    ensures { (t : ShadowCochain) (d e : Diagram) (c : ℕ) (colours : List ℕ) (outer : ℕ) → IsShadowCocycle t → Step d (Move.SlideColumns c) e
        → IsColouring t.quandle d colours → outer < t.quandle.order
        → shadow_weight t e (carried t.quandle d (Move.SlideColumns c) colours) outer ≡ shadow_weight t d colours outer }
{}

/// A slide of rows carries each colouring to one of the same weight, with the same colour of the outer region.
pub fn slide_rows()
    ensures { (t : ShadowCochain) (d e : Diagram) (r : ℕ) (colours : List ℕ) (outer : ℕ) → IsShadowCocycle t → Step d (Move.SlideRows r) e
        → IsColouring t.quandle d colours → outer < t.quandle.order
        → shadow_weight t e (carried t.quandle d (Move.SlideRows r) colours) outer ≡ shadow_weight t d colours outer }
{}

/// A stabilisation carries each colouring to one of the same weight, with the same colour of the outer region.
pub fn stabilise()
    ensures { (t : ShadowCochain) (d e : Diagram) (c : ℕ) (kind : Kind) (corner : Corner) (colours : List ℕ) (outer : ℕ) → IsShadowCocycle t
        → Step d (Move.Stabilise c kind corner) e
        → IsColouring t.quandle d colours → outer < t.quandle.order
        → shadow_weight t e (carried t.quandle d (Move.Stabilise c kind corner) colours) outer ≡ shadow_weight t d colours outer }
{}

/// A destabilisation carries each colouring to one of the same weight, with the same colour of the outer region.
pub fn destabilise()
    ensures { (t : ShadowCochain) (d e : Diagram) (c r : ℕ) (colours : List ℕ) (outer : ℕ) → IsShadowCocycle t → Step d (Move.Destabilise c r) e
        → IsColouring t.quandle d colours → outer < t.quandle.order
        → shadow_weight t e (carried t.quandle d (Move.Destabilise c r) colours) outer ≡ shadow_weight t d colours outer }
{}

/// Every legal move carries each colouring to one of the same weight, with the same colour of the outer region.
pub fn every_move_keeps_the_weight()
    ensures { (t : ShadowCochain) (d e : Diagram) (move : Move) (colours : List ℕ) (outer : ℕ) → IsShadowCocycle t → Step d move e
        → IsColouring t.quandle d colours → outer < t.quandle.order
        → shadow_weight t e (carried t.quandle d move colours) outer ≡ shadow_weight t d colours outer }
{}

/// Equivalent diagrams have as many pairs of a colouring and a colour of the outer region of each weight. So two diagrams whose
/// shadow weights differ are not equivalent.
pub fn equivalent_diagrams_have_equal_shadow_weights()
    ensures equal { (t : ShadowCochain) (d e : Diagram) → IsShadowCocycle t → Equivalent d e → shadow_weights t d ≡ shadow_weights t e }
    ensures different { (t : ShadowCochain) (d e : Diagram) → IsShadowCocycle t → shadow_weights t d ≢ shadow_weights t e → Equivalent d e → ⊥ }
{}

/// No list of moves joins the right trefoil and the left one, its mirror image.
pub fn the_trefoils_differ()
    ensures { Equivalent right_trefoil left_trefoil → ⊥ }
{}
