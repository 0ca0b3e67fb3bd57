//! Laws of weights, over the definitions alone.
ghost use Rattle.std.specs.Prelude.{◌≡◌, ◌≢◌, ◌<◌, ℕ, List};
ghost use Rattle.grid_core.specs.Diagram.{Diagram, IsGrid};
ghost use Rattle.grid_moves.specs.Step.{Step};
ghost use Rattle.grid_moves.specs.Joining.{Equivalent};
ghost use Rattle.colour_rows.specs.Colouring.{IsColouring};
ghost use Rattle.colour_laws.specs.Carried.{carried};
ghost use Rattle.cocycle_core.specs.ShadowCocycle.{IsShadowCocycle};
ghost use Rattle.colour_weights.specs.ShadowWeight.{shadow_weight};
ghost use Rattle.colour_weights.specs.Lifted.{lifted_cochain};
ghost use Rattle.cocycle_core.specs.Cocycle.{Cochain, IsCocycle};
ghost use Rattle.colour_weights.specs.Weight.{weight};
ghost use Rattle.colour_weights.specs.WalkSum.{weight_by_rows};
ghost use Rattle.colour_weights.specs.Weights.{weights};

use grid_core::{Corner, Kind};
use grid_moves::Move;

/// The sum over the crossings is the sum over the rows.
pub fn the_weight_is_that_of_the_rows()
    ensures { (w : Cochain) (d : Diagram) (colours : List ℕ) → IsCocycle w → IsGrid d → IsColouring w.quandle d colours
        → weight w d colours ≡ weight_by_rows w d colours }
{}

/// A shift of columns carries each colouring to one of the same weight.
pub fn shift_columns()
    ensures { (w : Cochain) (d e : Diagram) (k : ℕ) (colours : List ℕ) → IsCocycle w → Step d (Move.ShiftColumns k) e → IsColouring w.quandle d colours
        → weight w e (carried w.quandle d (Move.ShiftColumns k) colours) ≡ weight w d colours }
{}

/// A shift of rows carries each colouring to one of the same weight.
pub fn shift_rows()
    ensures { (w : Cochain) (d e : Diagram) (k : ℕ) (colours : List ℕ) → IsCocycle w → Step d (Move.ShiftRows k) e → IsColouring w.quandle d colours
        → weight w e (carried w.quandle d (Move.ShiftRows k) colours) ≡ weight w d colours }
{}

/// An exchange of columns, nested or disjoint, carries each colouring to one of the same weight.
pub fn exchange_columns()
    ensures { (w : Cochain) (d e : Diagram) (c : ℕ) (colours : List ℕ) → IsCocycle w → Step d (Move.ExchangeColumns c) e → IsColouring w.quandle d colours
        → weight w e (carried w.quandle d (Move.ExchangeColumns c) colours) ≡ weight w d colours }
{}

/// An exchange of rows carries each colouring to one of the same weight.
pub fn exchange_rows()
    ensures { (w : Cochain) (d e : Diagram) (r : ℕ) (colours : List ℕ) → IsCocycle w → Step d (Move.ExchangeRows r) e → IsColouring w.quandle d colours
        → weight w e (carried w.quandle d (Move.ExchangeRows r) colours) ≡ weight w d colours }
{}

/// A slide of columns carries each colouring to one of the same weight.
pub fn slide_columns()
    ensures { (w : Cochain) (d e : Diagram) (c : ℕ) (colours : List ℕ) → IsCocycle w → Step d (Move.SlideColumns c) e → IsColouring w.quandle d colours
        → weight w e (carried w.quandle d (Move.SlideColumns c) colours) ≡ weight w d colours }
{}

/// A slide of rows carries each colouring to one of the same weight.
pub fn slide_rows()
    ensures { (w : Cochain) (d e : Diagram) (r : ℕ) (colours : List ℕ) → IsCocycle w → Step d (Move.SlideRows r) e → IsColouring w.quandle d colours
        → weight w e (carried w.quandle d (Move.SlideRows r) colours) ≡ weight w d colours }
{}

/// A stabilisation, of either kind and at each corner, carries each colouring to one of the same weight.
pub fn stabilise()
    ensures { (w : Cochain) (d e : Diagram) (c : ℕ) (kind : Kind) (corner : Corner) (colours : List ℕ) → IsCocycle w
        → Step d (Move.Stabilise c kind corner) e → IsColouring w.quandle d colours
        → weight w e (carried w.quandle d (Move.Stabilise c kind corner) colours) ≡ weight w d colours }
{}

/// A destabilisation carries each colouring to one of the same weight.
pub fn destabilise()
    ensures { (w : Cochain) (d e : Diagram) (c r : ℕ) (colours : List ℕ) → IsCocycle w → Step d (Move.Destabilise c r) e → IsColouring w.quandle d colours
        → weight w e (carried w.quandle d (Move.Destabilise c r) colours) ≡ weight w d colours }
{}

/// Every legal move carries each colouring to one of the same weight.
pub fn every_move_keeps_the_weight()
    ensures { (w : Cochain) (d e : Diagram) (move : Move) (colours : List ℕ) → IsCocycle w → Step d move e → IsColouring w.quandle d colours
        → weight w e (carried w.quandle d move colours) ≡ weight w d colours }
{}

/// Equivalent diagrams have as many colourings of each weight. So two diagrams whose weights differ are not equivalent.
pub fn equivalent_diagrams_have_equal_weights()
    ensures equal { (w : Cochain) (d e : Diagram) → IsCocycle w → Equivalent d e → weights w d ≡ weights w e }
    ensures different { (w : Cochain) (d e : Diagram) → IsCocycle w → weights w d ≢ weights w e → Equivalent d e → ⊥ }
{}

/// A 2-cocycle is a shadow cocycle that doesn't look at the region, and its shadow weights are its weights, whatever the colour of the outer region.
pub fn a_2_cocycle_is_a_shadow_cocycle()
    ensures cocycle { (w : Cochain) → IsCocycle w → IsShadowCocycle (lifted_cochain w) }
    ensures weight { (w : Cochain) (d : Diagram) (colours : List ℕ) (outer : ℕ) → IsCocycle w → IsGrid d → IsColouring w.quandle d colours
        → outer < w.quandle.order → shadow_weight (lifted_cochain w) d colours outer ≡ weight w d colours }
{}
