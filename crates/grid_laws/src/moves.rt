//! Laws of the moves, over the definitions alone.
ghost use Rattle.std.specs.Prelude.{◌≡◌, ◌<◌, ◌≤◌, ◌+◌, ◌-◌, ◌++◌, ◌∷◌, ◌↔◌, ◌⊎◌, [], None, ℕ, List};
ghost use Rattle.grid_core.specs.Diagram.{Diagram, IsGrid, size, row_of};
ghost use Rattle.grid_core.specs.Parts.{column_span, column_of, ends};
ghost use Rattle.grid_moves.specs.Different.{how_many_different};
ghost use Rattle.grid_moves.specs.Exchange.{MayExchange};
ghost use Rattle.grid_moves.specs.Exchanged.{columns_exchanged, rows_exchanged};
ghost use Rattle.grid_moves.specs.Inverse.{inverse_of};
ghost use Rattle.grid_moves.specs.Joining.{Joins, JoinsWithin, StopsAt, Equivalent, WithinCap};
ghost use Rattle.grid_moves.specs.MoveFault.{first_move_fault};
ghost use Rattle.grid_moves.specs.Slide.{MaySlide};
ghost use Rattle.grid_moves.specs.Step.{Step};
ghost use Rattle.grid_moves.specs.Undoing.{Undone};

use grid_core::{Corner, Kind, Span};
use grid_moves::{Move, MoveFault};

/// A move leads somewhere exactly where it has no fault, and then to one diagram, which is a grid.
pub fn a_legal_move_has_exactly_one_result()
    ensures one { (d : Diagram) (move : Move) → IsGrid d → first_move_fault d move ≡ None → (e : Diagram) × Step d move e }
    ensures legal { (d : Diagram) (move : Move) (e : Diagram) → Step d move e → first_move_fault d move ≡ None }
    ensures single { (d : Diagram) (move : Move) (e f : Diagram) → Step d move e → Step d move f → e ≡ f }
    ensures grid { (d : Diagram) (move : Move) (e : Diagram) → Step d move e → IsGrid e }
{}

/// A shift by k is undone by the shift by n - k.
pub fn a_shift_is_undone_by_the_rest()
    ensures columns { (k : ℕ) (d e : Diagram) → Step d (Move.ShiftColumns k) e → Step e (Move.ShiftColumns (size d - k)) d }
    ensures rows { (k : ℕ) (d e : Diagram) → Step d (Move.ShiftRows k) e → Step e (Move.ShiftRows (size d - k)) d }
{}

/// An exchange is its own inverse.
pub fn an_exchange_undoes_itself()
    ensures columns { (c : ℕ) (d e : Diagram) → Step d (Move.ExchangeColumns c) e → Step e (Move.ExchangeColumns c) d }
    ensures rows { (r : ℕ) (d e : Diagram) → Step d (Move.ExchangeRows r) e → Step e (Move.ExchangeRows r) d }
{}

/// A slide is its own inverse.
pub fn a_slide_undoes_itself()
    ensures columns { (c : ℕ) (d e : Diagram) → Step d (Move.SlideColumns c) e → Step e (Move.SlideColumns c) d }
    ensures rows { (r : ℕ) (d e : Diagram) → Step d (Move.SlideRows r) e → Step e (Move.SlideRows r) d }
{}

/// An exchange, and a slide, leads to the diagram in whose lists the two columns, or rows, are in each other's place.
pub fn what_trades_places_is_in_the_others_place()
    ensures columns { (d e : Diagram) (c : ℕ) → Step d (Move.ExchangeColumns c) e → e ≡ columns_exchanged c d }
    ensures rows { (d e : Diagram) (r : ℕ) → Step d (Move.ExchangeRows r) e → e ≡ rows_exchanged r d }
    ensures slid_columns { (d e : Diagram) (c : ℕ) → Step d (Move.SlideColumns c) e → e ≡ columns_exchanged c d }
    ensures slid_rows { (d e : Diagram) (r : ℕ) → Step d (Move.SlideRows r) e → e ≡ rows_exchanged r d }
{}

/// Two neighbouring columns may slide exactly where their four marks lie in three different rows, and two neighbouring rows
/// exactly where theirs lie in three different columns.
pub fn what_slides_has_its_marks_in_three_lines()
    ensures columns { (d : Diagram) (c : ℕ)
        → IsGrid d
        → c + 1 < size d
        → MaySlide (column_span d c) (column_span d (c + 1))
        ↔ (how_many_different (row_of Kind.Cross d c ∷ row_of Kind.Ring d c ∷ row_of Kind.Cross d (c + 1) ∷ row_of Kind.Ring d (c + 1) ∷ []) ≡ 3) }
    ensures rows { (d : Diagram) (r : ℕ)
        → IsGrid d
        → r + 1 < size d
        → MaySlide (ends d r) (ends d (r + 1))
        ↔ (how_many_different (column_of Kind.Cross d r ∷ column_of Kind.Ring d r ∷ column_of Kind.Cross d (r + 1) ∷ column_of Kind.Ring d (r + 1) ∷ []) ≡ 3) }
{}

/// Of the exchange and the slide of two neighbours at most one is legal.
pub fn what_may_be_exchanged_does_not_slide()
    ensures { (s t : Span) → MayExchange s t → MaySlide s t → ⊥ }
{}

/// A stabilisation is undone by the destabilisation at its column and at the row of its mark.
pub fn a_stabilisation_is_undone()
    ensures { (c : ℕ) (kind : Kind) (corner : Corner) (d e : Diagram)
        → Step d (Move.Stabilise c kind corner) e
        → Step e (Move.Destabilise c (row_of kind d c)) d }
{}

/// A destabilisation leads from d to e exactly where a stabilisation in that column, of a mark in that row, leads
/// from e to d.
pub fn a_destabilisation_is_the_inverse_relation()
    ensures { (c r : ℕ) (d e : Diagram)
        → Step d (Move.Destabilise c r) e
        ↔ ((kind : Kind) × ((corner : Corner) × (Step e (Move.Stabilise c kind corner) d × (row_of kind e c ≡ r)))) }
{}

/// A block of three marks comes from exactly one stabilisation: it shows the grid before, the kind and the corner.
pub fn a_block_comes_from_one_stabilisation()
    ensures one { (c r : ℕ) (d : Diagram)
        → IsGrid d
        → first_move_fault d (Move.Destabilise c r) ≡ None
        → (e : Diagram)
        × ((kind : Kind) × ((corner : Corner) × (Step e (Move.Stabilise c kind corner) d × (row_of kind e c ≡ r)))) }
    ensures single { (c r : ℕ) (d e f : Diagram) (kind kind' : Kind) (corner corner' : Corner)
        → Step e (Move.Stabilise c kind corner) d
        → row_of kind e c ≡ r
        → Step f (Move.Stabilise c kind' corner') d
        → row_of kind' f c ≡ r
        → (e ≡ f) × (kind ≡ kind') × (corner ≡ corner') }
{}

/// The inverse of a move leads back: from what the move makes of a diagram to the diagram.
pub fn an_inverse_leads_back()
    ensures { (move : Move) (d e : Diagram) → Step d move e → Step e (inverse_of d move) d }
{}

/// An empty list of moves joins a diagram to itself and to no other.
pub fn an_empty_list_joins_a_diagram_to_itself()
    ensures { (d e : Diagram) → Joins d [] e ↔ (d ≡ e) }
{}

/// One list of moves after another leads where they lead one by one.
pub fn joining_composes()
    ensures { (front back : List Move) (d e : Diagram)
        → Joins d (front ++ back) e ↔ ((f : Diagram) × (Joins d front f × Joins f back e)) }
{}

/// What undoes a list of moves leads back, and within the same cap.
pub fn an_undone_list_leads_back()
    ensures there { (moves back : List Move) (d e : Diagram) → Undone d moves e back → Joins d moves e }
    ensures back { (moves back : List Move) (d e : Diagram) → Undone d moves e back → Joins e back d }
    ensures within { (cap : ℕ) (moves back : List Move) (d e : Diagram)
        → Undone d moves e back
        → JoinsWithin cap d moves e
        → JoinsWithin cap e back d }
{}

/// A list of moves leads from a grid to at most one diagram, which is a grid.
pub fn joining_has_one_result()
    ensures single { (moves : List Move) (d e f : Diagram) → Joins d moves e → Joins d moves f → e ≡ f }
    ensures grid { (moves : List Move) (d e : Diagram) → IsGrid d → Joins d moves e → IsGrid e }
{}

/// A list of moves from a grid joins it to a diagram, or stops at an illegal move: exactly one of these.
pub fn a_list_joins_or_stops()
    ensures either { (moves : List Move) (d : Diagram)
        → IsGrid d
        → ((e : Diagram) × Joins d moves e)
        ⊎ ((place : ℕ) × ((fault : MoveFault) × StopsAt d moves place fault)) }
    ensures not_both { (moves : List Move) (d e : Diagram) (place : ℕ) (fault : MoveFault)
        → StopsAt d moves place fault
        → Joins d moves e
        → ⊥ }
    ensures once { (moves : List Move) (d : Diagram) (place place' : ℕ) (fault fault' : MoveFault)
        → StopsAt d moves place fault
        → StopsAt d moves place' fault'
        → (place ≡ place') × (fault ≡ fault') }
{}

/// To be joined by moves is an equivalence relation.
pub fn equivalence_is_an_equivalence_relation()
    ensures reflexive { (d : Diagram) → Equivalent d d }
    ensures symmetric { (d e : Diagram) → Equivalent d e → Equivalent e d }
    ensures transitive { (d e f : Diagram) → Equivalent d e → Equivalent e f → Equivalent d f }
{}

/// To be joined within a cap is an equivalence relation of the diagrams up to the cap, and holds of equivalent ones
/// alone.
pub fn within_a_cap_is_an_equivalence_relation()
    ensures reflexive { (d : Diagram) (cap : ℕ) → size d ≤ cap → WithinCap d d cap }
    ensures symmetric { (d e : Diagram) (cap : ℕ) → WithinCap d e cap → WithinCap e d cap }
    ensures transitive { (d e f : Diagram) (cap : ℕ) → WithinCap d e cap → WithinCap e f cap → WithinCap d f cap }
    ensures equivalent { (d e : Diagram) (cap : ℕ) → WithinCap d e cap → Equivalent d e }
{}
