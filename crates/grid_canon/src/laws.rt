//! A law of tidied lists, over the definitions alone.
ghost use Rattle.std.specs.Prelude.{◌≡◌, ◌%◌, ◌++◌, ◌∷◌, ℕ, true, false, not, List};
ghost use Rattle.std.specs.List.{filter, list_all};
ghost use Rattle.grid_core.specs.Diagram.{Diagram, IsGrid, size};
ghost use Rattle.grid_moves.specs.Joining.{Joins, JoinsWithin};
ghost use Rattle.grid_moves.specs.SizeAfter.{size_after};
ghost use Rattle.grid_moves.specs.Kinds.{is_shift};
ghost use Rattle.grid_moves.specs.Tidy.{is_tidy};
ghost use Rattle.grid_keys.specs.Shifts.{shift_moves};
ghost use Rattle.grid_canon.specs.Tidied.{tidied, column_sum, row_sum};

use grid_moves::Move;

/// A tidied list is tidy. It leads from a grid to where the list leads, within each cap within which the list does, and has the same moves
/// that are no shifts, in order: of what is written only shifts change. On n columns a run of shifts becomes the shift of columns by the
/// sum of those of columns, mod n, and then that of rows, where 0 is left out; after the move that ends the run a new one begins.
pub fn a_tidied_list_leads_where_the_list_leads()
    ensures tidy { (n : ℕ) (moves : List Move) → is_tidy (tidied n 0 0 moves) ≡ true }
    ensures joins { (d e : Diagram) (moves : List Move) → IsGrid d → Joins d moves e → Joins d (tidied (size d) 0 0 moves) e }
    ensures within { (cap : ℕ) (d e : Diagram) (moves : List Move)
        → IsGrid d
        → JoinsWithin cap d moves e
        → JoinsWithin cap d (tidied (size d) 0 0 moves) e }
    ensures others { (n : ℕ) (moves : List Move)
        → filter (λ (move : Move). not (is_shift move)) (tidied n 0 0 moves) ≡ filter (λ (move : Move). not (is_shift move)) moves }
    ensures run { (n : ℕ) (run : List Move)
        → list_all is_shift run ≡ true
        → tidied n 0 0 run ≡ shift_moves (column_sum run % n) (row_sum run % n) }
    ensures runs { (n : ℕ) (run moves : List Move) (move : Move)
        → list_all is_shift run ≡ true
        → is_shift move ≡ false
        → tidied n 0 0 (run ++ move ∷ moves)
        ≡ shift_moves (column_sum run % n) (row_sum run % n) ++ move ∷ tidied (size_after move n) 0 0 moves }
{}
