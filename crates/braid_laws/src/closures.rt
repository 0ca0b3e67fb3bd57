//! Laws of closures and their colourings, over the definitions alone.
ghost use Rattle.std.specs.Prelude.{◌≡◌, ◌<◌, ◌≤◌, ◌+◌, ℕ, List, IsTrue, length, map, take, pos, slice_index_or};
ghost use Rattle.grid_core.specs.Diagram.{IsGrid, size};
ghost use Rattle.grid_core.specs.Crossing.{crosses, sign};
ghost use Rattle.quandle_core.specs.Quandle.{Table, IsQuandle};
ghost use Rattle.quandle_core.specs.Bijection.{IsBijection};
ghost use Rattle.colour_rows.specs.Colouring.{IsColouring};
ghost use Rattle.braid_core.specs.Braid.{Word, IsBraid};
ghost use Rattle.braid_core.specs.Action.{action};
ghost use Rattle.braid_core.specs.FixedPoints.{IsFixedPoint};
ghost use Rattle.braid_closure.specs.Columns.{open_columns};
ghost use Rattle.braid_closure.specs.Closure.{feet_columns, after_letters, closure, closure_size, letter_sign, at_closure_feet, colour_of_column};

/// The closure of each braid is a grid, of size l + 2m for l letters and m strands.
pub fn a_closure_is_a_grid()
    ensures grid { (b : Word) → IsBraid b → IsGrid (closure b) }
    ensures size { (b : Word) → IsBraid b → size (closure b) ≡ closure_size b }
{}

/// Each letter has its row, and in it exactly one crossing, of the letter's sign. No other row of the closure has a crossing.
pub fn each_letter_is_one_crossing()
    ensures letters { (b : Word) → IsBraid b → (i : ℕ) → i < length b.letters
        → (c : ℕ)
        × IsTrue (crosses (closure b) c (b.strands + i))
        × (sign (closure b) c (b.strands + i) ≡ letter_sign (slice_index_or b.letters i (pos 0)))
        × ((a : ℕ) → IsTrue (crosses (closure b) a (b.strands + i)) → a ≡ c) }
    ensures rows { (b : Word) → IsBraid b → (c r : ℕ) → r < size (closure b) → IsTrue (crosses (closure b) c r)
        → (b.strands ≤ r) × (r < b.strands + length b.letters) }
{}

/// In each colouring of the closure, at each height, the colours of the open columns from left to right are those of the feet after the letters so far.
pub fn the_open_columns_follow_the_braid()
    ensures { (t : Table) → IsQuandle t → (b : Word) → IsBraid b
        → (colours : List ℕ) → IsColouring t (closure b) colours
        → (i : ℕ) → i ≤ length b.letters
        → map (colour_of_column b colours) (open_columns (after_letters b.strands (feet_columns b.strands) (take i b.letters)))
        ≡ action t (take i b.letters) (at_closure_feet b colours) }
{}

/// Reading a colouring of the closure at its feet, position 1 first, is a bijection from the colourings to the fixed points of the braid's action.
///
/// The fixed points are those of the complete list: `braid_laws::braids::the_fixed_points_are_listed`.
pub fn colourings_at_the_feet_are_the_fixed_points()
    ensures { (t : Table) → IsQuandle t → (b : Word) → IsBraid b → IsBijection (IsColouring t (closure b)) (IsFixedPoint t b) (at_closure_feet b) }
{}
