//! Laws of sample walks, over the definitions alone.
ghost use Rattle.std.specs.Prelude.{◌≡◌, false, ◌≤◌, ◌*◌, ◌↔◌, ℕ, List, length};
ghost use Rattle.std.specs.List.{Contains};
ghost use Rattle.grid_core.specs.Diagram.{Diagram, IsGrid, size};
ghost use Rattle.grid_core.specs.Parts.{bottoms};
ghost use Rattle.grid_moves.specs.Step.{Step};
ghost use Rattle.grid_moves.specs.Joining.{JoinsWithin};
ghost use Rattle.search_jobs.specs.declared.walk.TheConstants.{LARGEST, TURNS};
ghost use Rattle.grid_moves.specs.Kinds.{is_slide};
ghost use Rattle.search_jobs.specs.Candidates.{candidate_moves};
ghost use Rattle.grid_core.specs.Trefoils.{right_trefoil};
ghost use Rattle.search_jobs.specs.Walk.{seed_words, Walks};
ghost use Rattle.search_jobs.specs.Text.{walk_text, sample_text};

use grid_moves::Move;

/// The candidates are the moves, but for slides, that lead to a diagram that is not too large.
pub fn the_candidates_are_the_small_steps()
    ensures { (d : Diagram) (move : Move)
        → IsGrid d
        → Contains (candidate_moves d) move ↔ ((is_slide move ≡ false) × ((e : Diagram) × (Step d move e × (size e ≤ LARGEST)))) }
{}

/// Each seed has one walk.
pub fn each_seed_has_one_walk()
    ensures one { (seed : ℕ) → (moves : List Move) × ((last : Diagram) × Walks right_trefoil (seed_words seed) moves last) }
    ensures single { (seed : ℕ) (moves moves' : List Move) (last last' : Diagram)
        → Walks right_trefoil (seed_words seed) moves last
        → Walks right_trefoil (seed_words seed) moves' last'
        → (moves ≡ moves') × (last ≡ last') }
{}

/// A walk has a move for each turn; they join the right trefoil to its last diagram, and none on the way is too large.
pub fn a_walk_joins_its_ends()
    ensures { (seed : ℕ) (moves : List Move) (last : Diagram)
        → Walks right_trefoil (seed_words seed) moves last
        → (length moves ≡ TURNS) × JoinsWithin LARGEST right_trefoil moves last }
{}

/// What is said of a walk is the same for each seed: both ends have the numbers of colourings of the right trefoil.
pub fn each_walk_is_told_alike()
    ensures { (seed : ℕ) (moves : List Move) (last : Diagram)
        → Walks right_trefoil (seed_words seed) moves last
        → walk_text seed moves right_trefoil last ≡ sample_text seed }
{}

/// A diagram has at most half as many bottoms as columns.
pub fn half_the_columns_bound_the_bottoms()
    ensures { (d : Diagram) → IsGrid d → 2 * bottoms d ≤ size d }
{}
