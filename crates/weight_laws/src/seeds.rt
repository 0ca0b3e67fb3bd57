//! Laws of seeds, over the definitions alone.
ghost use Rattle.std.specs.Prelude.{◌≡◌, ◌≢◌, ◌<◌, ◌*◌, ℕ, List, length, slice_index};
ghost use Rattle.std.specs.List.{Contains};
ghost use Rattle.grid_core.specs.Diagram.{Diagram, IsGrid, size};
ghost use Rattle.quandle_core.specs.Quandle.{Table, IsQuandle};
ghost use Rattle.colour_rows.specs.Colouring.{IsColouring};
ghost use Rattle.colour_list.specs.Listing.{colourings};
ghost use Rattle.colour_seeds.specs.declared.progress.Step.{Step};
ghost use Rattle.colour_seeds.specs.Settled.{Determine};
ghost use Rattle.colour_seeds.specs.Plan.{IsPlan, seed_columns};
ghost use Rattle.colour_seeds.specs.Connected.{IsConnected, coloured_so};

/// A colouring is determined by the colours of seeds: two colourings with the same colours there are one.
pub fn a_colouring_is_determined_by_its_seeds()
    ensures { (t : Table) (d : Diagram) (seeds f g : List ℕ) → IsQuandle t → IsGrid d → Determine seeds d → IsColouring t d f → IsColouring t d g
        → ((s : ℕ) → Contains seeds s → slice_index f s ≡ slice_index g s) → f ≡ g }
{}

/// Different colourings differ at a seed.
pub fn different_colourings_differ_at_a_seed()
    ensures { (t : Table) (d : Diagram) (seeds f g : List ℕ) → IsQuandle t → IsGrid d → Determine seeds d → IsColouring t d f → IsColouring t d g
        → f ≢ g → (s : ℕ) × Contains seeds s × (slice_index f s ≢ slice_index g s) }
{}

/// The seeds of a plan determine the diagram.
pub fn the_seeds_of_a_plan_determine()
    ensures { (d : Diagram) (steps : List Step) → IsGrid d → IsPlan d steps → Determine (seed_columns steps) d }
{}

/// By a connected quandle, as many colourings give a column the one colour as the other.
pub fn each_colour_is_as_frequent()
    ensures { (t : Table) (d : Diagram) (c a b : ℕ) → IsQuandle t → IsGrid d → IsConnected t → c < size d → a < t.order → b < t.order
        → coloured_so t d c a ≡ coloured_so t d c b }
{}

/// So all colourings by a connected quandle are the order times those that give a column one colour.
pub fn all_are_the_order_times_those_of_one_colour()
    ensures { (t : Table) (d : Diagram) (c a : ℕ) → IsQuandle t → IsGrid d → IsConnected t → c < size d → a < t.order
        → length (colourings t d) ≡ t.order * coloured_so t d c a }
{}
