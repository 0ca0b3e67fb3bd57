//! Laws of the complete list, over the definitions alone.
ghost use Rattle.std.specs.Prelude.{◌≡◌, ◌≤◌, ◌^◌, ℕ, List, AllPairs, Contains, length};
ghost use Rattle.grid_core.specs.Diagram.{Diagram, IsGrid};
ghost use Rattle.grid_core.specs.Parts.{bottoms};
ghost use Rattle.quandle_core.specs.Quandle.{Table, IsQuandle};
ghost use Rattle.quandle_core.specs.Colours.{ComesBefore};
ghost use Rattle.colour_rows.specs.Colouring.{IsColouring};
ghost use Rattle.colour_list.specs.Listing.{colourings, times};

/// Each colouring is in the complete list exactly once, and nothing else is in it.
pub fn each_colouring_is_listed_once()
    ensures once { (t : Table) (d : Diagram) (colours : List ℕ) → IsColouring t d colours → times colours (colourings t d) ≡ 1 }
    ensures only { (t : Table) (d : Diagram) (colours : List ℕ) → Contains (colourings t d) colours → IsColouring t d colours }
{}

/// The complete list ascends: each colouring comes before all later ones in the lexicographic order of their colours from the left.
pub fn the_complete_list_ascends()
    ensures { (t : Table) (d : Diagram) → AllPairs ComesBefore (colourings t d) }
{}

/// A grid has at most as many colourings by a quandle as there are choices of a colour for each of its bottoms.
pub fn no_more_colourings_than_choices()
    ensures { (t : Table) (d : Diagram) → IsQuandle t → IsGrid d → length (colourings t d) ≤ t.order ^ bottoms d }
{}
