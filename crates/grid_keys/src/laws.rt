//! Laws of translates, canonical forms and keys, over the definitions alone.
ghost use Rattle.std.specs.Prelude.{◌≡◌, ◌<◌, ◌≤◌, ◌↔◌, ℕ};
ghost use Rattle.std.specs.List.{Contains};
ghost use Rattle.std.specs.Ordering.{nat_cmp, ordering_then};
ghost use Rattle.grid_core.specs.Diagram.{Diagram, IsGrid, size};
ghost use Rattle.grid_moves.specs.Shift.{shifted};
ghost use Rattle.grid_moves.specs.Renumbered.{Renumbered};
ghost use Rattle.grid_moves.specs.Joining.{Joins, JoinsWithin};
ghost use Rattle.grid_keys.specs.Translation.{translate, translates};
ghost use Rattle.grid_keys.specs.Shifts.{shift_moves};
ghost use Rattle.grid_keys.specs.Order.{compare};
ghost use Rattle.grid_keys.specs.CanonicalForm.{IsCanonicalForm, IsCanonical, IsLeastForm};
ghost use Rattle.grid_keys.specs.Key.{key_of, size_of, compare_keys};
ghost use Rattle.grid_keys.specs.declared.key.TheConstants.{WORD_COLUMNS};
ghost use Rattle.grid_keys.specs.Brief.{whole_key};

use crate::brief::BriefKey;
use crate::least_form::LeastForm;

/// A translate has each mark at its new column and its new row, both counted round the circle, and is a grid.
pub fn a_translate_moves_each_mark()
    ensures marks { (d : Diagram) (a b : ℕ)
        → IsGrid d
        → a < size d
        → b < size d
        → Renumbered (shifted (size d) a) (shifted (size d) b) d (translate d a b) }
    ensures grid { (d : Diagram) (a b : ℕ) → IsGrid d → a < size d → b < size d → IsGrid (translate d a b) }
{}

/// A translate is joined to its diagram by its shifts, of columns and of rows, at one size.
pub fn a_translate_is_joined_by_its_shifts()
    ensures joined { (d : Diagram) (a b : ℕ)
        → IsGrid d
        → a < size d
        → b < size d
        → Joins d (shift_moves a b) (translate d a b) }
    ensures within { (d : Diagram) (a b : ℕ)
        → IsGrid d
        → a < size d
        → b < size d
        → JoinsWithin (size d) d (shift_moves a b) (translate d a b) }
{}

/// To be a translate is an equivalence relation of grids.
pub fn to_be_a_translate_is_an_equivalence_relation()
    ensures reflexive { (d : Diagram) → IsGrid d → Contains (translates d) d }
    ensures symmetric { (d e : Diagram) → IsGrid d → Contains (translates d) e → Contains (translates e) d }
    ensures transitive { (d e f : Diagram)
        → IsGrid d
        → Contains (translates d) e
        → Contains (translates e) f
        → Contains (translates d) f }
{}

/// A grid has exactly one canonical form, which is a grid.
pub fn a_grid_has_one_canonical_form()
    ensures one { (d : Diagram) → IsGrid d → (e : Diagram) × IsCanonicalForm d e }
    ensures single { (d e f : Diagram) → IsCanonicalForm d e → IsCanonicalForm d f → e ≡ f }
    ensures grid { (d e : Diagram) → IsGrid d → IsCanonicalForm d e → IsGrid e }
{}

/// Two grids are translates of each other exactly where they have one canonical form.
pub fn translates_have_one_canonical_form()
    ensures same { (d e f : Diagram) → IsGrid d → Contains (translates d) e → IsCanonicalForm d f → IsCanonicalForm e f }
    ensures alone { (d e f : Diagram)
        → IsGrid d
        → IsGrid e
        → IsCanonicalForm d f
        → IsCanonicalForm e f
        → Contains (translates d) e }
{}

/// A canonical form is its own canonical form, by no shift.
pub fn a_canonical_form_is_its_own()
    ensures own { (d e : Diagram) → IsGrid d → IsCanonicalForm d e → IsCanonical e }
    ensures shifts { (d : Diagram)
        → IsGrid d
        → IsCanonical d
        → IsLeastForm d (record { grid = d; columns = 0; rows = 0 }) }
{}

/// A grid has exactly one canonical form with its least shifts.
pub fn the_least_shifts_are_determined()
    ensures one { (d : Diagram) → IsGrid d → (form : LeastForm) × IsLeastForm d form }
    ensures single { (d : Diagram) (form other : LeastForm) → IsLeastForm d form → IsLeastForm d other → form ≡ other }
{}

/// Two grids have one key exactly where they are equal.
pub fn a_key_names_one_grid()
    ensures { (d e : Diagram) → IsGrid d → IsGrid e → (key_of d ≡ key_of e) ↔ (d ≡ e) }
{}

/// No two brief keys are of one key, and the key of each grid of at most `WORD_COLUMNS` columns has one.
pub fn a_key_has_at_most_one_brief_key()
    ensures one { (a b : BriefKey) → whole_key a ≡ whole_key b → a ≡ b }
    ensures few { (d : Diagram) → IsGrid d → size d ≤ WORD_COLUMNS → (brief : BriefKey) × (whole_key brief ≡ key_of d) }
{}

/// The size that is read from the key of a grid is the grid's size.
pub fn the_size_of_a_key_is_that_of_its_diagram()
    ensures { (d : Diagram) → IsGrid d → size_of (key_of d) ≡ size d }
{}

/// Keys are in the order of sizes, and for one size in that of the diagrams.
pub fn keys_are_ordered_by_size_and_then_as_the_diagrams()
    ensures { (d e : Diagram)
        → IsGrid d
        → IsGrid e
        → compare_keys (key_of d) (key_of e) ≡ ordering_then (nat_cmp (size d) (size e)) (compare d e) }
{}
