//! Laws of braids and their action, over the definitions alone.
ghost use Rattle.std.specs.Prelude.{◌≡◌, ◌<◌, ◌↔◌, ℕ, ℤ, List, map, None, neg_ℤ, Contains, AllPairs};
ghost use Rattle.std.specs.declared.cmp.Ordering.TheVariants.{Less};
ghost use Rattle.std.specs.Cmp.Lexicographic.{slice_cmp};
ghost use Rattle.std.specs.Ordering.{nat_cmp};
ghost use Rattle.quandle_core.specs.Quandle.{Table, IsQuandle, over, back};
ghost use Rattle.quandle_core.specs.Bijection.{IsBijection};
ghost use Rattle.braid_core.specs.Braid.{Word, IsLetter, IsBraid};
ghost use Rattle.braid_core.specs.Fault.{first_word_fault};
ghost use Rattle.braid_core.specs.Action.{IsTuple, letter_action, action};
ghost use Rattle.braid_core.specs.FixedPoints.{fixed_points, IsFixedPoint};

/// A number of strands and a list of letters have no fault exactly where they are a braid.
pub fn no_fault_is_a_braid()
    ensures { (b : Word) → (first_word_fault b ≡ None) ↔ IsBraid b }
{}

/// A letter and its negative undo each other.
pub fn a_letter_and_its_negative_undo_each_other()
    ensures letter { (m : ℕ) (a : ℤ) → IsLetter m a → IsLetter m (neg_ℤ a) }
    ensures undone { (t : Table) → IsQuandle t → (m : ℕ) (a : ℤ) → IsLetter m a → (xs : List ℕ) → IsTuple t m xs
        → letter_action t (letter_action t xs a) (neg_ℤ a) ≡ xs }
{}

/// Each letter acts as a bijection on the tuples of colours below the order.
pub fn a_letter_acts_as_a_bijection_on_tuples()
    ensures { (t : Table) → IsQuandle t → (m : ℕ) (a : ℤ) → IsLetter m a
        → IsBijection (IsTuple t m) (IsTuple t m) (λ xs. letter_action t xs a) }
{}

/// Each braid acts as a bijection on the tuples of colours below the order.
pub fn a_braid_acts_as_a_bijection_on_tuples()
    ensures { (t : Table) → IsQuandle t → (b : Word) → IsBraid b → IsBijection (IsTuple t b.strands) (IsTuple t b.strands) (action t b.letters) }
{}

/// The action respects the quandle: it commutes with passing all colours of a tuple under one strand of colour z, from either side.
pub fn the_action_commutes_with_the_quandle_operation()
    ensures over { (t : Table) → IsQuandle t → (b : Word) → IsBraid b → (xs : List ℕ) → IsTuple t b.strands xs → (z : ℕ) → z < t.order
        → action t b.letters (map (λ y. over t y z) xs) ≡ map (λ y. over t y z) (action t b.letters xs) }
    ensures back { (t : Table) → IsQuandle t → (b : Word) → IsBraid b → (xs : List ℕ) → IsTuple t b.strands xs → (z : ℕ) → z < t.order
        → action t b.letters (map (λ y. back t y z) xs) ≡ map (λ y. back t y z) (action t b.letters xs) }
{}

/// The list of fixed points has exactly the tuples that equal their image, each before all later ones in lexicographic order.
pub fn the_fixed_points_are_listed()
    ensures all { (t : Table) (b : Word) (xs : List ℕ) → Contains (fixed_points t b) xs ↔ IsFixedPoint t b xs }
    ensures order { (t : Table) (b : Word) → AllPairs (λ xs ys. slice_cmp nat_cmp xs ys ≡ Less) (fixed_points t b) }
{}
