//! Laws of single definitions: steps of braids, the order of edges and of loops, the order of offers.
ghost use Rattle.std.specs.Prelude.{◌≡◌, ◌↔◌, ◌<◌, ◌≤◌, ◌+◌, ◌++◌, ◌∷◌, [], ℕ, ℤ, Bool, List, true, length};
ghost use Rattle.std.specs.Prelude.{map, take, drop, slice_index, neg_ℤ, Contains, AllPairs};
ghost use Rattle.grid_core.specs.Diagram.{Diagram, size};
ghost use Rattle.quandle_core.specs.Quandle.{Table};
ghost use Rattle.braid_moves.specs.Step.{letter_of_crossing, moved};
ghost use Rattle.braid_moves.specs.declared.step.BraidMove.TheVariants as step;
ghost use Rattle.crossing_codes.specs.declared.crossing.Code.{Code};
ghost use Rattle.crossing_codes.specs.declared.crossing.Crossing.{Crossing};
ghost use Rattle.crossing_codes.specs.Passages.{passages, passages_from};
ghost use Rattle.crossing_codes.specs.Components.{is_least};
ghost use Rattle.crossing_codes.specs.Edges.{loops};
ghost use Rattle.crossing_codes.specs.EdgeColouring.{edge_colours, arriving};
ghost use Rattle.crossing_codes.specs.CodeColouring.{is_code_colouring};
ghost use Rattle.next_moves.specs.Tries.{Try, tries};
ghost use Rattle.text_laws.specs.Words.{braid_word};
ghost use Rattle.text_laws.specs.Named.{NamesOnly};
ghost use Rattle.text_laws.specs.Parts.{part};

/// Each step of a braid word puts letters in the place of others, and leaves those before and after as they are.
pub fn a_step_rewrites_letters_in_their_place()
    ensures far { (m : ℕ) (front back : List ℤ) (a b : ℤ)
        → moved (braid_word m (front ++ a ∷ b ∷ back)) (step.Far (length front)) ≡ braid_word m (front ++ b ∷ a ∷ back) }
    ensures triple { (m : ℕ) (front back : List ℤ) (a b : ℤ)
        → moved (braid_word m (front ++ a ∷ b ∷ a ∷ back)) (step.Triple (length front)) ≡ braid_word m (front ++ b ∷ a ∷ b ∷ back) }
    ensures cancel { (m : ℕ) (front back : List ℤ) (a : ℤ)
        → moved (braid_word m (front ++ a ∷ neg_ℤ a ∷ back)) (step.Cancel (length front)) ≡ braid_word m (front ++ back) }
    ensures insert { (m : ℕ) (front back : List ℤ) (a : ℤ)
        → moved (braid_word m (front ++ back)) (step.Insert (length front) a) ≡ braid_word m (front ++ a ∷ neg_ℤ a ∷ back) }
    ensures turn { (m : ℕ) (front back : List ℤ) → moved (braid_word m (front ++ back)) (step.Turn (length front)) ≡ braid_word m (back ++ front) }
    ensures grow { (m : ℕ) (letters : List ℤ) (positive : Bool)
        → moved (braid_word m letters) (step.Grow positive) ≡ braid_word (m + 1) (letters ++ letter_of_crossing m positive ∷ []) }
    ensures shrink { (m : ℕ) (letters : List ℤ) (positive : Bool)
        → moved (braid_word (m + 1) (letters ++ letter_of_crossing m positive ∷ [])) step.Shrink ≡ braid_word m letters }
{}

/// The loops of a diagram are sorted by their least columns, and are its components without a passage.
pub fn loops_stand_by_their_least_columns()
    ensures order { (d : Diagram) → AllPairs (λ a b. a < b) (loops d) }
    ensures loops { (d : Diagram) (s : ℕ)
        → Contains (loops d) s ↔ ((s < size d) × (is_least d s ≡ true) × (passages_from d s ≡ [])) }
{}

/// A list of colours of a code has those of the edges first, by the passages to which they lead, and after them those of the loops.
pub fn edges_stand_before_loops()
    ensures edges { (t : Table) (d : Diagram) (colours : List ℕ)
        → take (length (passages d)) (edge_colours t d colours) ≡ map (arriving t d colours) (passages d) }
    ensures loops { (t : Table) (d : Diagram) (colours : List ℕ)
        → drop (length (passages d)) (edge_colours t d colours) ≡ map (slice_index colours) (loops d) }
{}

/// Each crossing of a code that has a colouring names edges of the code, numbered from 1, and no loop.
pub fn a_coloured_code_names_its_edges()
    ensures { (t : Table) (code : Code) (colours : List ℕ) → is_code_colouring t code colours ≡ true
        → (x : Crossing) → Contains code.crossings x → NamesOnly code.edges x }
{}

/// Trades of neighbours are tried first, columns before rows, then destabilisations, then stabilisations.
pub fn tries_stand_by_their_parts()
    ensures { (n : ℕ) → AllPairs (λ s t. part s.step ≤ part t.step) (tries n) }
{}
