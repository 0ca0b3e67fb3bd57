//! Laws of the quandles by formula, of the candidates and of the parts of a problem, over the definitions alone.
ghost use Rattle.std.specs.Prelude.{◌≡◌, ◌≤◌, ◌⊎◌, ℕ, false, true, List, ◌++◌, None, Ok, length, flat_map};
ghost use Rattle.std.specs.List.{All, Contains};
ghost use Rattle.grid_core.specs.Diagram.{Diagram};
ghost use Rattle.quandle_core.specs.declared.quandle.TheConstants.{MAX_ORDER};
ghost use Rattle.quandle_core.specs.Tables.{trivial, dihedral, alexander, tetrahedral};
ghost use Rattle.colour_list.specs.Fits.{fits};
ghost use Rattle.verdict_core.specs.declared.problem.ProblemText.{ProblemText};
ghost use Rattle.verdict_core.specs.Diagrams.{grid_of};
ghost use Rattle.quandle_core.specs.Names.{NamedQuandle, Names};
ghost use Rattle.pair_verdict.specs.Separates.{separates, first_separating};
ghost use Rattle.text_lines.specs.Lines.{text_of};
ghost use Rattle.knot_text.specs.Printed.{HasQuandleText};
ghost use Rattle.verdict_text.specs.Problems.{problem_of};
ghost use Rattle.knot_text.specs.WrittenThere.{said_by};
ghost use Rattle.linking_core.specs.Component.{components};
ghost use Rattle.linking_core.specs.Linking.{linking};
ghost use Rattle.evidence_core.specs.declared.blocks.Block.{Block};
ghost use Rattle.number_check.specs.EvidenceHolds.{numbers_by};
ghost use Rattle.number_search.specs.declared.seed_pair.SeedPair.{SeedPair};
ghost use Rattle.number_search.specs.Told.{ArePlansOf, fits_both};
ghost use Rattle.seek_core.specs.Answers.{QuandlesTriedInVain, BlocksTriedInVain};
ghost use Rattle.seek_core.specs.Candidates.{IsUnlisted, candidate_quandles};
ghost use Rattle.seek_core.specs.Formulas.{formula_quandles, HaveOwnTables, HaveTable, IsFactor, IsByFormula};
ghost use Rattle.seek_core.specs.Parts.{joined, lines_in_turn};

use crate::answer::Tried;
use verdict_laws::decisions::a_verdict_that_holds_is_a_decision;

/// Each quandle by formula is the one that its name names, and has a text.
pub fn quandles_by_formula_have_texts()
    ensures { All HasQuandleText formula_quandles }
{}

/// There are 294 quandles by formula: as many as trivial 2, tetrahedral, and the orders from 3 to `MAX_ORDER` have dihedral and Alexander
/// ones that are not trivial.
pub fn there_are_so_many_quandles_by_formula()
    ensures { length formula_quandles ≡ 294 }
{}

/// No two of the quandles by formula have one table.
pub fn each_quandle_by_formula_stands_once()
    ensures { HaveOwnTables formula_quandles }
{}

/// Trivial 2 and the tetrahedral quandle are among the quandles by formula, and so are all dihedral quandles from order 3 to `MAX_ORDER`
/// and, of each order up to it, the Alexander ones of all factors from 2 to n - 1 that have an inverse modulo n. That of the factor n - 1
/// is the dihedral one. There are no others.
pub fn quandles_by_formula_are_all_of_their_kinds()
    ensures trivial { HaveTable formula_quandles (trivial 2) }
    ensures tetrahedral { HaveTable formula_quandles tetrahedral }
    ensures dihedral { (n : ℕ) → 3 ≤ n → n ≤ MAX_ORDER → HaveTable formula_quandles (dihedral n) }
    ensures alexander { (n a : ℕ) → n ≤ MAX_ORDER → IsFactor n a → HaveTable formula_quandles (alexander n a) }
    ensures only { All (λ (q : NamedQuandle). IsByFormula q.table) formula_quandles }
{}

/// Where none of the candidates separates two diagrams, no listed quandle does, and none by formula. More than that: the first candidate
/// that separates them is the first that does among the listed ones followed by those by formula, so what is passed over takes no
/// verdict away. For those by formula each listed quandle has to be the one that its name names, as in every problem that was read: else
/// a listed one could bear the name of one by formula, and keep it from being tried.
pub fn where_no_candidate_separates_no_quandle_does()
    ensures listed { (d e : Diagram) (listed : List NamedQuandle)
        → first_separating d e (candidate_quandles d e listed) ≡ None
        → All (λ (q : NamedQuandle). separates d e q.table ≡ false) listed }
    ensures by_formula { (d e : Diagram) (listed : List NamedQuandle)
        → All (λ (q : NamedQuandle). Names q.name q.table) listed
        → first_separating d e (candidate_quandles d e listed) ≡ None
        → All (λ (q : NamedQuandle). separates d e q.table ≡ false) formula_quandles }
    ensures first { (d e : Diagram) (listed : List NamedQuandle)
        → All (λ (q : NamedQuandle). Names q.name q.table) listed
        → first_separating d e (candidate_quandles d e listed) ≡ first_separating d e (listed ++ formula_quandles) }
{}

/// Where an input was tried in vain, neither a quandle of its problem nor one by formula separates its diagrams.
pub fn what_was_tried_in_vain_no_quandle_separates()
    ensures listed { (bytes : List ℕ) (tried : Tried) (problem : ProblemText)
        → QuandlesTriedInVain bytes tried
        → problem_of bytes ≡ Ok problem
        → All (λ (q : NamedQuandle). separates (grid_of problem.first) (grid_of problem.second) q.table ≡ false) problem.quandles }
    ensures by_formula { (bytes : List ℕ) (tried : Tried) (problem : ProblemText)
        → QuandlesTriedInVain bytes tried
        → problem_of bytes ≡ Ok problem
        → All (λ (q : NamedQuandle). separates (grid_of problem.first) (grid_of problem.second) q.table ≡ false) formula_quandles }
{
    a_verdict_that_holds_is_a_decision();
}

/// Where an input was tried in vain, its two links have as many components and the same linking numbers, and by each of the blocks that fits plans
/// of both diagrams they have the same numbers of colourings.
pub fn what_was_tried_in_vain_no_numbers_tell_apart()
    ensures linking { (bytes : List ℕ) (tried : Tried) (problem : ProblemText)
        → QuandlesTriedInVain bytes tried
        → problem_of bytes ≡ Ok problem
        → (length (components (grid_of problem.first)) ≡ length (components (grid_of problem.second)))
        × (linking (grid_of problem.first) ≡ linking (grid_of problem.second)) }
    ensures blocks { (bytes : List ℕ) (blocks : List Block) (tried : Tried) (problem : ProblemText)
        → BlocksTriedInVain bytes blocks tried
        → problem_of bytes ≡ Ok problem
        → (s : SeedPair) × ArePlansOf (grid_of problem.first) (grid_of problem.second) s
        × All (λ (b : Block). fits_both s b ≡ true → numbers_by b (grid_of problem.first) ≡ numbers_by b (grid_of problem.second)) blocks }
{}

/// Each candidate fits both diagrams, and is a listed quandle, or one by formula whose name no listed one has: nothing else is tried.
pub fn a_candidate_is_listed_or_by_formula()
    ensures fit { (d e : Diagram) (listed : List NamedQuandle)
        → All (λ (q : NamedQuandle). (fits q.table d ≡ true) × (fits q.table e ≡ true)) (candidate_quandles d e listed) }
    ensures kinds { (d e : Diagram) (listed : List NamedQuandle)
        → All (λ (q : NamedQuandle). Contains listed q ⊎ IsUnlisted listed q) (candidate_quandles d e listed) }
{}

/// Put together the parts say what each of them says, in their order: lines do not run into each other.
pub fn joined_parts_say_what_each_says()
    ensures { (parts : List (List ℕ)) → said_by (joined parts) ≡ flat_map said_by parts }
{}

/// Put together the parts have the lines of each of them, in their order. The number of a line is that in its part and the number of lines of
/// the parts before, as `place` counts them.
pub fn joined_parts_have_the_lines_of_each()
    ensures { (parts : List (List ℕ)) → (text_of (joined parts)).lines ≡ lines_in_turn 0 parts }
{}
