//! Laws of the searches, and of the texts of `decide` and `least`, over the definitions alone.
ghost use Rattle.std.specs.Prelude.{◌≡◌, ◌+◌, ◌↔◌, ℕ, List, Option, min, max};
ghost use Rattle.std.specs.List.{AllByRecursion};
ghost use Rattle.grid_core.specs.Diagram.{Diagram, IsGrid, size};
ghost use Rattle.verdict_core.specs.declared.diagrams.Diagram.{Diagram as Given};
ghost use Rattle.verdict_core.specs.Diagrams.{grid_of};
ghost use Rattle.grid_core.specs.declared.grid.TheConstants.{MAX_SIZE};
ghost use Rattle.verdict_core.specs.declared.verdict.Verdict.{Verdict};
ghost use Rattle.quandle_core.specs.Names.{NamedQuandle};
ghost use Rattle.knot_text.specs.Printed.{HasQuandleText, HasVersionText};
ghost use Rattle.search_book.specs.declared.problem.Problem.{Problem};
ghost use Rattle.search_book.specs.declared.problem.TheConstants.{MAX_BUDGET};
ghost use Rattle.search_pool.specs.declared.finding.Finding.{Finding};
ghost use Rattle.pair_verdict.specs.Decided.{Decides};
ghost use Rattle.verdict_laws.specs.VerdictDecision.{HasFewMoves};
ghost use Rattle.knot_words.specs.declared.words.TheConstants as words;
ghost use Rattle.mono_simplify.specs.ExchangeClass.{JoinedByExchanges};
ghost use Rattle.mono_simplify.specs.Least.{IsLeastReached};
ghost use Rattle.search_jobs.specs.Decide.{problem_for};
ghost use Rattle.search_jobs.specs.Least.{TellsWhole};

use knot_text::Version;
use knot_words::Asked;
use quandle_laws::lists::no_more_colourings_than_choices;

/// The words may ask for as many entries as a book may have, and for no more.
pub fn the_words_ask_for_no_more_than_a_book_has()
    ensures { words.MAX_BUDGET ≡ MAX_BUDGET }
{}

/// Without a spare, a search is capped at the size of the larger diagram. Each further one raises the cap by one, up to `MAX_SIZE`.
pub fn each_spare_raises_the_cap()
    ensures none { (asked : Asked) (d e : Diagram) → IsGrid d → IsGrid e → asked.spare ≡ 0
        → (problem_for asked d e).cap ≡ max (size d) (size e) }
    ensures more { (asked more : Asked) (d e : Diagram) → more.spare ≡ asked.spare + 1
        → (problem_for more d e).cap ≡ min MAX_SIZE ((problem_for asked d e).cap + 1) }
{}

/// A decision has a text after its two diagrams, where the listed quandles have texts, and its moves, if any, are not too many
/// for one: so what is printed is read back.
pub fn a_decision_has_a_text()
    ensures { (p : Problem) (quandles : List NamedQuandle) (workers : ℕ) (v : Verdict) (kept : Option Finding)
        → IsGrid p.first
        → IsGrid p.second
        → AllByRecursion HasQuandleText quandles
        → Decides p quandles workers v kept
        → HasFewMoves v
        → HasVersionText Version.Tidy (size p.first) (size p.second) v }
{
    no_more_colourings_than_choices();
}

/// A text of `least` whose last line is `whole` begins with the least diagram that shifts and exchanges reach. So two such texts begin
/// with one diagram exactly where shifts and exchanges join the two that were given.
pub fn whole_texts_begin_with_one_diagram_exactly_where_exchanges_join()
    ensures least { (d : Given) (text : List ℕ) (g : Diagram) → IsGrid (grid_of d) → TellsWhole d text g → IsLeastReached (grid_of d) g }
    ensures one { (d e : Given) (first second : List ℕ) (g h : Diagram)
        → IsGrid (grid_of d)
        → IsGrid (grid_of e)
        → TellsWhole d first g
        → TellsWhole e second h
        → JoinedByExchanges (grid_of d) (grid_of e) ↔ (g ≡ h) }
{}
