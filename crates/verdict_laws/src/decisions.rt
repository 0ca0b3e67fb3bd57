//! Laws of decisions, over the definitions alone.
ghost use Rattle.std.specs.Prelude.{◌≡◌, ℕ, List, Ok};
ghost use Rattle.std.specs.List.{AllByRecursion};
ghost use Rattle.verdict_core.specs.declared.problem.ProblemText.{ProblemText};
ghost use Rattle.verdict_core.specs.declared.verdict.Verdict.{Verdict};
ghost use Rattle.verdict_core.specs.Diagrams.{grid_of};
ghost use Rattle.verdict_core.specs.Evidence.{VerdictHolds, IsTidyVerdict};
ghost use Rattle.knot_text.specs.Printed.{HasQuandleText, version_text};
ghost use Rattle.verdict_text.specs.Problems.{problem_of};
ghost use Rattle.verdict_laws.specs.VerdictDecision.{IsDecisionByVerdict, IsByWrittenQuandle};

use knot_text::Version;
use quandle_laws::lists::no_more_colourings_than_choices;

/// The quandles of a problem that was read have texts. If a verdict holds of its diagrams, by moves or by a quandle that has a text, and its
/// moves, if any, are a tidy list, its printed text is a decision on the input, whoever found it: it is true, and accepted
/// after the input.
pub fn a_verdict_that_holds_is_a_decision()
    ensures quandles { (bytes : List ℕ) (problem : ProblemText) → problem_of bytes ≡ Ok problem → AllByRecursion HasQuandleText problem.quandles }
    ensures decision { (bytes : List ℕ) (problem : ProblemText) (verdict : Verdict)
        → problem_of bytes ≡ Ok problem
        → VerdictHolds (grid_of problem.first) (grid_of problem.second) verdict
        → IsByWrittenQuandle verdict
        → IsTidyVerdict verdict
        → IsDecisionByVerdict bytes (version_text Version.Tidy verdict) }
{
    no_more_colourings_than_choices();
}
