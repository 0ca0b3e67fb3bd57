//! Laws of decisions, by verdicts and by numbers, over the definitions alone.
ghost use Rattle.std.specs.Prelude.{◌≡◌, ◌≤◌, ℕ, List, Ok};
ghost use Rattle.std.specs.List.{AllByRecursion};
ghost use Rattle.grid_core.specs.Diagram.{Diagram, IsGrid};
ghost use Rattle.quandle_core.specs.declared.operations.TheConstants.{MAX_LARGE_ORDER};
ghost use Rattle.text_lines.specs.Lines.{Text};
ghost use Rattle.verdict_core.specs.declared.problem.ProblemText.{ProblemText};
ghost use Rattle.verdict_text.specs.Problems.{problem_of};
ghost use Rattle.evidence_core.specs.declared.blocks.Block.{Block};
ghost use Rattle.evidence_core.specs.declared.evidence.Evidence.{Evidence};
ghost use Rattle.number_text.specs.Blocks.{block_item, listed_blocks};
ghost use Rattle.number_text.specs.declared.said.Said.{Said};
ghost use Rattle.certificates.specs.Printed.{HasBlockText, HasEvidenceText};
ghost use Rattle.certificates.specs.Said.{said_text};
ghost use Rattle.number_check.specs.EvidenceHolds.{EvidenceHolds};
ghost use Rattle.check_job.specs.CertificateTruth.{IsTrueSaid};
ghost use Rattle.verdict_laws.specs.VerdictDecision.{IsDecisionByVerdict};
ghost use Rattle.certificate_check.specs.Decision.{IsFindingOf, IsByWrittenBlock, IsAccepted, IsDecision};

use verdict_laws::decisions::a_verdict_that_holds_is_a_decision;

/// If what is said of the diagrams of a problem holds and has a text, its printed text is a decision on the input, whoever found it: it is true, and
/// accepted after the input. So is a decision by a verdict.
pub fn what_holds_is_a_decision()
    ensures decision { (bytes : List ℕ) (problem : ProblemText) (x : Said) → problem_of bytes ≡ Ok problem → IsFindingOf problem x
        → IsDecision bytes (said_text x) }
    ensures verdict { (bytes text : List ℕ) → IsDecisionByVerdict bytes text → IsDecision bytes text }
{
    a_verdict_that_holds_is_a_decision();
}

/// Evidence that holds has a text, if its quandle and its cocycle have texts, and its seeds are not too many for a line: its numbers are
/// never too large.
pub fn evidence_that_holds_has_a_text()
    ensures { (d e : Diagram) (evidence : Evidence) → IsGrid d → IsGrid e → EvidenceHolds d e evidence → IsByWrittenBlock evidence
        → HasEvidenceText evidence }
{}

/// A block that was read has a text, whatever the bound of its order up to `MAX_LARGE_ORDER`, and so has each of a list.
pub fn a_block_that_was_read_has_a_text()
    ensures one { (most : ℕ) (text rest : Text) (block : Block) → most ≤ MAX_LARGE_ORDER → block_item most text ≡ Ok (block, rest) → HasBlockText block }
    ensures each { (most room : ℕ) (text rest : Text) (list : List Block) → most ≤ MAX_LARGE_ORDER → listed_blocks most room text ≡ Ok (list, rest)
        → AllByRecursion HasBlockText list }
{}

/// A text that is a decision on an input is true, and so is what is said in bytes that are read, if it is accepted: no list of moves joins
/// diagrams that are distinguished.
pub fn what_is_accepted_is_true()
    ensures written { (bytes text : List ℕ) (problem : ProblemText) (decision : IsDecision bytes text) → problem_of bytes ≡ Ok problem
        → IsTrueSaid problem decision.statement }
    ensures accepted { (bytes : List ℕ) (problem : ProblemText) (x : Said) → IsAccepted bytes problem x → IsTrueSaid problem x }
{}
