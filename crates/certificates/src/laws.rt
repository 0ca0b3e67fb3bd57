//! Laws of what is said in certificates, read and printed, over the definitions alone.
ghost use Rattle.std.specs.Prelude.{◌≡◌, ◌+◌, ◌++◌, ℕ, List, length, true, false, Ok};
ghost use Rattle.quandle_core.specs.Quandle.{Table, IsQuandle};
ghost use Rattle.text_lines.specs.Lines.{Text, are_whole_lines, text_from, text_of};
ghost use Rattle.knot_text.specs.FirstBadLine.{FailsFirst, IsStable};
ghost use Rattle.knot_text.specs.Weights.{weight_of};
ghost use Rattle.verdict_text.specs.Problems.{problem_item, problem_of, check_of};
ghost use Rattle.evidence_core.specs.declared.evidence.Evidence.{Evidence};
ghost use Rattle.evidence_core.specs.declared.shadows.SpelledShadow.{SpelledShadow};
ghost use Rattle.number_text.specs.Shadows.{shadow_item};
ghost use Rattle.number_text.specs.EvidenceItems.{evidence_item};
ghost use Rattle.number_text.specs.Weighed.{weighed_in, weighed_of};
ghost use Rattle.number_text.specs.declared.weighed.Weighing.TheVariants.{Strands};
ghost use Rattle.number_text.specs.declared.said.Said.TheVariants as said;
ghost use Rattle.number_text.specs.Said.{evidence_follows, with_verdict, said_in, said_of};
ghost use Rattle.certificates.specs.Printed.{third_lines, third_text, HasEvidenceText};
ghost use Rattle.certificates.specs.Shadows.{shadow_lines, shadow_text, HasShadowText};

use knot_text::WeightText;
use verdict_core::{ProblemText, Verdict};

/// A text in which no line `certificate 3` follows the problem is read as without this version: the same problem and verdict, or the same fault.
pub fn a_text_without_a_third_version_is_read_as_before()
    ensures { (bytes : List ℕ) → evidence_follows (problem_item (text_of bytes)) ≡ false → said_of bytes ≡ with_verdict (check_of bytes) }
{}

/// Whatever is read as a problem and a verdict of the first or the second version is read as these, and nothing else is read as a verdict.
pub fn what_was_read_before_is_read_so()
    ensures so { (bytes : List ℕ) (problem : ProblemText) (verdict : Verdict) → check_of bytes ≡ Ok (problem, verdict)
        → said_of bytes ≡ Ok (problem, said.Verdict verdict) }
    ensures only { (bytes : List ℕ) (problem : ProblemText) (verdict : Verdict) → said_of bytes ≡ Ok (problem, said.Verdict verdict)
        → check_of bytes ≡ Ok (problem, verdict) }
{}

/// Printed evidence is read back, whatever follows it, if it has a text.
pub fn printed_evidence_is_read()
    ensures { (n : ℕ) (evidence : Evidence) (more : List ℕ) → HasEvidenceText evidence
        → evidence_item (text_from n (third_text evidence ++ more)) ≡ Ok (evidence, text_from (n + length (third_lines evidence)) more) }
{}

/// Evidence that is printed after the whole lines of a problem is read with it.
pub fn evidence_behind_its_problem_is_read()
    ensures { (bytes : List ℕ) (problem : ProblemText) (evidence : Evidence) → are_whole_lines bytes ≡ true → problem_of bytes ≡ Ok problem
        → HasEvidenceText evidence → said_of (bytes ++ third_text evidence) ≡ Ok (problem, said.Evidence evidence) }
{}

/// If what is said of two diagrams can't be read, the fault is that of the first bad line, or, if no line is bad, of the end.
pub fn a_fault_of_what_is_said_is_that_of_the_first_bad_line()
    ensures { FailsFirst said_in }
{}

/// A printed shadow cocycle of a quandle is read back, whatever follows it.
pub fn a_printed_shadow_cocycle_is_read()
    ensures { (quandle : Table) (s : SpelledShadow) (n : ℕ) (more : List ℕ) → HasShadowText quandle s
        → shadow_item quandle (text_from n (shadow_text s ++ more)) ≡ Ok (s, text_from (n + length (shadow_lines s)) more) }
{}

/// What is read as a shadow cocycle of a quandle is one, and has a text.
pub fn a_read_shadow_cocycle_has_a_text()
    ensures { (quandle : Table) (s : SpelledShadow) (text rest : Text) → IsQuandle quandle → shadow_item quandle text ≡ Ok (s, rest) → HasShadowText quandle s }
{}

/// A shadow cocycle is read whatever whole lines follow it.
pub fn a_shadow_cocycle_is_read_whatever_stands_behind()
    ensures { (quandle : Table) → IsStable (shadow_item quandle) }
{}

/// If two diagrams, a quandle and a cocycle can't be read, the fault is that of the first bad line, or, if no line is bad, of the end.
pub fn a_fault_of_weighed_diagrams_is_that_of_the_first_bad_line()
    ensures { FailsFirst weighed_in }
{}

/// Whatever a reader without shadow cocycles reads as two diagrams, a quandle and a 2-cocycle is still read as these.
pub fn what_was_weighed_before_is_read_so()
    ensures { (bytes : List ℕ) (w : WeightText) → weight_of bytes ≡ Ok w
        → weighed_of bytes ≡ Ok (record { first = w.first; second = w.second; listed = w.listed; cocycle = Strands w.cocycle }) }
{}
