//! What `check` reads: a verdict of an earlier version, or evidence by numbers.
ghost use Rattle.std.specs.Prelude.{◌≡◌};
ghost use Rattle.text_items.specs.Reading.{Gives};
ghost use Rattle.number_text.specs.Said.{is_evidence_head, starts_evidence, evidence_after, verdict_after, said_of};

use crate::evidence_items::evidence_item;
use evidence_core::Evidence;
use std::alloc::Global;
use text_items::TextFault;
use text_items::reading::text_end;
use text_lines::{Line, Lines};
use verdict_core::{ProblemText, Verdict};
use verdict_text::{problem_item, verdict_item};

/// What is said of two diagrams.
#[derive(Drop)]
pub enum Said {
    /// A verdict of the first or the second version.
    Verdict(Verdict),
    /// Evidence by numbers, of the third version.
    Evidence(Evidence),
}

/// Whether a line is `certificate 3`.
fn is_evidence_head(line: &mut Line) -> bool
    ensures { result ≡ is_evidence_head line.old.tokens }
{
    let Some(word) = line.next_token() else {
        return false;
    };
    let Some(version) = line.next_token() else {
        return false;
    };
    word == b"certificate".as_slice() && version == b"3".as_slice() && line.next_token().is_none()
}

/// Whether the next line is `certificate 3`.
fn starts_evidence(lines: &mut Lines) -> bool
    ensures { result ≡ starts_evidence lines.old.lines }
{
    match lines.next_line() {
        Some(mut line) => is_evidence_head(&mut line),
        None => false,
    }
}

/// A problem with evidence by numbers after it, and nothing more.
#[tactic(auto, unfolding(crate::specs::Said::evidence_after))]
fn evidence_after(
    alloc: Global,
    problem: ProblemText,
    lines: &mut Lines,
) -> Result<(ProblemText, Said), TextFault>
    ensures { Gives (λ p. p) result (evidence_after problem lines.old) }
{
    let evidence = evidence_item(alloc, lines)?;
    text_end(lines)?;
    Ok((problem, Said::Evidence(evidence)))
}

/// A problem with a verdict of an earlier version after it, and nothing more.
#[tactic(auto, unfolding(crate::specs::Said::verdict_after))]
fn verdict_after(
    alloc: Global,
    problem: ProblemText,
    lines: &mut Lines,
) -> Result<(ProblemText, Said), TextFault>
    ensures { Gives (λ p. p) result (verdict_after problem lines.old) }
{
    let first = problem.first.columns();
    let second = problem.second.columns();
    let verdict = verdict_item(alloc, first, second, lines)?;
    text_end(lines)?;
    Ok((problem, Said::Verdict(verdict)))
}

/// A problem, and what is said of its two diagrams: evidence by numbers if the line `certificate 3` follows the problem, and if not, what
/// `read_check` of verdict_text reads. Otherwise the fault of the first bad line, or `OutOfMemory`.
#[tactic(auto, using(crate::proofs::Behind::fails, crate::proofs::Behind::evidence, crate::proofs::Behind::earlier))]
pub fn read_said(alloc: Global, bytes: &[u8]) -> Result<(ProblemText, Said), TextFault>
    ensures { Gives (λ p. p) result (said_of bytes.now) }
{
    let mut lines = Lines::new(bytes);
    let problem = problem_item(alloc, &mut lines)?;
    let mut ahead = lines.again();
    if starts_evidence(&mut ahead) {
        evidence_after(alloc, problem, &mut lines)
    } else {
        verdict_after(alloc, problem, &mut lines)
    }
}
