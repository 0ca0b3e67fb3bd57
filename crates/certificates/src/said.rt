//! What is said of two diagrams, printed.
ghost use Rattle.std.specs.Prelude.{◌≡◌, IfOk};
ghost use Rattle.certificates.specs.Printed.{third_text};
ghost use Rattle.certificates.specs.Said.{IsTidySaid, said_text};

use crate::printed::print_evidence;
use evidence_core::Evidence;
use knot_text::print_verdict;
use memory_core::OutOfMemory;
use number_text::Said;
use std::alloc::Global;

/// The text of what is said of two diagrams: of a verdict after the line `certificate 2`, of evidence by numbers after the line `certificate 3`;
/// or an error if memory runs out. The list of moves of a verdict, if it has one, is tidy.
pub fn print_said(alloc: Global, said: &Said) -> Result<Vec<u8>, OutOfMemory>
    requires { IsTidySaid said.now }
    ensures { IfOk result (λ v. v.items ≡ said_text said.now) }
{
    match said {
        Said::Verdict(verdict) => print_verdict(alloc, verdict),
        Said::Evidence(evidence) => evidence_text(alloc, evidence),
    }
}

/// The text of evidence by numbers.
fn evidence_text(alloc: Global, evidence: &Evidence) -> Result<Vec<u8>, OutOfMemory>
    ensures { IfOk result (λ v. v.items ≡ third_text evidence.now) }
{
    let text = print_evidence(alloc, evidence)?;
    Ok(text)
}
