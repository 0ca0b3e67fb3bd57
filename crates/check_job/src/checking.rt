//! The job `check`: the ruling on a certificate, of what is said of two diagrams or of a table of knots.
ghost use Rattle.std.specs.Prelude.{◌≡◌, IfOk};
ghost use Rattle.number_text.specs.Said.{said_of};
ghost use Rattle.cert_check.specs.VerdictTruth.{IsTrueVerdict};
ghost use Rattle.check_job.specs.CertificateTruth.{AreApart, IsTrueSaid};
ghost use Rattle.reply_text.specs.Lines.{ruling_line, number_ruling_line};
ghost use Rattle.reply_text.specs.Reply.{plain_reply, AnswersRead};
ghost use Rattle.check_job.specs.Input.{certificate_of};
ghost use Rattle.check_job.specs.Answer.{ruling_status, number_ruling_status, AnswersVerdict, AnswersEvidence, AnswersSaid, AnswersPair, AnswersCheck};
ghost use Rattle.check_job.specs.CertificateTruth.{IsTruePair, IsCertificate};

use crate::evidence::check_evidence;
use cert_check::{Ruling, check};
use evidence_core::Evidence;
use knot_ports::Status;
use number_check::NumberRuling;
use number_text::{Said, read_said};
use reply_text::PlainReply;
use reply_text::lines::{number_ruling_line, ruling_line};
use std::alloc::{AllocError, Global};
use table_check::{answer_table, begins_table};
use verdict_core::{ProblemText, Verdict};

/// The answer to the bytes of a certificate: of a table of knots if their first line is `certificate 4`, otherwise of a problem with a verdict
/// on it or with evidence by numbers.
pub fn answer(alloc: Global, bytes: &[u8]) -> Result<PlainReply, AllocError>
    ensures answer { IfOk result (λ reply. AnswersRead AnswersCheck (certificate_of bytes.now) reply) }
    ensures claim { IfOk result (λ reply. reply.status ≡ Status.Done → IsCertificate bytes.now) }
{
    if begins_table(bytes) {
        answer_table(alloc, bytes)
    } else {
        answer_pair(alloc, bytes)
    }
}

/// The answer to the bytes of a problem, and of a verdict on it or evidence by numbers.
fn answer_pair(alloc: Global, bytes: &[u8]) -> Result<PlainReply, AllocError>
    ensures answer { IfOk result (λ reply. AnswersRead AnswersPair (said_of bytes.now) reply) }
    ensures claim { IfOk result (λ reply. reply.status ≡ Status.Done → IsTruePair bytes.now) }
{
    match read_said(alloc, bytes) {
        Ok((problem, said)) => answer_said(alloc, &problem, &said),
        Err(fault) => PlainReply::to_fault(alloc, fault),
    }
}

/// The answer to what is said of the diagrams of a problem.
fn answer_said(alloc: Global, problem: &ProblemText, said: &Said) -> Result<PlainReply, AllocError>
    ensures answer { IfOk result (λ reply. AnswersSaid problem.now said.now reply) }
    ensures claim { IfOk result (λ reply. reply.status ≡ Status.Done → IsTrueSaid problem.now said.now) }
{
    match said {
        Said::Verdict(verdict) => answer_verdict(alloc, problem, verdict),
        Said::Evidence(evidence) => answer_evidence(alloc, problem, evidence),
    }
}

/// The answer to a verdict.
fn answer_verdict(
    alloc: Global,
    problem: &ProblemText,
    verdict: &Verdict,
) -> Result<PlainReply, AllocError>
    ensures answer { IfOk result (λ reply. AnswersVerdict problem.now verdict.now reply) }
    ensures claim { IfOk result (λ reply. reply.status ≡ Status.Done → IsTrueVerdict problem.now verdict.now) }
{
    match check(alloc, problem, verdict) {
        Ok(ruling) => answer_ruling(alloc, ruling),
        Err(_) => Err(AllocError),
    }
}

/// The answer to evidence by numbers.
fn answer_evidence(
    alloc: Global,
    problem: &ProblemText,
    evidence: &Evidence,
) -> Result<PlainReply, AllocError>
    ensures answer { IfOk result (λ reply. AnswersEvidence problem.now evidence.now reply) }
    ensures claim { IfOk result (λ reply. reply.status ≡ Status.Done → AreApart problem.now) }
{
    match check_evidence(alloc, problem, evidence) {
        Ok(ruling) => answer_number_ruling(alloc, ruling),
        Err(_) => Err(AllocError),
    }
}

/// The answer with a ruling on a verdict.
fn answer_ruling(alloc: Global, ruling: Ruling) -> Result<PlainReply, AllocError>
    ensures { IfOk result (λ reply. reply ≡ plain_reply (ruling_status ruling) (ruling_line ruling)) }
{
    let status = match ruling {
        Ruling::Accepted => Status::Done,
        Ruling::Rejected(_) => Status::Rejected,
    };
    Ok(PlainReply::new(status, ruling_line(alloc, ruling)?))
}

/// The answer with a ruling on evidence by numbers.
fn answer_number_ruling(alloc: Global, ruling: NumberRuling) -> Result<PlainReply, AllocError>
    ensures { IfOk result (λ reply. reply ≡ plain_reply (number_ruling_status ruling) (number_ruling_line ruling)) }
{
    let status = match ruling {
        NumberRuling::Accepted => Status::Done,
        NumberRuling::Rejected(_) => Status::Rejected,
    };
    Ok(PlainReply::new(status, number_ruling_line(alloc, ruling)?))
}
