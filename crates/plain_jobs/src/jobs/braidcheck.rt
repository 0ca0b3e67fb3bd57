//! The job `braidcheck`: the ruling on steps between two braids.
ghost use Rattle.std.specs.Prelude.{◌≡◌, ◌++◌, IfOk, OnOk};
ghost use Rattle.std.specs.List.{flat_map};
ghost use Rattle.text_lines.specs.Spelled.{spaced};
ghost use Rattle.knot_text.specs.BraidChecks.{braidcheck_of};
ghost use Rattle.plain_jobs.specs.EquallyMany.{HaveEquallyMany};
ghost use Rattle.reply_text.specs.Lines.{rejected_line};
ghost use Rattle.reply_text.specs.Reply.{AnswersRead};
ghost use Rattle.plain_jobs.specs.Jobs.Braidcheck.{braid_fault_tokens, braid_step_tokens, ruled_reply, AnswersBraidcheck};
ghost use Rattle.plain_jobs.specs.TextTruth.{IsBraidCertificate};

use crate::laws::accepted_braids_have_equally_many_colourings;
use braid_moves::{BraidMoveFault, BraidRuling, check_braids};
use knot_ports::Status;
use knot_text::{BraidCheckText, read_braidcheck};
use reply_text::PlainReply;
use reply_text::lines::push_spaced;
use std::alloc::{AllocError, Global};

/// The answer to the bytes of two braids and steps between them.
pub(crate) fn answer(alloc: Global, bytes: &[u8]) -> Result<PlainReply, AllocError>
    ensures answer { IfOk result (λ reply. AnswersRead AnswersBraidcheck (braidcheck_of bytes.now) reply) }
    ensures claim { IfOk result (λ reply. reply.status ≡ Status.Done → IsBraidCertificate bytes.now) }
{
    match read_braidcheck(alloc, bytes) {
        Ok(input) => answer_text(alloc, &input),
        Err(fault) => PlainReply::to_fault(alloc, fault),
    }
}

/// The answer to two braids and steps between them.
fn answer_text(alloc: Global, input: &BraidCheckText) -> Result<PlainReply, AllocError>
    ensures answer { IfOk result (λ reply. AnswersBraidcheck input.now reply) }
    ensures claim { IfOk result (λ reply. reply.status ≡ Status.Done → HaveEquallyMany input.now.first input.now.second) }
{
    accepted_braids_have_equally_many_colourings();
    let _first = input.first.strands();
    let _second = input.second.strands();
    match check_braids(alloc, &input.first, &input.second, input.steps.as_slice()) {
        Ok(ruling) => answer_ruling(alloc, ruling),
        Err(_) => Err(AllocError),
    }
}

/// The answer with a ruling.
fn answer_ruling(alloc: Global, ruling: BraidRuling) -> Result<PlainReply, AllocError>
    ensures answer { IfOk result (λ reply. reply ≡ ruled_reply ruling) }
    ensures accepted { IfOk result (λ reply. reply.status ≡ Status.Done → ruling ≡ BraidRuling.Accepted) }
{
    match ruling {
        BraidRuling::Accepted => {
            let text = Vec::from_slice(alloc, b"accepted\n")?;
            Ok(PlainReply::new(Status::Done, text))
        }
        BraidRuling::Step { place, fault } => {
            let text = braid_step_line(alloc, place, fault)?;
            Ok(PlainReply::new(Status::Rejected, text))
        }
        BraidRuling::OtherEnd => {
            let text = Vec::from_slice(alloc, b"rejected otherend\n")?;
            Ok(PlainReply::new(Status::Rejected, text))
        }
    }
}

/// The line of the first step that is not legal.
fn braid_step_line(
    alloc: Global,
    place: usize,
    fault: BraidMoveFault,
) -> Result<Vec<u8>, AllocError>
    ensures { IfOk result (λ v. v.items ≡ rejected_line (braid_step_tokens place fault)) }
{
    let mut out = Vec::from_slice(alloc, b"rejected")?;
    push_braid_step(&mut out, place, fault)?;
    out.extend_from_slice(b"\n")?;
    Ok(out)
}

/// Appends the first step that is not legal, each token after a space.
fn push_braid_step(out: &mut Vec<u8>, place: usize, fault: BraidMoveFault) -> Result<(), AllocError>
    ensures { OnOk result (out.new.items ≡ out.old.items ++ flat_map spaced (braid_step_tokens place fault)) }
{
    push_spaced(out, b" step ", place as u64)?;
    push_braid_fault(out, fault)
}

/// Appends why a step is not legal, each token after a space.
fn push_braid_fault(out: &mut Vec<u8>, fault: BraidMoveFault) -> Result<(), AllocError>
    ensures { OnOk result (out.new.items ≡ out.old.items ++ flat_map spaced (braid_fault_tokens fault)) }
{
    match fault {
        BraidMoveFault::Range => out.extend_from_slice(b" range"),
        BraidMoveFault::Shape => out.extend_from_slice(b" shape"),
        BraidMoveFault::Full => out.extend_from_slice(b" full"),
        BraidMoveFault::OutOfMemory => out.extend_from_slice(b""),
    }
}
