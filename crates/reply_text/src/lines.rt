//! The lines of rulings and of faults.
ghost use Rattle.std.specs.Prelude.{◌≡◌, ◌++◌, [], ◌∷◌, codes, IfOk, OnOk};
ghost use Rattle.std.specs.Fmt.{decimal};
ghost use Rattle.text_lines.specs.Spelled.{spaced};
ghost use Rattle.reply_text.specs.Lines.{fault_tokens, illegal_step_tokens, why_tokens, cause_tokens, rejected_line, ruling_line, number_ruling_line};
ghost use Rattle.reply_text.specs.Lines.{malformed_line, limit_line, limit_bytes};
ghost use Rattle.std.specs.List.{flat_map};

use cert_check::{Ruling, Why};
use evidence_core::{Cause, NumberRuling};
use grid_moves::MoveFault;
use std::alloc::{AllocError, Global};
use text_lines::{push_counted, push_number};

/// Appends why a move is not legal, each token after a space.
fn push_fault(out: &mut Vec<u8>, fault: MoveFault) -> Result<(), AllocError>
    ensures { OnOk result (out.new.items ≡ out.old.items ++ flat_map spaced (fault_tokens fault)) }
{
    match fault {
        MoveFault::Range => out.extend_from_slice(b" range"),
        MoveFault::Touching => out.extend_from_slice(b" touching"),
        MoveFault::Interleaved => out.extend_from_slice(b" interleaved"),
        MoveFault::Block { marks } => push_spaced(out, b" block ", u64::from(marks)),
        MoveFault::Full => out.extend_from_slice(b" full"),
        MoveFault::Apart => out.extend_from_slice(b" apart"),
    }
}

/// Appends words, of which the last ends with a space, and a number.
pub fn push_spaced(out: &mut Vec<u8>, words: &[u8], number: u64) -> Result<(), AllocError>
    ensures { OnOk result (out.new.items ≡ out.old.items ++ (words.now ++ decimal number)) }
{
    out.extend_from_slice(words)?;
    push_number(out, number)
}

/// Appends the first move that is not legal, each token after a space.
fn push_step(out: &mut Vec<u8>, place: usize, fault: MoveFault) -> Result<(), AllocError>
    ensures { OnOk result (out.new.items ≡ out.old.items ++ flat_map spaced (illegal_step_tokens place fault)) }
{
    push_spaced(out, b" step ", place as u64)?;
    push_fault(out, fault)
}

/// Appends words, of which the last ends with a space, and two numbers.
fn push_two(out: &mut Vec<u8>, words: &[u8], a: u8, b: u64) -> Result<(), AllocError>
    ensures { OnOk result (out.new.items ≡ out.old.items ++ (words.now ++ (decimal a ++ spaced (decimal b)))) }
{
    push_spaced(out, words, u64::from(a))?;
    push_spaced(out, b" ", b)
}

/// Appends why evidence does not hold, each token after a space.
pub fn push_why(out: &mut Vec<u8>, why: Why) -> Result<(), AllocError>
    ensures { OnOk result (out.new.items ≡ out.old.items ++ flat_map spaced (why_tokens why)) }
{
    match why {
        Why::Step { place, fault } => push_step(out, place, fault),
        Why::OtherEnd => out.extend_from_slice(b" otherend"),
        Why::Wide { which, bottoms } => push_two(out, b" wide ", which, u64::from(bottoms)),
        Why::List { which, place } => push_two(out, b" list ", which, place as u64),
        Why::SameLength => out.extend_from_slice(b" samelength"),
        Why::NoEvidence => out.extend_from_slice(b" noevidence"),
    }
}

/// The line of a ruling.
pub fn ruling_line(alloc: Global, ruling: Ruling) -> Result<Vec<u8>, AllocError>
    ensures { IfOk result (λ v. v.items ≡ ruling_line ruling) }
{
    match ruling {
        Ruling::Accepted => Vec::from_slice(alloc, b"accepted\n"),
        Ruling::Rejected(why) => why_line(alloc, why),
    }
}

/// The line of evidence that does not hold.
fn why_line(alloc: Global, why: Why) -> Result<Vec<u8>, AllocError>
    ensures { IfOk result (λ v. v.items ≡ rejected_line (why_tokens why)) }
{
    let mut out = Vec::from_slice(alloc, b"rejected")?;
    push_why(&mut out, why)?;
    out.extend_from_slice(b"\n")?;
    Ok(out)
}

/// Appends why evidence by numbers does not hold, each token after a space.
fn push_cause(out: &mut Vec<u8>, cause: Cause) -> Result<(), AllocError>
    ensures { OnOk result (out.new.items ≡ out.old.items ++ flat_map spaced (cause_tokens cause)) }
{
    match cause {
        Cause::Outside { which, column } => {
            push_two(out, b" outside ", which, u64::from(column))
        }
        Cause::Unsettled { which, column } => {
            push_two(out, b" unsettled ", which, u64::from(column))
        }
        Cause::Wide { which, seeds } => push_two(out, b" wide ", which, seeds as u64),
        Cause::Components { which } => push_spaced(out, b" components ", u64::from(which)),
        Cause::Number { which, place } => push_two(out, b" number ", which, place as u64),
        Cause::Equal => out.extend_from_slice(b" samenumbers"),
    }
}

/// The line of a ruling on evidence by numbers.
pub fn number_ruling_line(alloc: Global, ruling: NumberRuling) -> Result<Vec<u8>, AllocError>
    ensures { IfOk result (λ v. v.items ≡ number_ruling_line ruling) }
{
    match ruling {
        NumberRuling::Accepted => Vec::from_slice(alloc, b"accepted\n"),
        NumberRuling::Rejected(cause) => cause_line(alloc, cause),
    }
}

/// The line of evidence by numbers that does not hold.
fn cause_line(alloc: Global, cause: Cause) -> Result<Vec<u8>, AllocError>
    ensures { IfOk result (λ v. v.items ≡ rejected_line (cause_tokens cause)) }
{
    let mut out = Vec::from_slice(alloc, b"rejected")?;
    push_cause(&mut out, cause)?;
    out.extend_from_slice(b"\n")?;
    Ok(out)
}

/// The line of the first move that is not legal.
pub fn step_line(alloc: Global, place: usize, fault: MoveFault) -> Result<Vec<u8>, AllocError>
    ensures { IfOk result (λ v. v.items ≡ rejected_line (illegal_step_tokens place fault)) }
{
    let mut out = Vec::from_slice(alloc, b"rejected")?;
    push_step(&mut out, place, fault)?;
    out.extend_from_slice(b"\n")?;
    Ok(out)
}

/// The line of colours that are no colouring.
pub fn miscoloured_line(alloc: Global) -> Result<Vec<u8>, AllocError>
    ensures { IfOk result (λ v. v.items ≡ rejected_line (codes "colours" ∷ [])) }
{
    Vec::from_slice(alloc, b"rejected colours\n")
}

/// The line of a malformed line.
pub(crate) fn malformed_line(alloc: Global, line: usize) -> Result<Vec<u8>, AllocError>
    ensures { IfOk result (λ v. v.items ≡ malformed_line line) }
{
    let mut out = Vec::new(alloc);
    push_counted(&mut out, b"malformed line ", line as u64)?;
    Ok(out)
}

/// The line of a line that exceeds a limit.
pub(crate) fn limit_line(alloc: Global, line: usize) -> Result<Vec<u8>, AllocError>
    ensures { IfOk result (λ v. v.items ≡ limit_line line) }
{
    let mut out = Vec::new(alloc);
    push_counted(&mut out, b"limit line ", line as u64)?;
    Ok(out)
}

/// The line of too many bytes.
pub(crate) fn limit_bytes(alloc: Global) -> Result<Vec<u8>, AllocError>
    ensures { IfOk result (λ v. v.items ≡ limit_bytes) }
{
    Vec::from_slice(alloc, b"limit bytes\n")
}
