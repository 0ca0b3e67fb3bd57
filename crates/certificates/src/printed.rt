//! Evidence by numbers, printed.
ghost use Rattle.std.specs.Prelude.{◌≡◌, ◌<◌, ◌++◌, ◌∷◌, map, codes, unsigned_abs, IfOk, OnOk};
ghost use Rattle.std.specs.Fmt.{decimal};
ghost use Rattle.std.specs.List.{range_with_len, flat_map};
ghost use Rattle.text_lines.specs.Spelled.{line_text, lines_text, spaced};
ghost use Rattle.cocycle_core.specs.Cocycle.{value};
ghost use Rattle.knot_text.specs.Printed.{letter_token};
ghost use Rattle.knot_text.specs.WrittenThere.{cocycle_lines, value_lines, value_tokens};
ghost use Rattle.evidence_core.specs.declared.evidence.Evidence.TheVariants.{Numbers, Linking};
ghost use Rattle.certificates.specs.Printed.{perhaps_cocycle, counted_lines, linked_lines, evidence_lines, third_text};

use crate::lines::push_labelled_line;
use crate::shadows::push_shadow;
use arrayvec::ArrayVec;
use cocycle_core::Values;
use knot_text::push_large;
use number_text::{Block, Counted, Evidence, LargeWeighing, Linked, THIRD_VERSION};
use quandle_core::MAX_LARGE_ORDER;
use std::alloc::{AllocError, Global};
use text_lines::{push_counted, push_number, push_number_line, push_word_line};

/// The text of evidence by numbers, after the line `certificate 3`.
pub fn print_evidence(alloc: Global, evidence: &Evidence) -> Result<Vec<u8>, AllocError>
    ensures { IfOk result (λ v. v.items ≡ third_text evidence.now) }
{
    let mut out = Vec::new(alloc);
    push_counted(&mut out, b"certificate ", u64::from(THIRD_VERSION))?;
    push_evidence(&mut out, evidence)?;
    Ok(out)
}

/// Appends evidence.
fn push_evidence(out: &mut Vec<u8>, evidence: &Evidence) -> Result<(), AllocError>
    ensures { OnOk result (out.new.items ≡ out.old.items ++ lines_text (evidence_lines evidence.now)) }
{
    match evidence {
        Evidence::Numbers {
            block,
            first,
            second,
        } => push_numbers(out, block, first, second),
        Evidence::Linking { first, second } => push_linking(out, first, second),
    }
}

/// Appends a block, and the seeds and numbers of two diagrams.
fn push_numbers(
    out: &mut Vec<u8>,
    block: &Block,
    first: &Counted,
    second: &Counted,
) -> Result<(), AllocError>
    ensures { OnOk result (out.new.items ≡ out.old.items ++ lines_text (evidence_lines (Numbers block.now first.now second.now))) }
{
    push_large(out, b"different numbers", &block.listed)?;
    push_perhaps(out, &block.cocycle)?;
    push_counts(out, first)?;
    push_counts(out, second)
}

/// Appends the components and linking numbers of two links.
fn push_linking(out: &mut Vec<u8>, first: &Linked, second: &Linked) -> Result<(), AllocError>
    ensures { OnOk result (out.new.items ≡ out.old.items ++ lines_text (evidence_lines (Linking first.now second.now))) }
{
    out.extend_from_slice(b"different linking\n")?;
    push_linked(out, first)?;
    push_linked(out, second)
}

/// Appends a cocycle, if there is one.
fn push_perhaps(out: &mut Vec<u8>, cocycle: &Option<LargeWeighing>) -> Result<(), AllocError>
    ensures { OnOk result (out.new.items ≡ out.old.items ++ lines_text (perhaps_cocycle cocycle.now)) }
{
    match cocycle {
        None => Ok(()),
        Some(LargeWeighing::Strands(cocycle)) => push_cocycle(out, &cocycle.values()),
        Some(LargeWeighing::Regions(shadow)) => push_shadow(out, shadow),
    }
}

/// Appends the modulus of a cocycle, and its table.
fn push_cocycle(out: &mut Vec<u8>, cocycle: &Values) -> Result<(), AllocError>
    ensures { OnOk result (out.new.items ≡ out.old.items ++ lines_text (cocycle_lines cocycle.now)) }
{
    push_counted(out, b"weight ", u64::from(cocycle.modulus()))?;
    push_values(out, cocycle)
}

/// Appends a line for each colour.
fn push_values(out: &mut Vec<u8>, cocycle: &Values) -> Result<(), AllocError>
    ensures { OnOk result (out.new.items ≡ out.old.items ++ lines_text (value_lines cocycle.now)) }
{
    let _modulus = cocycle.modulus();
    for x in 0..cocycle.quandle().order() {
        push_number_line(out, values_of(cocycle, x).as_slice())?;
    }
    Ok(())
}

/// The values of a colour with each colour.
fn values_of(cocycle: &Values, x: u8) -> ArrayVec<u8, MAX_LARGE_ORDER>
    requires { x < cocycle.now.quandle.order }
    ensures { result.items ≡ map (value cocycle.now x) (range_with_len 0 cocycle.now.quandle.order) }
{
    let mut row = ArrayVec::new();
    for y in 0..cocycle.quandle().order() {
        row.push(cocycle.value(x, y));
    }
    row
}

/// Appends the seeds of a diagram, and its numbers.
fn push_counts(out: &mut Vec<u8>, counted: &Counted) -> Result<(), AllocError>
    ensures { OnOk result (out.new.items ≡ out.old.items ++ lines_text (counted_lines counted.now)) }
{
    push_word_line(out, b"seeds", counted.seeds.as_slice())?;
    push_labelled_line(out, b"numbers", counted.numbers.as_slice())
}

/// Appends how many components a link has, and its linking numbers.
fn push_linked(out: &mut Vec<u8>, linked: &Linked) -> Result<(), AllocError>
    ensures { OnOk result (out.new.items ≡ out.old.items ++ lines_text (linked_lines linked.now)) }
{
    push_counted(out, b"components ", u64::from(linked.components))?;
    out.extend_from_slice(b"numbers")?;
    push_letters(out, linked.numbers.as_slice())?;
    out.extend_from_slice(b"\n")
}

/// Appends numbers that may be negative, each after a space.
fn push_letters(out: &mut Vec<u8>, letters: &[i64]) -> Result<(), AllocError>
    ensures { OnOk result (out.new.items ≡ out.old.items ++ flat_map spaced (map letter_token letters.now)) }
{
    for letter in letters {
        push_letter(out, *letter)?;
    }
    Ok(())
}

/// Appends a number that may be negative, after a space.
fn push_letter(out: &mut Vec<u8>, letter: i64) -> Result<(), AllocError>
    ensures { OnOk result (out.new.items ≡ out.old.items ++ spaced (letter_token letter)) }
{
    out.extend_from_slice(ahead_of(letter))?;
    push_number(out, letter.unsigned_abs())
}

/// What comes before a number: a space, and its sign.
fn ahead_of(letter: i64) -> &'static [u8]
    ensures { spaced (letter_token letter) ≡ result.now ++ decimal (unsigned_abs letter) }
{
    if letter < 0 { b" -" } else { b" " }
}
