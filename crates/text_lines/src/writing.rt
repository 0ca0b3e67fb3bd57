//! Lines of words and numbers, written at the end of a text.
//! If memory runs out, the first bytes of a line may have been appended, and nothing else.
#![tactic(auto, using(crate::proofs::Parts::part_ahead, crate::proofs::Parts::part_behind, crate::proofs::Parts::last_behind, crate::proofs::Parts::last_bytes, crate::proofs::Parts::on_err))]

ghost use Rattle.std.specs.Prelude.{◌≡◌, ◌++◌, ◌∷◌, codes, map, OnOk, OnErr};
ghost use Rattle.std.specs.List.{flat_map};
ghost use Rattle.std.specs.Fmt.{decimal};
ghost use Rattle.text_lines.specs.Spelled.{spaced, line_bytes, line_text};
ghost use Rattle.text_lines.specs.Appended.{AppendsPart};

use itoa::Buffer;
use std::alloc::AllocError;

/// Appends a number in decimal, without leading zeros. If memory runs out, a part of it may have been appended.
pub fn push_number(out: &mut Vec<u8>, number: u64) -> Result<(), AllocError>
    ensures text { OnOk result (out.new.items ≡ out.old.items ++ decimal number) }
    ensures part { OnErr result (AppendsPart out.old.items out.new.items (decimal number)) }
{
    let mut buffer = Buffer::new();
    out.extend_from_slice(buffer.format(number).as_bytes())
}

/// Appends a number that is mostly a single digit.
fn push_small(out: &mut Vec<u8>, number: u8) -> Result<(), AllocError>
    ensures text { OnOk result (out.new.items ≡ out.old.items ++ decimal number) }
    ensures part { OnErr result (AppendsPart out.old.items out.new.items (decimal number)) }
{
    if number < 10 {
        out.push(b'0' + number)?;
        return Ok(());
    }
    push_number(out, u64::from(number))
}

/// Appends numbers, each after a space.
fn push_spaced(out: &mut Vec<u8>, numbers: &[u8]) -> Result<(), AllocError>
    ensures text { OnOk result (out.new.items ≡ out.old.items ++ flat_map (λ n. spaced (decimal n)) numbers.now) }
    ensures part { OnErr result (AppendsPart out.old.items out.new.items (flat_map (λ n. spaced (decimal n)) numbers.now)) }
{
    for number in numbers {
        out.push(b' ')?;
        push_small(out, *number)?;
    }
    Ok(())
}

/// Appends a line of a word and numbers, with one space between them.
/// If memory runs out, a part of it may have been appended.
pub fn push_word_line(out: &mut Vec<u8>, word: &[u8], numbers: &[u8]) -> Result<(), AllocError>
    ensures text { OnOk result (out.new.items ≡ out.old.items ++ line_text (word.now ∷ map decimal numbers.now)) }
    ensures part { OnErr result (AppendsPart out.old.items out.new.items (line_text (word.now ∷ map decimal numbers.now))) }
{
    out.extend_from_slice(word)?;
    push_spaced(out, numbers)?;
    out.extend_from_slice(b"\n")
}

/// Appends numbers with one space between them.
fn push_numbers(out: &mut Vec<u8>, numbers: &[u8]) -> Result<(), AllocError>
    ensures text { OnOk result (out.new.items ≡ out.old.items ++ line_bytes (map decimal numbers.now)) }
    ensures part { OnErr result (AppendsPart out.old.items out.new.items (line_bytes (map decimal numbers.now))) }
{
    match numbers {
        [] => Ok(()),
        [first, rest @ ..] => {
            push_small(out, *first)?;
            push_spaced(out, rest)
        }
    }
}

/// Appends a line of numbers, with one space between them.
/// If memory runs out, a part of it may have been appended.
pub fn push_number_line(out: &mut Vec<u8>, numbers: &[u8]) -> Result<(), AllocError>
    ensures text { OnOk result (out.new.items ≡ out.old.items ++ line_text (map decimal numbers.now)) }
    ensures part { OnErr result (AppendsPart out.old.items out.new.items (line_text (map decimal numbers.now))) }
{
    push_numbers(out, numbers)?;
    out.extend_from_slice(b"\n")
}

/// Appends words, of which the last ends with a space, and a number that ends the line.
/// If memory runs out, a part of it may have been appended.
pub fn push_counted(out: &mut Vec<u8>, words: &[u8], number: u64) -> Result<(), AllocError>
    ensures text { OnOk result (out.new.items ≡ out.old.items ++ (words.now ++ (decimal number ++ codes "\n"))) }
    ensures part { OnErr result (AppendsPart out.old.items out.new.items (words.now ++ (decimal number ++ codes "\n"))) }
{
    out.extend_from_slice(words)?;
    push_number(out, number)?;
    out.extend_from_slice(b"\n")
}

/// Appends words, of which the last ends with a space, and two numbers that end the line.
/// If memory runs out, a part of it may have been appended.
pub fn push_paired(
    out: &mut Vec<u8>,
    words: &[u8],
    first: u64,
    second: u64,
) -> Result<(), AllocError>
    ensures text { OnOk result (out.new.items ≡ out.old.items ++ (words.now ++ (decimal first ++ (codes " " ++ (decimal second ++ codes "\n"))))) }
    ensures part { OnErr result (AppendsPart out.old.items out.new.items (words.now ++ (decimal first ++ (codes " " ++ (decimal second ++ codes "\n"))))) }
{
    out.extend_from_slice(words)?;
    push_number(out, first)?;
    push_counted(out, b" ", second)
}
