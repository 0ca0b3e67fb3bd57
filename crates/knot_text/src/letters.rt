//! Lines of letters are appended: each letter is a number, or a `-` directly in front of one.
ghost use Rattle.std.specs.Prelude.{◌≡◌, ◌++◌, ◌∷◌, map, unsigned_abs, OnOk, OnErr};
ghost use Rattle.std.specs.List.{flat_map};
ghost use Rattle.std.specs.Fmt.{decimal};
ghost use Rattle.text_lines.specs.Spelled.{spaced, line_text};
ghost use Rattle.text_lines.specs.Appended.{AppendsPart};
ghost use Rattle.knot_text.specs.Printed.{letter_token, braid_text};

use std::alloc::AllocError;
use text_lines::push_number;

/// Appends the line of a braid word: `braid`, the number of strands and the letters.
/// If memory runs out, a part of it may have been appended.
pub fn push_braid(out: &mut Vec<u8>, strands: u8, letters: &[i8]) -> Result<(), AllocError>
    ensures text { OnOk result (out.new.items ≡ out.old.items ++ braid_text (record { strands = strands; letters = letters.now })) }
    ensures part { OnErr result (AppendsPart out.old.items out.new.items (braid_text (record { strands = strands; letters = letters.now }))) }
{
    out.extend_from_slice(b"braid ")?;
    push_number(out, u64::from(strands))?;
    push_word_letters(out, letters)?;
    out.extend_from_slice(b"\n")
}

/// Appends a line of a word and letters.
/// If memory runs out, a part of it may have been appended.
pub fn push_letter_line(out: &mut Vec<u8>, word: &[u8], letters: &[i32]) -> Result<(), AllocError>
    ensures text { OnOk result (out.new.items ≡ out.old.items ++ line_text (word.now ∷ map letter_token letters.now)) }
    ensures part { OnErr result (AppendsPart out.old.items out.new.items (line_text (word.now ∷ map letter_token letters.now))) }
{
    out.extend_from_slice(word)?;
    push_letters(out, letters)?;
    out.extend_from_slice(b"\n")
}

/// Appends the letters of a braid word, each after a space.
fn push_word_letters(out: &mut Vec<u8>, letters: &[i8]) -> Result<(), AllocError>
    ensures text { OnOk result (out.new.items ≡ out.old.items ++ flat_map spaced (map letter_token letters.now)) }
    ensures part { OnErr result (AppendsPart out.old.items out.new.items (flat_map spaced (map letter_token letters.now))) }
{
    for letter in letters {
        push_spaced(out, i32::from(*letter))?;
    }
    Ok(())
}

/// Appends letters, each after a space.
fn push_letters(out: &mut Vec<u8>, letters: &[i32]) -> Result<(), AllocError>
    ensures text { OnOk result (out.new.items ≡ out.old.items ++ flat_map spaced (map letter_token letters.now)) }
    ensures part { OnErr result (AppendsPart out.old.items out.new.items (flat_map spaced (map letter_token letters.now))) }
{
    for letter in letters {
        push_spaced(out, *letter)?;
    }
    Ok(())
}

/// Appends a letter after a space.
fn push_spaced(out: &mut Vec<u8>, letter: i32) -> Result<(), AllocError>
    ensures text { OnOk result (out.new.items ≡ out.old.items ++ spaced (letter_token letter)) }
    ensures part { OnErr result (AppendsPart out.old.items out.new.items (spaced (letter_token letter))) }
{
    out.extend_from_slice(ahead_of(letter))?;
    push_number(out, u64::from(letter.unsigned_abs()))
}

/// What stands in front of a letter's number: a space, and its sign.
fn ahead_of(letter: i32) -> &'static [u8]
    ensures { spaced (letter_token letter) ≡ result.now ++ decimal (unsigned_abs letter) }
{
    if letter < 0 { b" -" } else { b" " }
}
