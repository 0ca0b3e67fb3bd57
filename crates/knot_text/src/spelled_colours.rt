//! The lines of a list of colourings are spelled. A list has up to 65,536 of them, so each is spelled in place and appended at once.
ghost use Rattle.std.specs.Prelude.{◌≡◌, ◌≤◌, ◌+◌, ◌*◌, ◌++◌, codes, length, map, OnOk, OnErr};
ghost use Rattle.std.specs.List.{flat_map};
ghost use Rattle.std.specs.Fmt.{decimal};
ghost use Rattle.text_lines.specs.Spelled.{spaced, line_bytes, line_text};
ghost use Rattle.text_lines.specs.Appended.{AppendsPart};
ghost use Rattle.knot_text.specs.declared.spelled_colours.TheConstants.{MAX_LINE};

use arrayvec::ArrayVec;
use colour_rows::Colouring;
use grid_core::MAX_SIZE;
use std::alloc::AllocError;

/// The most bytes of a line: at most three digits of each colour with a space, and the line feed.
pub const MAX_LINE: usize = 4 * MAX_SIZE + 1;

/// Appends the line of a colouring: its colours from the left, with one space between them.
/// If memory runs out, a part of it may have been appended.
pub(crate) fn push_colour_line(out: &mut Vec<u8>, colours: &Colouring) -> Result<(), AllocError>
    ensures text { OnOk result (out.new.items ≡ out.old.items ++ line_text (map decimal colours.now.items)) }
    ensures part { OnErr result (AppendsPart out.old.items out.new.items (line_text (map decimal colours.now.items))) }
{
    let mut line = ArrayVec::new();
    spell_all(&mut line, colours.as_slice());
    line.push(b'\n');
    out.extend_from_slice(line.as_slice())
}

/// Spells colours with one space between them.
fn spell_all(line: &mut ArrayVec<u8, MAX_LINE>, colours: &[u8])
    requires room { length line.old.items + 4 * length colours.now ≤ MAX_LINE }
    ensures bytes { line.new.items ≡ line.old.items ++ line_bytes (map decimal colours.now) }
    ensures few { length line.new.items ≤ length line.old.items + 4 * length colours.now }
{
    if let [first, rest @ ..] = colours {
        spell(line, *first);
        spell_behind(line, rest);
    }
}

/// Spells colours, each after a space.
fn spell_behind(line: &mut ArrayVec<u8, MAX_LINE>, colours: &[u8])
    requires room { length line.old.items + 4 * length colours.now ≤ MAX_LINE }
    ensures bytes { line.new.items ≡ line.old.items ++ flat_map (λ n. spaced (decimal n)) colours.now }
    ensures few { length line.new.items ≤ length line.old.items + 4 * length colours.now }
{
    for colour in colours {
        line.push(b' ');
        spell(line, *colour);
    }
}

/// Spells a number in decimal, without leading zeros.
fn spell(line: &mut ArrayVec<u8, MAX_LINE>, number: u8)
    requires room { length line.old.items + 3 ≤ MAX_LINE }
    ensures bytes { line.new.items ≡ line.old.items ++ decimal number }
    ensures few { length line.new.items ≤ length line.old.items + 3 }
{
    if number < 10 {
        line.push(b'0' + number);
    } else if number < 100 {
        line.push(b'0' + number / 10);
        line.push(b'0' + number % 10);
    } else {
        line.push(b'0' + number / 100);
        line.push(b'0' + number / 10 % 10);
        line.push(b'0' + number % 10);
    }
}
