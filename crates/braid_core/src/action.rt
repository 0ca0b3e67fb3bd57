//! The action of a braid, and of its letters, on a tuple of colours.
ghost use Rattle.std.specs.Prelude.{◌≡◌, ◌<◌, length};
ghost use Rattle.std.specs.List.{All};
ghost use Rattle.braid_core.specs.Braid.{IsLetter};
ghost use Rattle.braid_core.specs.Action.{IsTuple, letter_action, action};

use crate::braid::Braid;
use quandle_core::Quandle;

/// Changes the colours as the braid acts on them, by its letters from first to last.
///
/// There must be a colour below the order for each strand, position 1 first. Takes no memory.
pub fn act(braid: &Braid, quandle: &Quandle, colours: &mut [u8])
    requires { IsTuple quandle.now braid.now.strands colours.old }
    ensures action { colours.new ≡ action quandle.now braid.now.letters colours.old }
    ensures tuple { IsTuple quandle.now braid.now.strands colours.new }
{
    let _strands = braid.strands();
    act_letters(braid.letters(), quandle, colours);
}

/// Changes the colours as these letters act on them, from first to last. Any number of letters and of strands will do.
///
/// There must be a colour below the order for each strand, position 1 first, and each letter must be one for that many strands. Takes no memory.
pub fn act_letters(letters: &[i8], quandle: &Quandle, colours: &mut [u8])
    requires letters { All (IsLetter (length colours.old)) letters.now }
    requires colours { All (λ y. y < quandle.now.order) colours.old }
    ensures action { colours.new ≡ action quandle.now letters.now colours.old }
    ensures tuple { IsTuple quandle.now (length colours.old) colours.new }
{
    for place in 0..letters.len() {
        act_letter(letters[place], quandle, colours);
    }
}

/// Changes the colours as one letter acts on them.
///
/// Letter `+k` takes `(x_k, x_{k+1})` to `(x_{k+1} ▷ x_k, x_k)`, and letter `-k` takes it to `(x_{k+1}, x_k ◁ x_{k+1})`; all other colours stay.
/// There must be a colour below the order for each strand, position 1 first, and k must be from 1 to one less than the number of strands. Takes no memory.
pub fn act_letter(letter: i8, quandle: &Quandle, colours: &mut [u8])
    requires letter { IsLetter (length colours.old) letter }
    requires colours { All (λ y. y < quandle.now.order) colours.old }
    ensures action { colours.new ≡ letter_action quandle.now colours.old letter }
    ensures tuple { IsTuple quandle.now (length colours.old) colours.new }
{
    let _order = quandle.order();
    let k = letter.unsigned_abs() as usize;
    let left = colours[k - 1];
    let right = colours[k];
    if letter > 0 {
        colours[k - 1] = quandle.over(right, left);
        colours[k] = left;
    } else {
        colours[k - 1] = right;
        colours[k] = quandle.back(left, right);
    }
}
