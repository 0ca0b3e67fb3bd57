//! The action of a grid's word on a tuple of colours.
ghost use Rattle.std.specs.Prelude.{◌≡◌};
ghost use Rattle.braid_core.specs.Action.{IsTuple, action};

use crate::word::GridWord;
use braid_core::act_letters;
use quandle_core::Quandle;

/// Changes the colours as the word acts on them, by its letters from first to last.
///
/// Letter `+k` takes `(x_k, x_{k+1})` to `(x_{k+1} ▷ x_k, x_k)`, and letter `-k` takes it to `(x_{k+1}, x_k ◁ x_{k+1})`.
/// There must be a colour below the order for each strand, position 1 first. Takes no memory.
pub fn act_word(word: &GridWord, quandle: &Quandle, colours: &mut [u8])
    requires { IsTuple quandle.now word.now.strands colours.old }
    ensures action { colours.new ≡ action quandle.now word.now.letters colours.old }
    ensures tuple { IsTuple quandle.now word.now.strands colours.new }
{
    act_letters(word.letters(), quandle, colours);
}
