//! Laws of words, over the definitions alone.
ghost use Rattle.std.specs.Prelude.{List};
ghost use Rattle.clap.specs.Walk.{Text};
ghost use Rattle.seek_words.specs.Words.{AsksOfSeek, AsksNothingOfSeek};

use crate::asked::Asked;

/// No words both ask for something and ask for nothing.
pub fn words_ask_for_something_or_nothing()
    ensures { (words : List Text) (asked : Asked) → AsksOfSeek words asked → AsksNothingOfSeek words → ⊥ }
{}
