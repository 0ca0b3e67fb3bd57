//! A line, token by token.
ghost use Rattle.std.specs.Prelude.{◌≡◌, [], ◌∷◌, IfSome, IfNone};
ghost use Rattle.text_lines.specs.Tokens.{tokens_of};
ghost use Rattle.text_lines.specs.Lines.{starts};

use crate::cutting::{after_blanks, cut_token};
use std::marker::Model;

/// A line that says something, which contracts see as its number and the tokens that are left of it.
///
/// Lines are counted from 1, those too that are passed over. A token is a run of bytes without a space or a tab.
#[derive(Drop)]
pub struct Line<'a> {
    number: usize,
    rest: &'a [u8],
}

impl<'a> Model for Line<'a> {
    ghost use Rattle.text_lines.specs.Tokens.{tokens_of};
    ghost use Rattle.text_lines.specs.Lines.{NumberedLine};

    ghost Value = { NumberedLine };

    ghost view = { λ l. record { number = l.number; tokens = tokens_of l.rest.now } };
}

impl<'a> Line<'a> {
    /// The line of these bytes.
    pub(crate) fn new(number: usize, bytes: &'a [u8]) -> Line<'a>
        ensures { result ≡ record { number = number; tokens = tokens_of bytes.now } }
    {
        Line {
            number,
            rest: bytes,
        }
    }

    /// The number of the line in its text, from 1.
    pub fn number(&self) -> usize
        ensures { result ≡ self.now.number }
    {
        self.number
    }

    /// The next token, or `None` where none is left. Takes no memory.
    pub fn next_token(&mut self) -> Option<&'a [u8]>
        ensures token { IfSome result (λ t. self.old ≡ record { number = self.new.number; tokens = t.now ∷ self.new.tokens }) }
        ensures none { IfNone result (self.old.tokens ≡ []) }
        ensures kept { IfNone result (self.new ≡ self.old) }
    {
        let bytes = after_blanks(self.rest);
        if bytes.is_empty() {
            return None;
        }
        let (token, rest) = cut_token(bytes);
        self.rest = rest;
        Some(token)
    }

    /// Whether the first token that is left is this word.
    pub fn starts(&self, word: &[u8]) -> bool
        ensures { result ≡ starts word.now self.now.tokens }
    {
        let bytes = after_blanks(self.rest);
        if bytes.is_empty() {
            return false;
        }
        cut_token(bytes).0 == word
    }
}
