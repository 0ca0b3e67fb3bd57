//! A text, line by line.
ghost use Rattle.std.specs.Prelude.{◌≡◌, [], ◌∷◌, IfSome, IfNone};
ghost use Rattle.text_lines.specs.Lines.{text_of, begins};

use crate::cutting::{cut_line, is_skipped, trimmed};
use crate::line::Line;
use std::marker::Model;

/// The lines that are left of a text, which contracts see as a `Text`: its numbered lines, and where it ends.
///
/// Lines are cut at line feeds, the last of which may be missing. One carriage return at the end of a line is dropped.
/// A line of nothing but spaces and tabs, and one whose first other byte is a `#`, is counted and passed over.
#[derive(Drop)]
pub struct Lines<'a> {
    rest: &'a [u8],
    count: usize,
}

impl<'a> Model for Lines<'a> {
    ghost use Rattle.std.specs.Prelude.{◌+◌, ◌<◌, ◌^◌, length};
    ghost use Rattle.text_lines.specs.Lines.{Text, text_from};

    ghost Value = { Text };

    ghost view = { λ l. text_from l.count l.rest.now };

    ghost invariant = { λ l. l.count + length l.rest.now < 2 ^ 63 };
}

impl<'a> Lines<'a> {
    /// All lines of a text. Takes no memory.
    pub fn new(bytes: &'a [u8]) -> Lines<'a>
        ensures { result ≡ text_of bytes.now }
    {
        Lines {
            rest: bytes,
            count: 0,
        }
    }

    /// The next line that is not passed over, or `None` where none is left.
    pub fn next_line(&mut self) -> Option<Line<'a>>
        ensures line { IfSome result (λ l. self.old.lines ≡ l ∷ self.new.lines) }
        ensures none { IfNone result (self.old.lines ≡ []) }
        ensures kept { IfNone result (self.new ≡ self.old) }
        ensures ending { self.new.ending ≡ self.old.ending }
    {
        while !self.rest.is_empty() {
            let (line, rest) = cut_line(self.rest);
            self.rest = rest;
            self.count += 1;
            let line = trimmed(line);
            if !is_skipped(line) {
                return Some(Line::new(self.count, line));
            }
        }
        None
    }

    /// Whether there is a next line, and its first token is this word. The line stays the next one.
    pub fn begins(&self, word: &[u8]) -> bool
        ensures { result ≡ begins word.now self.now }
    {
        let mut ahead = self.again();
        match ahead.next_line() {
            Some(line) => line.starts(word),
            None => false,
        }
    }

    /// The number of all lines of the text plus one: the line at which something is missing where the text ends.
    pub fn ending(&self) -> usize
        ensures { result ≡ self.now.ending }
    {
        let mut rest = self.rest;
        let mut count = self.count;
        while !rest.is_empty() {
            rest = cut_line(rest).1;
            count += 1;
        }
        count + 1
    }

    /// The same lines again, to look ahead. Takes no memory.
    pub fn again(&self) -> Lines<'a>
        ensures { result ≡ self.now }
    {
        Lines {
            rest: self.rest,
            count: self.count,
        }
    }
}
