//! Whether a text is one diagram.
ghost use Rattle.std.specs.Prelude.{◌≡◌, ◌≢◌, ℕ, IfSome, IfNone};
ghost use Rattle.text_lines.specs.Lines.{text_of};
ghost use Rattle.seek_faults.specs.Alone.{nothing_more, one_line_more, one_diagram};

use std::fmt;
use text_lines::Lines;

/// Why a text is not one diagram.
#[derive(Clone, Copy, PartialEq, Eq)]
pub enum NotOne {
    /// It has no line but blank ones and comments.
    Nothing,
    /// It ends after the line of the Xs.
    Half,
    /// This line, counted from 1, follows the diagram.
    More { line: usize },
}

impl NotOne {
    /// The line that is one too many.
    pub fn line(self) -> Option<usize>
        ensures some { IfSome result (λ line. self ≡ NotOne.More line) }
        ensures none { IfNone result ((line : ℕ) → self ≢ NotOne.More line) }
    {
        match self {
            NotOne::Nothing | NotOne::Half => None,
            NotOne::More { line } => Some(line),
        }
    }
}

impl fmt::Display for NotOne {
    fn fmt<W: fmt::Write>(&self, f: &mut fmt::Formatter<W>) -> fmt::Result {
        match self {
            NotOne::Nothing => write!(f, "there is no diagram in it"),
            NotOne::Half => write!(f, "it ends before the line `o ..` of its diagram"),
            NotOne::More { .. } => f.write_str(
                "a line too many: where two diagrams are given, each comes alone, and quandles in a file of their own, as `--quandles FILE`",
            ),
        }
    }
}

/// Whether a text is one diagram and no more, by the number of its lines: one line that begins with `braid`, or one that begins with `x` and
/// another. A text that begins with another word is left to `reason_at`, and so is what else is wrong with a line.
pub fn one_diagram(bytes: &[u8]) -> Result<(), NotOne>
    ensures { result ≡ one_diagram (text_of bytes.now).lines }
{
    let mut lines = Lines::new(bytes);
    let Some(first) = lines.next_line() else {
        return Err(NotOne::Nothing);
    };
    if first.starts(b"x") {
        return one_line_more(&mut lines);
    }
    if first.starts(b"braid") {
        return nothing_more(&mut lines);
    }
    Ok(())
}

/// Whether one line is left and no more, after the Xs of a grid.
fn one_line_more(lines: &mut Lines) -> Result<(), NotOne>
    ensures { result ≡ one_line_more lines.old.lines }
{
    match lines.next_line() {
        Some(_) => nothing_more(lines),
        None => Err(NotOne::Half),
    }
}

/// Whether no line is left.
fn nothing_more(lines: &mut Lines) -> Result<(), NotOne>
    ensures { result ≡ nothing_more lines.old.lines }
{
    match lines.next_line() {
        Some(line) => Err(NotOne::More {
            line: line.number(),
        }),
        None => Ok(()),
    }
}
