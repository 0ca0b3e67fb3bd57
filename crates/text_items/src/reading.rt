//! The steps of reading: the next line, the next token, a word, a number.
ghost use Rattle.std.specs.Prelude.{◌≡◌};
ghost use Rattle.text_items.specs.Reading.{Gives, next_line, next_token, line_end, text_end, word, number, last_number, last_count, at_most};

use crate::fault::TextFault;
use text_lines::{Line, Lines};

/// The greatest number that a text may have, of nine digits: each one above it exceeds a limit.
pub const MAX_NUMBER: u32 = 999_999_999;

/// The greatest number of a move line or a step line.
pub const MAX_PLACE: u32 = u8::MAX as u32;

/// The greatest absolute value of a letter of a step line.
pub const MAX_LETTER: u64 = i8::MAX as u64;

/// The line that is due. `Malformed`, at the line after the text, if there is none.
#[tactic(auto, unfolding(crate::specs::Reading::next_line))]
pub fn next_line<'a>(lines: &mut Lines<'a>) -> Result<Line<'a>, TextFault>
    ensures { Gives (λ l. (l, lines.new)) result (next_line lines.old) }
{
    match lines.next_line() {
        Some(line) => Ok(line),
        None => Err(TextFault::Malformed {
            line: lines.ending(),
        }),
    }
}

/// The end of a text. `Malformed` if a line is left.
#[tactic(auto, unfolding(crate::specs::Reading::text_end))]
pub fn text_end(lines: &mut Lines) -> Result<(), TextFault>
    ensures { Gives (λ _. tt) result (text_end lines.old) }
{
    match lines.next_line() {
        Some(line) => Err(TextFault::Malformed {
            line: line.number(),
        }),
        None => Ok(()),
    }
}

/// The token that is due. `Malformed` if the line ends.
#[tactic(auto, unfolding(crate::specs::Reading::next_token))]
pub fn next_token<'a>(line: &mut Line<'a>) -> Result<&'a [u8], TextFault>
    ensures { Gives (λ t. (t.now, line.new)) result (next_token line.old) }
{
    match line.next_token() {
        Some(token) => Ok(token),
        None => Err(TextFault::Malformed {
            line: line.number(),
        }),
    }
}

/// The end of a line. `Malformed` if a token is left.
#[tactic(auto, unfolding(crate::specs::Reading::line_end))]
pub fn line_end(line: &mut Line) -> Result<(), TextFault>
    ensures { Gives (λ _. line.new) result (line_end line.old) }
{
    match line.next_token() {
        Some(_) => Err(TextFault::Malformed {
            line: line.number(),
        }),
        None => Ok(()),
    }
}

/// The token that is due, which must be this word. Otherwise `Malformed`.
#[tactic(auto, unfolding(crate::specs::Reading::word))]
pub fn word(line: &mut Line, expected: &[u8]) -> Result<(), TextFault>
    ensures { Gives (λ _. line.new) result (word expected.now line.old) }
{
    let number = line.number();
    let token = next_token(line)?;
    if token != expected {
        return Err(TextFault::Malformed { line: number });
    }
    Ok(())
}

/// A number of any size: `OVERLONG` of text_lines if it has too many digits. `Malformed` if no number is next.
#[tactic(auto, unfolding(crate::specs::Reading::number))]
pub fn number(line: &mut Line) -> Result<u32, TextFault>
    ensures { Gives (λ n. (n, line.new)) result (number line.old) }
{
    let number = line.number();
    let token = next_token(line)?;
    match text_lines::number(token) {
        Some(value) => Ok(value),
        None => Err(TextFault::Malformed { line: number }),
    }
}

/// A number of any size, as `number` reads it, and no token after it. Otherwise `Malformed`.
#[tactic(auto, unfolding(crate::specs::Reading::last_number))]
pub fn last_number(line: &mut Line) -> Result<u32, TextFault>
    ensures { Gives (λ n. (n, line.new)) result (last_number line.old) }
{
    let value = number(line)?;
    line_end(line)?;
    Ok(value)
}

/// A number of a line. `Limit` if it is above `most`.
pub fn at_most(most: u32, line: &Line, value: u32) -> Result<u32, TextFault>
    ensures { Gives (λ n. n) result (at_most most line.now.number value) }
{
    if value <= most {
        Ok(value)
    } else {
        Err(TextFault::Limit {
            line: line.number(),
        })
    }
}

/// A place of a move. `Limit` if it is above `MAX_PLACE`.
pub fn place(line: &Line, value: u32) -> Result<u8, TextFault>
    ensures { Gives (λ n. n) result (at_most MAX_PLACE line.now.number value) }
{
    let value = at_most(MAX_PLACE, line, value)?;
    Ok(value as u8)
}

/// A number of lines, which ends its line. `Limit` if it is above `MAX_NUMBER`; `Malformed` if the line has another form.
#[tactic(auto, unfolding(crate::specs::Reading::last_count))]
pub fn last_count(line: &mut Line) -> Result<u32, TextFault>
    ensures { Gives (λ n. n) result (last_count line.old) }
{
    let value = last_number(line)?;
    at_most(MAX_NUMBER, line, value)
}
