//! The first line and the first token of some bytes.
ghost use Rattle.std.specs.Prelude.{◌≡◌, ◌≤◌, ◌<◌, position, drop, length};
ghost use Rattle.std.specs.List.{position_or_len};
ghost use Rattle.text_lines.specs.Tokens.{is_blank};
ghost use Rattle.text_lines.specs.Lines.{trimmed, is_skipped};
ghost use Rattle.text_lines.specs.Cut.{is_feed, first_line, behind_line, after_blanks, first_token, behind_token};

use memchr::memchr;

/// Whether a byte is a space or a tab.
fn is_blank(byte: u8) -> bool
    ensures { result ≡ is_blank byte }
{
    byte == b' ' || byte == b'\t'
}

/// The place of the first line feed.
fn feed_place(bytes: &[u8]) -> Option<usize>
    ensures { result ≡ position is_feed bytes.now }
{
    memchr(b'\n', bytes)
}

/// The place of the first blank.
fn blank_place(bytes: &[u8]) -> Option<usize>
    ensures { result ≡ position is_blank bytes.now }
{
    bytes
        .iter()
        .position(|byte| *byte == b' ' || *byte == b'\t')
}

/// How many bytes are before the first line feed.
fn line_len(bytes: &[u8]) -> usize
    ensures len { result ≡ position_or_len is_feed bytes.now }
    ensures within { result ≤ length bytes.now }
{
    match feed_place(bytes) {
        Some(at) => at,
        None => bytes.len(),
    }
}

/// How many bytes are before the first blank.
fn token_len(bytes: &[u8]) -> usize
    ensures len { result ≡ position_or_len is_blank bytes.now }
    ensures within { result ≤ length bytes.now }
{
    match blank_place(bytes) {
        Some(at) => at,
        None => bytes.len(),
    }
}

/// All bytes but the first.
fn behind_first(bytes: &[u8]) -> &[u8]
    ensures { result.now ≡ drop 1 bytes.now }
{
    match bytes {
        [] => bytes,
        [_, rest @ ..] => rest,
    }
}

/// The first line without its line feed, and the bytes after it.
pub(crate) fn cut_line(bytes: &[u8]) -> (&[u8], &[u8])
    ensures line { result.0.now ≡ first_line bytes.now }
    ensures rest { result.1.now ≡ behind_line bytes.now }
{
    let (line, rest) = bytes.split_at(line_len(bytes));
    (line, behind_first(rest))
}

/// The first token of bytes that begin with it, and the bytes after it.
pub(crate) fn cut_token(bytes: &[u8]) -> (&[u8], &[u8])
    ensures token { result.0.now ≡ first_token bytes.now }
    ensures rest { result.1.now ≡ behind_token bytes.now }
{
    bytes.split_at(token_len(bytes))
}

/// The line without the carriage return that may be at its end.
pub(crate) fn trimmed(line: &[u8]) -> &[u8]
    ensures { result.now ≡ trimmed line.now }
{
    let size = line.len();
    if size > 0 && line[size - 1] == b'\r' {
        line.split_at(size - 1).0
    } else {
        line
    }
}

/// The bytes from the first one that is not blank.
pub(crate) fn after_blanks(line: &[u8]) -> &[u8]
    ensures { result.now ≡ after_blanks line.now }
{
    let mut rest = line;
    while let [first, after @ ..] = rest {
        if !is_blank(*first) {
            break;
        }
        rest = after;
    }
    rest
}

/// Whether a line has no token, or its first one begins with a #.
pub(crate) fn is_skipped(line: &[u8]) -> bool
    ensures { result ≡ is_skipped line.now }
{
    match after_blanks(line) {
        [] => true,
        [first, ..] => *first == b'#',
    }
}
