//! The names of the jobs, and which of them a word is near.
ghost use Rattle.std.specs.Prelude.{◌≤◌, length};

use std::fmt;

/// The names, in the order in which they are listed.
const NAMES: [&str; 15] = [
    "decide",
    "check",
    "replay",
    "colour",
    "close",
    "code",
    "braid",
    "linking",
    "braidcheck",
    "weights",
    "numbers",
    "simplify",
    "least",
    "grid",
    "sample",
];

/// All names, as a list in a sentence.
#[derive(Clone, Copy)]
pub(crate) struct Jobs;

impl fmt::Display for Jobs {
    fn fmt<W: fmt::Write>(&self, f: &mut fmt::Formatter<W>) -> fmt::Result {
        for at in 0..NAMES.len() {
            f.write_str(if at == 0 {
                ""
            } else if at + 1 < NAMES.len() {
                ", "
            } else {
                " and "
            })?;
            f.write_str(NAMES[at])?;
        }
        Ok(())
    }
}

/// The first name that a word is near: in it one letter is another one, missing or too many, or two where three others agree. Small letters
/// and large ones are the same.
pub(crate) fn nearest(word: &str) -> Option<&'static str> {
    for name in NAMES {
        if is_near(word.as_bytes(), name.as_bytes()) {
            return Some(name);
        }
    }
    None
}

/// Whether a word is near a name.
fn is_near(word: &[u8], name: &[u8]) -> bool {
    let front = shared_front(word, name);
    let (_, word_rest) = word.split_at(front);
    let (_, name_rest) = name.split_at(front);
    let back = shared_back(word_rest, name_rest);
    let apart = word_rest.len().max(name_rest.len()).saturating_sub(back);
    apart < 2 || apart == 2 && front.saturating_add(back) > 2
}

/// How many letters two words share at the front.
fn shared_front(first: &[u8], second: &[u8]) -> usize
    ensures first { result ≤ length first.now }
    ensures second { result ≤ length second.now }
{
    let most = first.len().min(second.len());
    for at in 0..most {
        if !first[at].eq_ignore_ascii_case(&second[at]) {
            return at;
        }
    }
    most
}

/// How many letters two words share at the back.
fn shared_back(first: &[u8], second: &[u8]) -> usize
    ensures first { result ≤ length first.now }
    ensures second { result ≤ length second.now }
{
    let most = first.len().min(second.len());
    for at in 0..most {
        let (of_first, of_second) = (first[first.len() - 1 - at], second[second.len() - 1 - at]);
        if !of_first.eq_ignore_ascii_case(&of_second) {
            return at;
        }
    }
    most
}
