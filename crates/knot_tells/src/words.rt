//! Why words ask for no job.

use crate::jobs::nearest;
use knot_words::{WordsFault, read_words};
use std::alloc::{AllocError, Global};
use std::fs::Files;
use std::{fmt, fs};

/// An option, and which whole numbers it takes.
#[derive(Clone, Copy, PartialEq, Eq)]
pub struct Knob {
    pub name: &'static str,
    pub least: &'static str,
    pub most: &'static str,
}

impl fmt::Display for Knob {
    fn fmt<W: fmt::Write>(&self, f: &mut fmt::Formatter<W>) -> fmt::Result {
        let Knob { name, least, most } = *self;
        write!(f, "{name} takes a whole number from {least} to {most}")
    }
}

const KNOBS: [Knob; 4] = [
    Knob {
        name: "--workers",
        least: "1",
        most: "64",
    },
    Knob {
        name: "--budget",
        least: "2",
        most: "500,000",
    },
    Knob {
        name: "--spare",
        least: "0",
        most: "4",
    },
    Knob {
        name: "--seed",
        least: "0",
        most: "18,446,744,073,709,551,615",
    },
];

/// Why words ask for no job.
#[derive(Clone, Copy, PartialEq, Eq)]
pub enum BadWords<'a> {
    /// There is none.
    NoJob,
    /// A word names none, but is perhaps near the name of one.
    OtherJob {
        word: &'a str,
        nearest: Option<&'static str>,
    },
    /// A file follows the job.
    File {
        job: &'a str,
        file: &'a str,
    },
    /// There are two.
    TwoJobs {
        first: &'a str,
        second: &'a str,
    },
    /// A value is out of bounds, or no whole number.
    Value {
        knob: Knob,
        value: &'a str,
    },
    /// An option has no value.
    NoValue {
        knob: Knob,
    },
    /// An option is given twice.
    Twice {
        knob: Knob,
    },
    /// A word is no option.
    NoOption {
        word: &'a str,
    },
    /// Help is asked for.
    Help,
    /// No cause was found.
    Other,
}

/// What was read of the words.
#[derive(Drop)]
struct Reader<'a> {
    /// The words that are no options.
    jobs: Vec<&'a str>,
    /// The options that were seen.
    seen: Vec<Knob>,
    /// Whether a word `--` was seen.
    is_over: bool,
    /// The option whose value is due.
    due: Option<Knob>,
}

/// Why words ask for no job, where they don't. Each cause is tried by words of its own, so that none is reported that isn't one.
pub(crate) fn bad_words<'a>(
    files: &impl Files,
    alloc: Global,
    words: &'a [String],
) -> Result<BadWords<'a>, AllocError> {
    let mut reader = Reader {
        jobs: Vec::new(alloc),
        seen: Vec::new(alloc),
        is_over: false,
        due: None,
    };
    for word in words.iter().skip(1) {
        if let Some(bad) = reader.take(alloc, word.as_str())? {
            return Ok(bad);
        }
    }
    if let Some(knob) = reader.due {
        return Ok(BadWords::NoValue { knob });
    }
    jobs_fault(files, alloc, reader.jobs.as_slice())
}

impl<'a> Reader<'a> {
    /// Takes a word: why it is bad, if it is.
    fn take(&mut self, alloc: Global, word: &'a str) -> Result<Option<BadWords<'a>>, AllocError> {
        if let Some(knob) = self.due.take() {
            if is_below_zero(word) {
                return Ok(Some(BadWords::Value { knob, value: word }));
            }
            if word.starts_with("-") {
                return Ok(Some(BadWords::NoValue { knob }));
            }
            return self.value_fault(alloc, knob, word);
        }
        if self.is_over || !word.starts_with("-") || word == "-" {
            self.jobs.push(word)?;
            return Ok(None);
        }
        if word == "--" {
            self.is_over = true;
            return Ok(None);
        }
        self.option_fault(alloc, word)
    }

    /// Takes an option: why it is bad, if it is.
    fn option_fault(
        &mut self,
        alloc: Global,
        word: &'a str,
    ) -> Result<Option<BadWords<'a>>, AllocError> {
        let (name, value) = match word.split_once("=") {
            Some((name, value)) => (name, Some(value)),
            None => (word, None),
        };
        let Some(knob) = knob_named(name) else {
            return Ok(Some(match word {
                "--help" | "-h" => BadWords::Help,
                _ => BadWords::NoOption { word },
            }));
        };
        if self.seen.contains(&knob) {
            return Ok(Some(BadWords::Twice { knob }));
        }
        self.seen.push(knob)?;
        match value {
            Some(value) => self.value_fault(alloc, knob, value),
            None => {
                self.due = Some(knob);
                Ok(None)
            }
        }
    }

    /// Why a value is bad, if it is.
    fn value_fault(
        &self,
        alloc: Global,
        knob: Knob,
        value: &'a str,
    ) -> Result<Option<BadWords<'a>>, AllocError> {
        let name = knob.name;
        let word = format!(in alloc; "{name}={value}")?;
        if is_refused(alloc, &["knot", "sample", word.as_str()])? {
            Ok(Some(BadWords::Value { knob, value }))
        } else {
            Ok(None)
        }
    }
}

/// Whether a word is a minus and a digit, and perhaps more: no option, and no value, since this has no minus where it is a word of its own.
fn is_below_zero(word: &str) -> bool {
    match word.as_bytes() {
        [b'-', digit, ..] => digit.is_ascii_digit(),
        _ => false,
    }
}

/// The option of this name.
fn knob_named(name: &str) -> Option<Knob> {
    for knob in KNOBS {
        if knob.name == name {
            return Some(knob);
        }
    }
    None
}

/// Why the words that are no options are no job.
fn jobs_fault<'a>(
    files: &impl Files,
    alloc: Global,
    jobs: &[&'a str],
) -> Result<BadWords<'a>, AllocError> {
    let Some(first) = jobs.first().copied() else {
        return Ok(BadWords::NoJob);
    };
    if is_refused(alloc, &["knot", "--", first])? {
        return Ok(BadWords::OtherJob {
            word: first,
            nearest: nearest(first),
        });
    }
    Ok(match jobs.get(1).copied() {
        Some(file) if is_file(files, file) => BadWords::File { job: first, file },
        Some(second) => BadWords::TwoJobs { first, second },
        None => BadWords::Other,
    })
}

/// Whether there is a file of this name.
fn is_file(files: &impl Files, name: &str) -> bool {
    match fs::exists(files, name) {
        Ok(is_there) => is_there,
        Err(_) => false,
    }
}

/// Whether words are refused for what they say.
fn is_refused(alloc: Global, words: &[&str]) -> Result<bool, AllocError> {
    let mut list = Vec::new(alloc);
    for word in words {
        list.push(String::from_str(alloc, word)?)?;
    }
    match read_words(alloc, list.as_slice()) {
        Ok(_) => Ok(false),
        Err(WordsFault::Usage) => Ok(true),
        Err(WordsFault::OutOfMemory) => Err(AllocError),
    }
}
