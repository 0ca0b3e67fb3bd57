//! The words of a command line, read by `clap`.
ghost use Rattle.std.specs.Prelude.{◌≡◌, ◌≢◌, false, true, Option, Some, is_some, IfOk, IfSome, IsNone, OnOk, IsErrOf, codes};
ghost use Rattle.clap.specs.Simple.{app_of, matches_of};
ghost use Rattle.clap.specs.Matches.{found_of};
ghost use Rattle.clap.specs.Walk.{rows_of, rule_of};
ghost use Rattle.knot_words.specs.OptionNumbers.{number_rule, workers_rule, seed_rule, texts_of};
ghost use Rattle.knot_words.specs.Words.{job_rule, budget_rule, spare_rule, knot_app, AreTaken, Asks, AsksNothing, IsWithinBounds, plain_word, job_word};
ghost use Rattle.knot_words.specs.Matched.{AreMatchesBy, HasText, IsReadAs};

use crate::job::{Job, PlainJob};
use clap::builder::ValueParser;
use clap::error::ErrorKind;
use clap::{Arg, ArgAction, ArgMatches, Command};
use std::alloc::{AllocError, Global};
use std::str::FromStr;

/// A job and its options.
#[derive(Clone, Copy, PartialEq, Eq)]
pub struct Asked {
    pub job: Job,
    /// How many workers search, 1 to 64.
    pub workers: u32,
    /// How many diagrams the search may admit, and how many members a listing of `simplify` or `least` may have, 2 to `MAX_BUDGET`.
    pub budget: u32,
    /// How much the search may grow beyond the larger diagram, 0 to 4.
    pub spare: u8,
    /// What a sample walk begins with.
    pub seed: u64,
}

/// The most that `--budget` takes. A search book may have as many entries, which is a law of search_jobs.
pub const MAX_BUDGET: u32 = 500_000;

/// Why words are not taken.
#[derive(Clone, Copy, PartialEq, Eq)]
pub enum WordsFault {
    /// `clap` refuses them for another cause than memory, or they name none of the jobs.
    Usage,
    /// There was no memory left.
    OutOfMemory,
}

/// The one job.
fn job_arg<'a>(alloc: Global) -> Arg<'a>
    ensures rule { rule_of result ≡ job_rule }
    ensures local { result.global ≡ false }
{
    Arg::new(alloc, "job").required(true).action(ArgAction::Set)
}

/// An option with a whole number: its parser and its default.
fn number_arg<'a>(
    alloc: Global,
    name: &'a str,
    parser: ValueParser<'a>,
    default: &'a str,
) -> Arg<'a>
    ensures rule { rule_of result ≡ number_rule name.entry.now parser.entry default.entry.now }
    ensures local { result.global ≡ false }
{
    Arg::new(alloc, name)
        .long(name)
        .action(ArgAction::Set)
        .value_parser(parser)
        .default_value(default)
}

/// How many workers.
fn workers_arg<'a>(alloc: Global) -> Arg<'a>
    ensures rule { rule_of result ≡ workers_rule }
    ensures local { result.global ≡ false }
{
    let parser = clap::value_parser!(u32).range(1..=64);
    number_arg(alloc, "workers", parser, "1")
}

/// `MAX_BUDGET`, as `clap` takes the bounds of numbers.
const MOST_ENTRIES: i64 = MAX_BUDGET as i64;

/// How many entries.
fn budget_arg<'a>(alloc: Global) -> Arg<'a>
    ensures rule { rule_of result ≡ budget_rule }
    ensures local { result.global ≡ false }
{
    let parser = clap::value_parser!(u32).range(2..=MOST_ENTRIES);
    number_arg(alloc, "budget", parser, "20000")
}

/// How much larger.
fn spare_arg<'a>(alloc: Global) -> Arg<'a>
    ensures rule { rule_of result ≡ spare_rule }
    ensures local { result.global ≡ false }
{
    let parser = clap::value_parser!(u8).range(0..=4);
    number_arg(alloc, "spare", parser, "1")
}

/// The seed of a walk.
fn seed_arg<'a>(alloc: Global) -> Arg<'a>
    ensures rule { rule_of result ≡ seed_rule }
    ensures local { result.global ≡ false }
{
    number_arg(alloc, "seed", clap::value_parser!(u64), "1")
}

/// The simple command: one job and four options with whole numbers.
fn command<'a>(alloc: Global) -> Result<Command<'a>, AllocError>
    ensures { IfOk result (λ c. app_of c ≡ knot_app) }
{
    Command::new(alloc, "knot")
        .arg(job_arg(alloc))?
        .arg(workers_arg(alloc))?
        .arg(budget_arg(alloc))?
        .arg(spare_arg(alloc))?
        .arg(seed_arg(alloc))
}

/// The matches of the words. `Usage` comes only where `clap` refuses them for another cause than memory.
fn parse<'a>(alloc: Global, words: &'a [String]) -> Result<ArgMatches<'a>, WordsFault>
    ensures usage { IsErrOf result WordsFault.Usage → AreTaken (texts_of words.entry.now) → ⊥ }
    ensures taken { OnOk result (AreTaken (texts_of words.entry.now)) }
    ensures rows { IfOk result (λ m. rows_of (found_of m) ≡ matches_of knot_app (texts_of words.entry.now)) }
    ensures matches { IfOk result (λ m. AreMatchesBy knot_app m) }
{
    let Ok(command) = command(alloc) else {
        return Err(WordsFault::OutOfMemory);
    };
    match command.try_get_matches_from(words) {
        Ok(matches) => Ok(matches),
        Err(error) => Err(fault_by(error.kind())),
    }
}

/// The fault of a kind of error.
fn fault_by(kind: ErrorKind) -> WordsFault
    ensures { result ≡ WordsFault.Usage → kind ≡ ErrorKind.OutOfMemory → ⊥ }
{
    if kind == ErrorKind::OutOfMemory {
        WordsFault::OutOfMemory
    } else {
        WordsFault::Usage
    }
}

/// The word for the job.
fn job_text<'a>(matches: &ArgMatches<'a>) -> &'a str
    requires { AreMatchesBy knot_app matches.now }
    ensures { HasText matches.now (codes "job") result.now }
{
    match matches.get_str("job") {
        Some(word) => word,
        None => unreachable!(),
    }
}

/// The job that is called so.
fn job_named(word: &str) -> Option<Job>
    ensures some { IfSome result (λ job. word.now ≡ job_word job) }
    ensures none { IsNone result → (job : _) → word.now ≢ job_word job }
{
    match word {
        "decide" => Some(Job::Decide),
        "simplify" => Some(Job::Simplify),
        "least" => Some(Job::Least),
        "sample" => Some(Job::Sample),
        _ => Some(Job::Plain(plain_job_named(word)?)),
    }
}

/// The plain job that is called so.
fn plain_job_named(word: &str) -> Option<PlainJob>
    ensures some { IfSome result (λ job. word.now ≡ plain_word job) }
    ensures none { IsNone result → (job : _) → word.now ≢ plain_word job }
{
    match word {
        "check" => Some(PlainJob::Check),
        "replay" => Some(PlainJob::Replay),
        "colour" => Some(PlainJob::Colour),
        "close" => Some(PlainJob::Close),
        "code" => Some(PlainJob::Code),
        "braid" => Some(PlainJob::Braid),
        "linking" => Some(PlainJob::Linking),
        "braidcheck" => Some(PlainJob::Braidcheck),
        "weights" => Some(PlainJob::Weights),
        "numbers" => Some(PlainJob::Numbers),
        "grid" => Some(PlainJob::Grid),
        _ => None,
    }
}

/// The number of an option: it is there and can be read, as every option has a default and a parser.
fn number_given<T: FromStr>(matches: &ArgMatches, name: &str) -> T
where
    T::Err: Drop,
    requires { (r : Option T) → IsReadAs T.from_str_gives matches.now name.now r → is_some r ≡ true }
    ensures { IsReadAs T.from_str_gives matches.now name.now (Some result) }
{
    match matches.get_one::<T>(name) {
        Some(number) => number,
        None => unreachable!(),
    }
}

/// What the words ask for: a job and its options. `words[0]` is the program's name, whatever it is.
/// `Usage` comes where `clap` refuses the words for another cause than memory, a request for help among them, or where
/// they name none of the jobs, and nowhere else. When `OutOfMemory` comes is not proved: it may come for any words.
pub fn read_words(alloc: Global, words: &[String]) -> Result<Asked, WordsFault>
    ensures asked { IfOk result (λ asked. Asks (texts_of words.now) asked) }
    ensures bounds { IfOk result IsWithinBounds }
    ensures usage { IsErrOf result WordsFault.Usage → AsksNothing (texts_of words.now) }
{
    let matches = parse(alloc, words)?;
    let Some(job) = job_named(job_text(&matches)) else {
        return Err(WordsFault::Usage);
    };
    Ok(Asked {
        job,
        workers: number_given(&matches, "workers"),
        budget: number_given(&matches, "budget"),
        spare: number_given(&matches, "spare"),
        seed: number_given(&matches, "seed"),
    })
}
