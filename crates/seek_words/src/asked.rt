//! What the words ask for.
ghost use Rattle.std.specs.Prelude.{◌≡◌, ◌≢◌, ◌≤◌, ◌⊎◌, [], map, option_map, unwrap_or, Some, true, false, IfOk, IfErr, OnOk, codes};
ghost use Rattle.clap.specs.Matches.{found_of, one_text};
ghost use Rattle.clap.specs.Simple.{matches_of};
ghost use Rattle.clap.specs.Values.{kind_of};
ghost use Rattle.clap.specs.Walk.{rows_of, all_of};
ghost use Rattle.clap.specs.declared.error.kind.ErrorKind.TheVariants as kind;
ghost use Rattle.seek_words.specs.Matched.{AreGivenNumbers, FindsNumber, FindsNumbers};
ghost use Rattle.knot_words.specs.OptionNumbers.{texts_of};
ghost use Rattle.seek_words.specs.Words.{seek_app, all_named, AreNamedBy, AreWeightsBy, IsTalkBy, AreTakenBySeek, AsksBy, AsksOfSeek, IsHelpOrVersion};
ghost use Rattle.seek_words.specs.Words.{AskForText, file_written};
ghost use Rattle.seek_words.specs.Words.{AreRefused, AsksNothingBy, AsksNothingOfSeek, inputs_read};

use crate::command::{
    NO_WEIGHTS, OUT, PROGRESS, QUANDLES, QUIET, ROOM, SEED, STEPS, WEIGHTS, WORKERS, command,
};
use crate::given::{Diagrams, diagrams_of};
use crate::inputs::reads_input_once;
use clap::error::ErrorKind;
use clap::{ArgMatches, Error};
use std::alloc::{AllocError, Global};

/// What is said of words that name another number of diagrams.
const TWO: &str =
    "two diagrams are compared, each a file, a braid or a code, or one file with both";

/// What is said of an option whose number can't be read.
const NO_NUMBER: &str = "an option has a number that can't be read";

/// What is said of words by which standard input would be read twice.
const ONCE: &str =
    "standard input would be read twice: `-` stands for one file only, and a problem that isn't named is read from there too";

/// What is reported on standard error beside what is wrong.
#[derive(Clone, Copy, PartialEq, Eq)]
pub enum Talk {
    /// Nothing.
    Quiet,
    /// What was tried in vain, and, where standard error is a terminal, how far the search is.
    Terminal,
    /// Both.
    Progress,
}

/// What is to be compared, within which bounds, and where the verdict goes.
#[derive(Drop)]
pub struct Asked<'a> {
    pub diagrams: Diagrams<'a>,
    /// The files of quandles.
    pub quandles: Vec<&'a str>,
    /// The files of quandles with cocycles.
    pub weights: Vec<&'a str>,
    /// The file that is written; without one, or with `-`, it is standard output.
    pub out: Option<&'a str>,
    pub seed: u64,
    pub steps: u64,
    pub room: u32,
    /// 1 to 64.
    pub workers: u32,
    pub talk: Talk,
}

/// The numbers of the options.
#[derive(Clone, Copy)]
struct Numbers {
    seed: u64,
    steps: u64,
    room: u32,
    workers: u32,
}

/// What the words ask for, which reads standard input once at most. Otherwise a text for whoever wrote them: what is wrong with them,
/// the help, or the version. An error comes only if the words ask for one of these two, or for nothing that can be done, or if memory
/// runs out. `words[0]` is the program's name.
pub fn read_words<'a>(alloc: Global, words: &'a [String]) -> Result<Asked<'a>, Error>
    ensures asks { IfOk result (λ asked. AsksOfSeek (texts_of words.entry.now) asked) }
    ensures shown { IfErr result (λ e. IsHelpOrVersion (kind_of e) → AskForText (texts_of words.entry.now)) }
    ensures refused { IfErr result (λ e. (kind_of e ≡ kind.OutOfMemory) ⊎ (IsHelpOrVersion (kind_of e) ⊎ AsksNothingOfSeek (texts_of words.entry.now))) }
{
    let matches = parse(alloc, words)?;
    asked_by(alloc, &matches)
}

/// The matches of the words.
fn parse<'a>(alloc: Global, words: &'a [String]) -> Result<ArgMatches<'a>, Error>
    ensures taken { OnOk result (AreTakenBySeek (texts_of words.entry.now)) }
    ensures rows { IfOk result (λ m. rows_of (found_of m) ≡ matches_of seek_app (texts_of words.entry.now)) }
    ensures shown { IfErr result (λ e. IsHelpOrVersion (kind_of e) → AskForText (texts_of words.entry.now)) }
    ensures refused { IfErr result (λ e. (kind_of e ≡ kind.OutOfMemory) ⊎ (IsHelpOrVersion (kind_of e) ⊎ AreRefused (texts_of words.entry.now))) }
{
    command(alloc)?.try_get_matches_from(words)
}

/// What matches ask for.
#[tactic(auto, using(crate::proofs::Numbers::no_numbers))]
fn asked_by<'a>(alloc: Global, matches: &ArgMatches<'a>) -> Result<Asked<'a>, Error>
    ensures shown { IfErr result (λ e. IsHelpOrVersion (kind_of e) → ⊥) }
    ensures refused { IfErr result (λ e. (kind_of e ≡ kind.OutOfMemory) ⊎ AsksNothingBy (rows_of (found_of matches.now))) }
    ensures asks { IfOk result (λ asked. AsksBy (rows_of (found_of matches.now)) asked) }
    ensures once { IfOk result (λ asked. inputs_read asked ≤ 1) }
{
    let Some(diagrams) = diagrams_of(alloc, matches)? else {
        return Err(refusal(alloc, TWO)?);
    };
    let Some(numbers) = numbers_of(matches) else {
        return Err(refusal(alloc, NO_NUMBER)?);
    };
    let asked = asked_with(alloc, matches, diagrams, numbers)?;
    if !reads_input_once(&asked) {
        return Err(refusal(alloc, ONCE)?);
    }
    Ok(asked)
}

/// What matches ask for, with their diagrams and numbers, which were read.
fn asked_with<'a>(
    alloc: Global,
    matches: &ArgMatches<'a>,
    diagrams: Diagrams<'a>,
    numbers: Numbers,
) -> Result<Asked<'a>, AllocError>
    requires numbers { AreGivenNumbers matches.now numbers }
    requires diagrams { AreNamedBy (all_named (rows_of (found_of matches.now))) diagrams }
    ensures { IfOk result (λ asked. AsksBy (rows_of (found_of matches.now)) asked) }
{
    let quandles = values_of(alloc, matches, QUANDLES)?;
    let weights = weights_of(alloc, matches)?;
    Ok(Asked {
        diagrams,
        quandles,
        weights,
        out: file_of(matches.get_str(OUT)),
        seed: numbers.seed,
        steps: numbers.steps,
        room: numbers.room,
        workers: numbers.workers,
        talk: talk_of(matches),
    })
}

/// The file of this name, if there is one; None where that is standard output.
fn file_of<'a>(given: Option<&'a str>) -> Option<&'a str>
    ensures { option_map (λ s. s.now) result ≡ file_written (option_map (λ s. s.now) given.entry) }
{
    match given {
        Some(path) if path == "-" => None,
        _ => given,
    }
}

/// The files of quandles with cocycles: none where none are wanted.
fn weights_of<'a>(alloc: Global, matches: &ArgMatches<'a>) -> Result<Vec<&'a str>, AllocError>
    ensures { IfOk result (λ v. AreWeightsBy (one_text (found_of matches.now) (codes "no-weights"))
        (unwrap_or (all_of (codes "weights") (rows_of (found_of matches.now))) []) (map (λ s. s.now) v.items)) }
{
    if has_flag(matches, NO_WEIGHTS) {
        return Ok(Vec::new(alloc));
    }
    values_of(alloc, matches, WEIGHTS)
}

/// The values of an argument that may be given often.
pub(crate) fn values_of<'a>(
    alloc: Global,
    matches: &ArgMatches<'a>,
    name: &str,
) -> Result<Vec<&'a str>, AllocError>
    ensures { IfOk result (λ v. map (λ s. s.now) v.items ≡ unwrap_or (all_of name.now (rows_of (found_of matches.now))) []) }
{
    match matches.get_strs(name) {
        None => Ok(Vec::new(alloc)),
        Some(values) => {
            let list = Vec::from_slice(alloc, values)?;
            Ok(list)
        }
    }
}

/// The error of words that `clap` takes.
fn refusal(alloc: Global, text: &str) -> Result<Error, AllocError>
    ensures { IfOk result (λ e. kind_of e ≡ ErrorKind.WrongNumberOfValues) }
{
    let mut command = command(alloc)?;
    command.error(ErrorKind::WrongNumberOfValues, text)
}

/// The numbers of the options; None where one can't be read.
fn numbers_of(matches: &ArgMatches) -> Option<Numbers>
    ensures { FindsNumbers matches.now result }
{
    Some(Numbers {
        seed: long_number(matches, SEED)?,
        steps: long_number(matches, STEPS)?,
        room: number(matches, ROOM)?,
        workers: number(matches, WORKERS)?,
    })
}

/// The number of an option, of 64 bits.
fn long_number(matches: &ArgMatches, name: &str) -> Option<u64>
    ensures { FindsNumber 64 (one_text (found_of matches.now) name.now) result }
{
    matches.get_one(name)
}

/// The number of an option, of 32 bits.
fn number(matches: &ArgMatches, name: &str) -> Option<u32>
    ensures { FindsNumber 32 (one_text (found_of matches.now) name.now) result }
{
    matches.get_one(name)
}

/// What is reported on standard error.
fn talk_of(matches: &ArgMatches) -> Talk
    ensures { IsTalkBy (one_text (found_of matches.now) (codes "quiet")) (one_text (found_of matches.now) (codes "progress")) result }
{
    if has_flag(matches, QUIET) {
        Talk::Quiet
    } else if has_flag(matches, PROGRESS) {
        Talk::Progress
    } else {
        Talk::Terminal
    }
}

/// Whether a flag is given: its text is `true`.
fn has_flag(matches: &ArgMatches, name: &str) -> bool
    ensures yes { one_text (found_of matches.now) name.now ≡ Some (codes "true") → result ≡ true }
    ensures none { one_text (found_of matches.now) name.now ≢ Some (codes "true") → result ≡ false }
{
    matches.get_one(name).unwrap_or(false)
}
