//! What the command line may have.
ghost use Rattle.std.specs.Prelude.{◌≡◌, false, IfOk, codes};
ghost use Rattle.clap.specs.Simple.{app_of, new_app};
ghost use Rattle.clap.specs.Walk.{rule_of};
ghost use Rattle.knot_words.specs.OptionNumbers.{number_rule, seed_rule, workers_rule};
ghost use Rattle.seek_words.specs.Words.{files_rule, list_rule, text_rule, with_value_name, flag_rule, steps_rule, room_rule};
ghost use Rattle.seek_words.specs.Words.{versioned, with_inputs, with_bounds, seek_app};

use clap::builder::ValueParser;
use clap::{Arg, ArgAction, Command};
use std::alloc::{AllocError, Global};

/// The version that `--version` prints.
pub const VERSION: &str = "1.0";

/// What the program is for.
const ABOUT: &str = "Seeks evidence that two knots or links are the same, or that they are not.";

/// How it is called.
const USAGE: &str = "seek [OPTIONS] [PROBLEM | FIRST SECOND]";

/// What follows the options in the help.
const AFTER: &str = "\
A PROBLEM is a file with two diagrams, perhaps followed by quandles; FIRST and SECOND are files with one diagram each. If no
diagram is given, the problem is read from standard input. A diagram is a grid, two lines like
    x 4 3 2 1 0
    o 2 1 0 4 3
or a braid, a line like
    braid 2 1 1 1
--pd names a file with a planar diagram code, as other programs print it, like
    X[1,5,2,4] X[3,1,4,6] X[5,3,6,2]

Example: is the closure of a braid the diagram in a file?
    seek --braid \"2 1 1 1\" trefoil.txt

What is written with exit status 0 is a verdict with its evidence: `equal` and moves that lead from the first diagram to the
second, or `different` and what differs: the colourings of both diagrams by a quandle, their numbers of colourings (with a cocycle
by weight), or their linking numbers. The problem followed by the verdict is a certificate, which `knot check` accepts unless it
has too many bytes. The other exit statuses:
    1 nothing was found   2 the command line is invalid   3 a line or a code is malformed   4 a limit is exceeded
    5 reading failed      6 writing failed                7 memory ran out
    10 an argument isn't UTF-8
";

/// The files.
pub(crate) const FILES: &str = "FILE";

pub(crate) const BRAID: &str = "braid";

pub(crate) const CODE: &str = "pd";

pub(crate) const QUANDLES: &str = "quandles";

pub(crate) const WEIGHTS: &str = "weights";

pub(crate) const NO_WEIGHTS: &str = "no-weights";

pub(crate) const OUT: &str = "out";

pub(crate) const SEED: &str = "seed";

pub(crate) const STEPS: &str = "steps";

pub(crate) const ROOM: &str = "room";

pub(crate) const WORKERS: &str = "workers";

pub(crate) const PROGRESS: &str = "progress";

pub(crate) const QUIET: &str = "quiet";

/// An option with a value, which may be given as often as is wanted.
fn list_arg<'a>(alloc: Global, name: &'a str, value: &'a str, help: &'a str) -> Arg<'a>
    ensures rule { rule_of result ≡ list_rule name.entry.now }
    ensures local { result.global ≡ false }
{
    Arg::new(alloc, name)
        .long(name)
        .action(ArgAction::Append)
        .value_name(value)
        .help(help)
}

/// An option with a whole number.
fn number_arg<'a>(
    alloc: Global,
    name: &'a str,
    parser: ValueParser<'a>,
    default: &'a str,
    help: &'a str,
) -> Arg<'a>
    ensures rule { rule_of result ≡ with_value_name (number_rule name.entry.now parser.entry default.entry.now) }
    ensures local { result.global ≡ false }
{
    Arg::new(alloc, name)
        .long(name)
        .action(ArgAction::Set)
        .value_name("N")
        .value_parser(parser)
        .default_value(default)
        .help(help)
}

/// An option without a value.
fn flag_arg<'a>(alloc: Global, name: &'a str, help: &'a str) -> Arg<'a>
    ensures rule { rule_of result ≡ flag_rule name.entry.now }
    ensures local { result.global ≡ false }
{
    Arg::new(alloc, name)
        .long(name)
        .action(ArgAction::SetTrue)
        .help(help)
}

/// The files of the diagrams.
fn files_arg<'a>(alloc: Global) -> Arg<'a>
    ensures rule { rule_of result ≡ files_rule }
    ensures local { result.global ≡ false }
{
    Arg::new(alloc, FILES)
        .action(ArgAction::Append)
        .num_args(0..=2)
        .help("A file with the whole problem, or a file for each diagram; `-` is standard input")
}

/// Braids as diagrams.
fn braid_arg<'a>(alloc: Global) -> Arg<'a>
    ensures rule { rule_of result ≡ list_rule (codes "braid") }
    ensures local { result.global ≡ false }
{
    let help = "A braid as a diagram: its number of strands and its letters, as \"2 1 1 1\"";
    list_arg(alloc, BRAID, "WORD", help)
}

/// Files of codes as diagrams.
fn code_arg<'a>(alloc: Global) -> Arg<'a>
    ensures rule { rule_of result ≡ list_rule (codes "pd") }
    ensures local { result.global ≡ false }
{
    let help = "A file with a planar diagram code as a diagram";
    list_arg(alloc, CODE, "FILE", help)
}

/// The files of quandles.
fn quandles_arg<'a>(alloc: Global) -> Arg<'a>
    ensures rule { rule_of result ≡ list_rule (codes "quandles") }
    ensures local { result.global ≡ false }
{
    list_arg(
        alloc,
        QUANDLES,
        "FILE",
        "A file of quandles that are tried first",
    )
}

/// The files of quandles with cocycles.
fn weights_arg<'a>(alloc: Global) -> Arg<'a>
    ensures rule { rule_of result ≡ list_rule (codes "weights") }
    ensures local { result.global ≡ false }
{
    list_arg(
        alloc,
        WEIGHTS,
        "FILE",
        "A file of quandles with cocycles, by which colourings are counted by weight",
    )
}

/// Whether no cocycles are tried.
fn no_weights_arg<'a>(alloc: Global) -> Arg<'a>
    ensures rule { rule_of result ≡ flag_rule (codes "no-weights") }
    ensures local { result.global ≡ false }
{
    flag_arg(
        alloc,
        NO_WEIGHTS,
        "Count without cocycles: ignore --weights, and the list that is used if no file is named",
    )
}

/// The file that is written.
fn out_arg<'a>(alloc: Global) -> Arg<'a>
    ensures rule { rule_of result ≡ text_rule (codes "out") }
    ensures local { result.global ≡ false }
{
    Arg::new(alloc, OUT)
        .long(OUT)
        .action(ArgAction::Set)
        .value_name("FILE")
        .help("Write the verdict to a file: whole, or not at all; `-` is standard output")
}

/// The seed.
fn seed_arg<'a>(alloc: Global) -> Arg<'a>
    ensures rule { rule_of result ≡ with_value_name seed_rule }
    ensures local { result.global ≡ false }
{
    let help = "The seed of the random walks, from 0 on";
    number_arg(alloc, SEED, clap::value_parser!(u64), "1", help)
}

/// How many steps.
fn steps_arg<'a>(alloc: Global) -> Arg<'a>
    ensures rule { rule_of result ≡ with_value_name steps_rule }
    ensures local { result.global ≡ false }
{
    let help = "How many steps the walks of a worker may make, from 0 on";
    number_arg(alloc, STEPS, clap::value_parser!(u64), "8000000", help)
}

/// How many forms.
fn room_arg<'a>(alloc: Global) -> Arg<'a>
    ensures rule { rule_of result ≡ with_value_name room_rule }
    ensures local { result.global ≡ false }
{
    let help = "How many forms a worker may remember, from 0 on";
    number_arg(alloc, ROOM, clap::value_parser!(u32), "524288", help)
}

/// How many workers.
fn workers_arg<'a>(alloc: Global) -> Arg<'a>
    ensures rule { rule_of result ≡ with_value_name workers_rule }
    ensures local { result.global ≡ false }
{
    let help = "How many workers seek, 1 to 64, each with a seed of its own; the fewest steps win";
    let parser = clap::value_parser!(u32).range(1..=64);
    number_arg(alloc, WORKERS, parser, "1", help)
}

/// Whether it is reported how far the search is.
fn progress_arg<'a>(alloc: Global) -> Arg<'a>
    ensures rule { rule_of result ≡ flag_rule (codes "progress") }
    ensures local { result.global ≡ false }
{
    let help = "Report on standard error how far the search is, even if that is no terminal";
    flag_arg(alloc, PROGRESS, help)
}

/// Whether nothing is reported but what is wrong.
fn quiet_arg<'a>(alloc: Global) -> Arg<'a>
    ensures rule { rule_of result ≡ flag_rule (codes "quiet") }
    ensures local { result.global ≡ false }
{
    flag_arg(
        alloc,
        QUIET,
        "Report nothing on standard error except what is wrong",
    )
}

/// The options that say what is asked.
fn with_inputs<'a>(alloc: Global, command: Command<'a>) -> Result<Command<'a>, AllocError>
    ensures { IfOk result (λ c. app_of c ≡ with_inputs (app_of command.entry)) }
{
    command
        .arg(files_arg(alloc))?
        .arg(braid_arg(alloc))?
        .arg(code_arg(alloc))?
        .arg(quandles_arg(alloc))?
        .arg(weights_arg(alloc))?
        .arg(no_weights_arg(alloc))?
        .arg(out_arg(alloc))
}

/// The options that bound the search.
fn with_bounds<'a>(alloc: Global, command: Command<'a>) -> Result<Command<'a>, AllocError>
    ensures { IfOk result (λ c. app_of c ≡ with_bounds (app_of command.entry)) }
{
    command
        .arg(seed_arg(alloc))?
        .arg(steps_arg(alloc))?
        .arg(room_arg(alloc))?
        .arg(workers_arg(alloc))
}

/// The command without arguments.
fn bare_command<'a>(alloc: Global) -> Command<'a>
    ensures { app_of result ≡ versioned (new_app (codes "seek")) }
{
    Command::new(alloc, "seek")
        .version(VERSION)
        .about(ABOUT)
        .override_usage(USAGE)
        .after_help(AFTER)
}

/// The whole command.
pub(crate) fn command<'a>(alloc: Global) -> Result<Command<'a>, AllocError>
    ensures { IfOk result (λ c. app_of c ≡ seek_app) }
{
    let asking = with_inputs(alloc, bare_command(alloc))?;
    let bounded = with_bounds(alloc, asking)?;
    bounded.arg(progress_arg(alloc))?.arg(quiet_arg(alloc))
}
