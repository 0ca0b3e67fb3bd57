//! The diagrams that the words name.
ghost use Rattle.std.specs.Prelude.{◌≡◌, ◌++◌, [], ◌∷◌, map, IfOk, OnOk};
ghost use Rattle.clap.specs.Matches.{found_of};
ghost use Rattle.clap.specs.Walk.{rows_of};
ghost use Rattle.seek_words.specs.Matched.{way_name, FindsNamed};
ghost use Rattle.seek_words.specs.Words.{named, named_by, all_named, AreNamedBy};

use crate::asked::values_of;
use crate::command::{BRAID, CODE, FILES};
use clap::ArgMatches;
use std::alloc::{AllocError, Global};

/// A diagram or a problem as it is given.
#[derive(Clone, Copy, PartialEq, Eq)]
pub enum Given<'a> {
    /// In the file of this name; `-` is standard input.
    File(&'a str),
    /// As this braid, by its number of strands and its letters.
    Braid(&'a str),
    /// As the planar diagram code in the file of this name; `-` is standard input.
    Code(&'a str),
}

/// What is to be compared.
#[derive(Clone, Copy, PartialEq, Eq)]
pub enum Diagrams<'a> {
    /// The problem in a file.
    Problem(Given<'a>),
    /// Two diagrams.
    Pair(Given<'a>, Given<'a>),
}

/// The diagrams that the words name, in the order in which they come there; None where they are too few or too many, or one that is
/// no file. Without any, the problem comes from standard input.
pub(crate) fn diagrams_of<'a>(
    alloc: Global,
    matches: &ArgMatches<'a>,
) -> Result<Option<Diagrams<'a>>, AllocError>
    ensures { IfOk result (λ o. FindsNamed (all_named (rows_of (found_of matches.now))) o) }
{
    let mut placed = Vec::new(alloc);
    push_placed(alloc, &mut placed, matches, Way::File)?;
    push_placed(alloc, &mut placed, matches, Way::Braid)?;
    push_placed(alloc, &mut placed, matches, Way::Code)?;
    Ok(diagrams_among(placed.as_slice()))
}

/// The diagrams of these and no more: of two, by their places. None where they are too few or too many, or one that is no file.
#[tactic(auto, using(crate::proofs::Named::too_many_placed))]
fn diagrams_among<'a>(placed: &[Placed<'a>]) -> Option<Diagrams<'a>>
    ensures { FindsNamed (map (λ p. named p.given) placed.now) result }
{
    match placed {
        [] => Some(Diagrams::Problem(Given::File("-"))),
        [one] => problem_of(one.given),
        [first, second] => Some(pair_of(*first, *second)),
        _ => None,
    }
}

/// The problem in a file; None of a braid or a code.
#[tactic(auto, using(crate::proofs::Named::not_a_file))]
fn problem_of<'a>(given: Given<'a>) -> Option<Diagrams<'a>>
    ensures { FindsNamed (named given.entry ∷ []) result }
{
    match given {
        Given::File(_) => Some(Diagrams::Problem(given)),
        Given::Braid(_) | Given::Code(_) => None,
    }
}

/// Two diagrams in the order of their places. Two that are given the same way come so, and stay.
fn pair_of<'a>(first: Placed<'a>, second: Placed<'a>) -> Diagrams<'a>
    ensures { AreNamedBy (named first.entry.given ∷ named second.entry.given ∷ []) result }
{
    if argument_of(first.given) == argument_of(second.given) || first.place <= second.place {
        Diagrams::Pair(first.given, second.given)
    } else {
        Diagrams::Pair(second.given, first.given)
    }
}

/// The name of the argument by which a diagram is given.
fn argument_of(given: Given) -> &'static str
    ensures { result.now ≡ (named given.entry).way }
{
    match given {
        Given::File(_) => FILES,
        Given::Braid(_) => BRAID,
        Given::Code(_) => CODE,
    }
}

/// A diagram, and its place among the words.
#[derive(Clone, Copy)]
struct Placed<'a> {
    place: usize,
    given: Given<'a>,
}

/// Which way of giving a diagram an argument is.
#[derive(Clone, Copy)]
enum Way {
    File,
    Braid,
    Code,
}

impl Way {
    /// The name of the argument.
    fn name(self) -> &'static str
        ensures { result.now ≡ way_name self }
    {
        match self {
            Way::File => FILES,
            Way::Braid => BRAID,
            Way::Code => CODE,
        }
    }
}

/// Appends the values of an argument with their places. One without a place, which `clap` doesn't give, comes last.
fn push_placed<'a>(
    alloc: Global,
    placed: &mut Vec<Placed<'a>>,
    matches: &ArgMatches<'a>,
    way: Way,
) -> Result<(), AllocError>
    ensures { OnOk result (map (λ p. named p.given) placed.new.items
        ≡ map (λ p. named p.given) placed.old.items ++ named_by (way_name way) (rows_of (found_of matches.now))) }
{
    let values = values_of(alloc, matches, way.name())?;
    let places = matches.indices_of(way.name()).unwrap_or(&[]);
    for at in 0..values.len() {
        let place = places.get(at).copied().unwrap_or(usize::MAX);
        let given = as_given(values[at], way);
        placed.push(Placed { place, given })?;
    }
    Ok(())
}

/// A value as a diagram.
fn as_given<'a>(value: &'a str, way: Way) -> Given<'a>
    ensures { named result ≡ record { way = way_name way; text = value.entry.now } }
{
    match way {
        Way::File => Given::File(value),
        Way::Braid => Given::Braid(value),
        Way::Code => Given::Code(value),
    }
}
