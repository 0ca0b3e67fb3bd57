//! Whether signed Gauss lines are those of a code.
ghost use Rattle.std.specs.Prelude.{◌≡◌, ◌≤◌, ◌<◌, ◌+◌, ◌==◌, ◌&&◌, ◌++◌, ℕ, true, List, length, count_by, map, IsTrue, IfOk, OnOk};
ghost use Rattle.std.specs.List.{list_all, range_with_len};
ghost use Rattle.code_rows.specs.declared.code_fault.TheConstants.{MAX_CROSSINGS};
ghost use Rattle.code_text.specs.GaussCheck.{crossing_of, comes_on, leaves_on, are_alike, is_there, edge_leads_to, next_of, lead_on, goes_round, all_of};
ghost use Rattle.code_text.specs.GaussCheck.{is_through, is_passed_twice, is_gauss_of, agrees_with_gauss};

use crate::gauss_lines::GaussPassage;
use crossing_codes::{Code, Crossing};
use memory_core::Items;
use std::alloc::{AllocError, Global};

/// The edge on which the strand comes to a crossing over, or under.
fn comes_on(crossing: &Crossing, over: bool) -> u32
    ensures { result ≡ comes_on crossing.now over }
{
    if !over {
        crossing.first
    } else if crossing.positive {
        crossing.fourth
    } else {
        crossing.second
    }
}

/// The edge on which the strand leaves a crossing over, or under.
fn leaves_on(crossing: &Crossing, over: bool) -> u32
    ensures { result ≡ leaves_on crossing.now over }
{
    if !over {
        crossing.third
    } else if crossing.positive {
        crossing.second
    } else {
        crossing.fourth
    }
}

/// The crossing of a passage, or one without edges where the code has none of its number.
fn crossing_of(crossings: &[Crossing], passage: GaussPassage) -> Crossing
    ensures { result ≡ crossing_of crossings.now passage }
{
    let place = passage.crossing.saturating_sub(1) as usize;
    if place < crossings.len() {
        crossings[place]
    } else {
        Crossing {
            first: 0,
            second: 0,
            third: 0,
            fourth: 0,
            positive: false,
        }
    }
}

/// Whether both hold, or neither does.
fn are_alike(one: bool, other: bool) -> bool
    ensures { result ≡ are_alike one other }
{
    if one { other } else { !other }
}

/// Whether the code has the crossing of a passage, with its sign.
fn is_there(crossings: &[Crossing], passage: GaussPassage) -> bool
    ensures { result ≡ is_there crossings.now passage }
{
    1 <= passage.crossing
        && passage.crossing as usize <= crossings.len()
        && are_alike(crossing_of(crossings, passage).positive, passage.positive)
}

/// Whether each passage has a crossing of the code and its sign.
fn all_there(crossings: &[Crossing], passages: &[GaussPassage]) -> bool
    ensures { result ≡ list_all (is_there crossings.now) passages.now }
{
    passages.iter().all(|passage| is_there(crossings, *passage))
}

/// Whether the edge that leaves the one passage leads to the other.
fn edge_leads_to(crossings: &[Crossing], from: GaussPassage, to: GaussPassage) -> bool
    ensures { result ≡ edge_leads_to crossings.now from to }
{
    leaves_on(&crossing_of(crossings, from), from.over)
        == comes_on(&crossing_of(crossings, to), to.over)
}

/// The first of some passages, or this one where there are none.
fn next_of(first: GaussPassage, passages: &[GaussPassage]) -> GaussPassage
    ensures { result ≡ next_of first passages.now }
{
    match passages {
        [] => first,
        [passage, ..] => *passage,
    }
}

/// Whether each passage leads to the next, and the last to this first one.
fn lead_on(crossings: &[Crossing], first: GaussPassage, walk: &[GaussPassage]) -> bool
    ensures { result ≡ lead_on crossings.now first walk.now }
{
    let mut left = walk;
    while let [passage, after @ ..] = left {
        if !edge_leads_to(crossings, *passage, next_of(first, after)) {
            return false;
        }
        left = after;
    }
    true
}

/// Whether the strand goes from passage to passage and round.
fn goes_round(crossings: &[Crossing], walk: &[GaussPassage]) -> bool
    ensures { result ≡ goes_round crossings.now walk.now }
{
    match walk {
        [] => true,
        [first, ..] => lead_on(crossings, *first, walk),
    }
}

/// Whether along each line the strand goes from passage to passage and round.
fn all_go_round(crossings: &[Crossing], walks: &[Items<GaussPassage>]) -> bool
    ensures { result ≡ list_all (goes_round crossings.now) walks.now }
{
    walks
        .iter()
        .all(|walk| goes_round(crossings, walk.as_slice()))
}

/// The passages of all lines.
pub(crate) fn all_of(
    alloc: Global,
    walks: &[Items<GaussPassage>],
) -> Result<Vec<GaussPassage>, AllocError>
    ensures { IfOk result (λ v. v.items ≡ all_of walks.now) }
{
    let mut passages = Vec::new(alloc);
    for walk in walks {
        passages.extend_from_slice(walk.as_slice())?;
    }
    Ok(passages)
}

/// Whether a passage goes over, or under, through a crossing with this number.
fn is_through(over: bool, number: usize, passage: GaussPassage) -> bool
    ensures { result ≡ is_through over number passage }
{
    are_alike(passage.over, over) && passage.crossing as usize == number
}

/// How many passages go over, or under, through a crossing with this number.
fn passages_through(passages: &[GaussPassage], over: bool, number: usize) -> usize
    ensures { result ≡ count_by (is_through over number) passages.now }
{
    passages
        .iter()
        .filter(|passage| is_through(over, number, **passage))
        .count()
}

/// Whether a crossing with this number is passed once over and once under.
fn is_passed_twice(passages: &[GaussPassage], number: usize) -> bool
    ensures { result ≡ is_passed_twice passages.now number }
{
    passages_through(passages, true, number) == 1 && passages_through(passages, false, number) == 1
}

/// Whether each of so many crossings, numbered from 1, is passed once over and once under.
fn all_passed_twice(passages: &[GaussPassage], count: usize) -> bool
    requires { count ≤ MAX_CROSSINGS }
    ensures { result ≡ list_all (is_passed_twice passages.now) (range_with_len 1 count) }
{
    (1..count + 1).all(|number| is_passed_twice(passages, number))
}

/// Whether the lines are those of a code with these crossings.
fn is_gauss_of(
    crossings: &[Crossing],
    walks: &[Items<GaussPassage>],
    passages: &[GaussPassage],
) -> bool
    requires few { length crossings.now ≤ MAX_CROSSINGS }
    requires all { passages.now ≡ all_of walks.now }
    ensures { result ≡ is_gauss_of crossings.now walks.now }
{
    passages.len() == 2 * crossings.len()
        && all_there(crossings, passages)
        && all_passed_twice(passages, crossings.len())
        && all_go_round(crossings, walks)
}

/// Whether a code has these signed Gauss lines, where there are some.
pub(crate) fn agrees_with_gauss(
    code: &Code,
    walks: &[Items<GaussPassage>],
    passages: &[GaussPassage],
) -> bool
    requires few { length code.now.crossings ≤ MAX_CROSSINGS }
    requires all { passages.now ≡ all_of walks.now }
    ensures { result ≡ agrees_with_gauss code.now walks.now }
{
    walks.is_empty() || is_gauss_of(code.crossings.as_slice(), walks, passages)
}
