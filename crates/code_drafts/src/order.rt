//! Lines in an order that keeps pairs.

use crate::rectangles::LinePair;
use crate::tables::{at, put, table};
use std::alloc::{AllocError, Global};

/// The place of each line among those that are not put aside, in an order in which the low line of each pair comes before the high one.
/// So many fences, numbered behind the lines, take part in the order and have no place.
pub(crate) fn places(
    alloc: Global,
    pairs: &[LinePair],
    aside: &[bool],
    fences: usize,
) -> Result<Vec<usize>, AllocError> {
    let mut done = placed_at_first(alloc, aside, fences)?;
    let mut waits = waits_of(alloc, pairs, done.len())?;
    let mut places = table(alloc, aside.len())?;
    give_places(
        places.as_mut_slice(),
        waits.as_mut_slice(),
        done.as_mut_slice(),
        pairs,
    );
    Ok(places)
}

/// Which lines and fences need no place: the lines that are put aside.
fn placed_at_first(alloc: Global, aside: &[bool], fences: usize) -> Result<Vec<bool>, AllocError> {
    let mut done = aside.to_vec(alloc)?;
    for _ in 0..fences {
        done.push(false)?;
    }
    Ok(done)
}

/// Gives each line that isn't done the next place, as soon as it waits for no other. A fence behind the lines is done then, without a place.
fn give_places(places: &mut [usize], waits: &mut [usize], done: &mut [bool], pairs: &[LinePair]) {
    let mut next: usize = 0;
    for _ in 0..done.len() {
        let Some(line) = first_ready(waits, done) else {
            break;
        };
        put(done, line, true);
        release(waits, pairs, line);
        if line < places.len() {
            put(places, line, next);
            next = next.saturating_add(1);
        }
    }
}

/// For how many lines each of so many lines waits.
fn waits_of(alloc: Global, pairs: &[LinePair], total: usize) -> Result<Vec<usize>, AllocError> {
    let mut waits = table(alloc, total)?;
    for pair in pairs {
        let more = at(waits.as_slice(), pair.high).saturating_add(1);
        put(waits.as_mut_slice(), pair.high, more);
    }
    Ok(waits)
}

/// Lets no line wait any more for this one.
fn release(waits: &mut [usize], pairs: &[LinePair], line: usize) {
    for pair in pairs {
        if pair.low == line {
            let less = at(waits, pair.high).saturating_sub(1);
            put(waits, pair.high, less);
        }
    }
}

/// The first line that is left and waits for no other.
fn first_ready(waits: &[usize], done: &[bool]) -> Option<usize> {
    (0..done.len()).find(|line| !at(done, *line) && at(waits, *line) == 0)
}
