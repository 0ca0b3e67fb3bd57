//! The faces and the connected parts of a code's map.
ghost use Rattle.std.specs.Prelude.{◌≡◌, ◌<◌, ◌≤◌, ◌*◌, ◌%◌, ◌==◌, min, max, count_by, length, slice_index, if◌then◌else◌, IfOk};
ghost use Rattle.std.specs.List.{All, range_with_len};
ghost use Rattle.code_rows.specs.declared.code_fault.TheConstants.{MAX_CROSSINGS};
ghost use Rattle.code_rows.specs.CodeMap.{darts, in_slot, edge_at, is_other_end, twin, twins, turned, next_in_face, around_face, is_least_of_face, faces};
ghost use Rattle.code_rows.specs.CodeMap.{united_parts, parts_below, parts, is_plane};

use crossing_codes::Crossing;
use memory_core::OutOfMemory;
use std::alloc::{AllocError, Global};

/// Whether the map of the crossings has as many faces as crossings and twice the parts.
pub(crate) fn is_plane(alloc: Global, crossings: &[Crossing]) -> Result<bool, OutOfMemory>
    requires { length crossings.now ≤ MAX_CROSSINGS }
    ensures { IfOk result (λ b. b ≡ is_plane crossings.now) }
{
    let ends = twins(alloc, crossings)?;
    let parts = parts(alloc, ends.as_slice(), crossings.len() as u32)?;
    Ok(faces(ends.as_slice()) == crossings.len() + 2 * parts)
}

/// The other end of each dart's edge.
fn twins(alloc: Global, crossings: &[Crossing]) -> Result<Vec<u32>, AllocError>
    requires { length crossings.now ≤ MAX_CROSSINGS }
    ensures all { IfOk result (λ v. v.items ≡ twins crossings.now) }
    ensures long { IfOk result (λ v. length v.items ≡ darts crossings.now) }
    ensures inside { IfOk result (λ v. All (λ e. e < length v.items) v.items) }
{
    let mut ends = Vec::new(alloc);
    for dart in 0..4 * crossings.len() as u32 {
        ends.push(twin(crossings, dart))?;
    }
    Ok(ends)
}

/// The lowest other dart with the edge of a dart, and 0 where there is none.
fn twin(crossings: &[Crossing], dart: u32) -> u32
    requires few { length crossings.now ≤ MAX_CROSSINGS }
    requires dart { dart < darts crossings.now }
    ensures twin { result ≡ twin crossings.now dart }
    ensures within { result < darts crossings.now }
{
    for other in 0..4 * crossings.len() as u32 {
        if is_other_end(crossings, dart, other) {
            return other;
        }
    }
    0
}

/// Whether another dart has the edge of a dart.
fn is_other_end(crossings: &[Crossing], dart: u32, other: u32) -> bool
    requires dart { dart < darts crossings.now }
    requires other { other < darts crossings.now }
    ensures { result ≡ is_other_end crossings.now dart other }
{
    edge_at(crossings, other) == edge_at(crossings, dart) && other != dart
}

/// The edge at a dart.
fn edge_at(crossings: &[Crossing], dart: u32) -> u32
    requires { dart < darts crossings.now }
    ensures { result ≡ edge_at crossings.now dart }
{
    let crossing = &crossings[dart as usize / 4];
    match dart % 4 {
        0 => crossing.first,
        1 => crossing.second,
        2 => crossing.third,
        _ => crossing.fourth,
    }
}

/// The next dart with the same face on its left.
fn next_in_face(ends: &[u32], dart: u32) -> u32
    requires whole { length ends.now % 4 ≡ 0 }
    requires dart { dart < length ends.now }
    requires inside { All (λ e. e < length ends.now) ends.now }
    ensures next { result ≡ next_in_face ends.now dart }
    ensures within { result < length ends.now }
{
    let end = ends[dart as usize];
    end - end % 4 + (end % 4 + 3) % 4
}

/// Whether no dart of its face is less than a dart.
fn is_least_of_face(ends: &[u32], dart: u32) -> bool
    requires whole { length ends.now % 4 ≡ 0 }
    requires dart { dart < length ends.now }
    requires inside { All (λ e. e < length ends.now) ends.now }
    ensures { result ≡ is_least_of_face ends.now dart }
{
    let mut around = dart;
    for done in 0..ends.len() {
        if around < dart {
            return false;
        }
        around = next_in_face(ends, around);
    }
    true
}

/// How many faces there are, each counted at its least dart.
fn faces(ends: &[u32]) -> usize
    requires few { length ends.now ≤ 4 * MAX_CROSSINGS }
    requires whole { length ends.now % 4 ≡ 0 }
    requires inside { All (λ e. e < length ends.now) ends.now }
    ensures { result ≡ faces ends.now }
{
    let mut count = 0;
    for dart in 0..ends.len() as u32 {
        count += one_if(is_least_of_face(ends, dart));
    }
    count
}

/// 1 where a test holds, else 0.
fn one_if(test: bool) -> usize
    ensures one { result ≡ (if test then 1 else 0) }
    ensures most { result ≤ 1 }
{
    if test { 1 } else { 0 }
}

/// How many connected parts there are, each counted at its least crossing.
fn parts(alloc: Global, ends: &[u32], crossings: u32) -> Result<usize, AllocError>
    requires few { crossings ≤ MAX_CROSSINGS }
    requires whole { length ends.now ≡ 4 * crossings }
    requires inside { All (λ e. e < length ends.now) ends.now }
    ensures parts { IfOk result (λ n. n ≡ parts ends.now crossings) }
    ensures few { IfOk result (λ n. n ≤ crossings) }
{
    let mut numbers = own_places(alloc, crossings)?;
    join_parts(numbers.as_mut_slice(), ends);
    Ok(count_own(numbers.as_slice()))
}

/// The numbers below n, from 0. It fails only if memory runs out.
pub fn own_places(alloc: Global, n: u32) -> Result<Vec<u32>, AllocError>
    ensures all { IfOk result (λ v. v.items ≡ range_with_len 0 n) }
    ensures long { IfOk result (λ v. length v.items ≡ n) }
{
    let mut numbers = Vec::new(alloc);
    for k in 0..n {
        numbers.push(k)?;
    }
    Ok(numbers)
}

/// Joins the parts at the two ends of each dart.
fn join_parts(numbers: &mut [u32], ends: &[u32])
    requires few { length numbers.old ≤ MAX_CROSSINGS }
    requires each { numbers.old ≡ range_with_len 0 (length numbers.old) }
    requires whole { length ends.now ≡ 4 * length numbers.old }
    requires inside { All (λ e. e < length ends.now) ends.now }
    ensures { numbers.new ≡ parts_below ends.now (length numbers.old) (length ends.now) }
{
    for dart in 0..ends.len() {
        let here = numbers[dart / 4];
        let there = numbers[ends[dart] as usize / 4];
        unite(numbers, here, there);
    }
}

/// Lets two parts become one, with the lesser of their numbers.
fn unite(numbers: &mut [u32], one: u32, other: u32)
    ensures { numbers.new ≡ united_parts one other numbers.old }
{
    for place in 0..numbers.len() {
        numbers[place] = after_uniting(numbers[place], one, other);
    }
}

/// What becomes of the number of a part when two become one.
fn after_uniting(number: u32, one: u32, other: u32) -> u32
    ensures { result ≡ (if number == max one other then min one other else number) }
{
    if number == one.max(other) {
        one.min(other)
    } else {
        number
    }
}

/// How many numbers are at their own place.
fn count_own(numbers: &[u32]) -> usize
    requires { length numbers.now ≤ MAX_CROSSINGS }
    ensures count { result ≡ count_by (λ k. slice_index numbers.now k == k) (range_with_len 0 (length numbers.now)) }
    ensures few { result ≤ length numbers.now }
{
    let mut count = 0;
    for k in 0..numbers.len() {
        count += one_if(numbers[k] as usize == k);
    }
    count
}
