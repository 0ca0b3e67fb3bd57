//! Where the least key of a class is.
ghost use Rattle.std.specs.Prelude.{◌<◌, ◌+◌, length, take};
ghost use Rattle.std.specs.List.{All};
ghost use Rattle.mono_simplify.specs.Ways.{keys_in};
ghost use Rattle.mono_simplify.specs.Seen.{IsLeastAt};

use crate::class::Class;
use grid_keys::compare_keys;
use std::cmp::Ordering;

/// The place of the least key of a class.
pub fn least_place(class: &Class) -> usize
    requires { 0 < length class.now }
    ensures place { result < length class.now }
    ensures least { IsLeastAt (keys_in class.now) (keys_in class.now) result }
{
    let mut best = 0;
    for place in 0..class.len() {
        best = lesser(class, best, place);
    }
    best
}

/// Of two places of a class the one with the lesser key, and the first of them where the keys are one.
fn lesser(class: &Class, best: usize, place: usize) -> usize
    requires best { best < length class.now }
    requires place { place < length class.now }
    ensures below { result < length class.now }
    ensures least { IsLeastAt (take place (keys_in class.now)) (keys_in class.now) best
        → IsLeastAt (take (place + 1) (keys_in class.now)) (keys_in class.now) result }
{
    match compare_keys(&class.key_at(place), &class.key_at(best)) {
        Ordering::Less => place,
        _ => best,
    }
}
