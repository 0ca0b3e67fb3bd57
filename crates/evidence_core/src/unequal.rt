//! The first place at which two lists differ.
ghost use Rattle.std.specs.Prelude.{◌≡◌, nat_eq};
ghost use Rattle.std.specs.Ordering.{int_eq};
ghost use Rattle.evidence_core.specs.Unequal.{first_unequal};

/// The first place at which two lists differ, or at which one of them has ended. `None` where they are equal.
pub fn first_unequal(given: &[u32], own: &[u32]) -> Option<usize>
    ensures { result ≡ first_unequal nat_eq given.now own.now }
{
    let most = given.len().min(own.len());
    for place in 0..most {
        let one = given[place];
        let two = own[place];
        if !is_same(one, two) {
            return Some(place);
        }
    }
    if given.len() == own.len() {
        None
    } else {
        Some(most)
    }
}

/// Whether two numbers are the same.
fn is_same(one: u32, two: u32) -> bool
    ensures { result ≡ nat_eq one two }
{
    one == two
}

/// The first place at which two lists of numbers that may be negative differ, or at which one of them has ended.
pub(crate) fn first_unequal_of(given: &[i64], own: &[i64]) -> Option<usize>
    ensures { result ≡ first_unequal int_eq given.now own.now }
{
    let most = given.len().min(own.len());
    for place in 0..most {
        let one = given[place];
        let two = own[place];
        if !is_same_of(one, two) {
            return Some(place);
        }
    }
    if given.len() == own.len() {
        None
    } else {
        Some(most)
    }
}

/// Whether two numbers, which may be negative, are the same.
fn is_same_of(one: i64, two: i64) -> bool
    ensures { result ≡ int_eq one two }
{
    one == two
}
