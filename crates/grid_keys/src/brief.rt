//! Brief keys: the keys of grids of at most `WORD_COLUMNS` columns in two numbers.
ghost use Rattle.std.specs.Prelude.{◌≡◌, ◌≢◌, ◌==◌, ◌<◌, ◌^◌, IfSome, IfNone};
ghost use Rattle.std.specs.List.{list_all};
ghost use Rattle.grid_keys.specs.Brief.{whole_key};
ghost use Rattle.grid_keys.specs.Key.{size_of};

use crate::key::{DIGIT_BITS, Packed, WORD_COLUMNS, WORDS};

/// What one is worth above the digits of a word.
const SIZE_PLACE: u128 = 1 << (DIGIT_BITS * WORD_COLUMNS as u32);

/// The key of a grid of at most `WORD_COLUMNS` columns in two numbers, which a map of many keys keeps and compares in less than a third
/// of the memory. Brief keys are equal exactly for equal keys.
#[derive(Clone, Copy, PartialEq, Eq, Hash)]
pub struct BriefKey {
    /// The word of the Xs, and above its digits the size.
    x: u128,
    /// The word of the Os.
    o: u128,
}

impl BriefKey {
    /// The brief form of a key: None if a word after the first of a kind isn't 0, as for grids of more columns, or if the first word of the
    /// Xs has bits above its digits, as for no grid.
    pub fn of(key: &Packed) -> Option<BriefKey>
        ensures some { IfSome result (λ brief. whole_key brief ≡ key.now) }
        ensures none { IfNone result ((brief : BriefKey) → whole_key brief ≢ key.now) }
    {
        if key.x[0] < SIZE_PLACE && are_zero(&key.x[1..]) && are_zero(&key.o[1..]) {
            Some(BriefKey {
                x: u128::from(key.size) * SIZE_PLACE + key.x[0],
                o: key.o[0],
            })
        } else {
            None
        }
    }

    /// The key whose brief form this is. Its size must be below 256, as it is in the brief form of any key.
    pub fn whole(self) -> Packed
        requires { size_of (whole_key self) < 2 ^ 8 }
        ensures { result ≡ whole_key self }
    {
        let mut x = [0; WORDS];
        x[0] = self.x % SIZE_PLACE;
        let mut o = [0; WORDS];
        o[0] = self.o;
        Packed {
            size: (self.x / SIZE_PLACE) as u8,
            x,
            o,
        }
    }
}

/// Whether all these words are 0.
fn are_zero(words: &[u128]) -> bool
    ensures { result ≡ list_all (λ word. word == 0) words.now }
{
    words.iter().all(|word| *word == 0)
}
