//! Short numbers as words of a key: each digit goes from the base of short grids to that of keys.
ghost use Rattle.std.specs.Prelude.{◌≡◌, ◌<◌, ◌≤◌, ◌*◌, ◌-◌, ◌^◌};
ghost use Rattle.grid_canon.specs.declared.digits.TheConstants.{MAX_SHORT_SIZE, SHORT_BASE};
ghost use Rattle.grid_keys.specs.declared.key.TheConstants.{BASE, WORD_COLUMNS};
ghost use Rattle.grid_canon.specs.declared.spread.TheConstants.{HALF, QUARTER};
ghost use Rattle.grid_canon.specs.Digits.{digits};
ghost use Rattle.grid_keys.specs.Key.{key_number, words_of};

use crate::digits::{MAX_SHORT_SIZE, SHORT_BASE, SHORT_BITS};
use grid_keys::{DIGIT_BITS, WORD_COLUMNS, WORDS};

/// Half of the digits that a short number has at most.
const HALF: usize = MAX_SHORT_SIZE / 2;

/// A quarter of them.
const QUARTER: usize = HALF / 2;

/// As many digits are below this number, to the base of short grids.
const SHORT_HALF: u64 = 1 << (SHORT_BITS * HALF as u32);

/// Likewise for a quarter.
const SHORT_QUARTER: u64 = 1 << (SHORT_BITS * QUARTER as u32);

/// And for a quarter to the base of keys.
const LONG_QUARTER: u64 = 1 << (DIGIT_BITS * QUARTER as u32);

/// The bits of the last digit of each of two quarters that are set apart.
const LAST_DIGITS: u64 = (SHORT_BASE - 1) * (LONG_QUARTER + 1);

/// And of their last two digits.
const LAST_TWO_DIGITS: u64 = (SHORT_BASE * SHORT_BASE - 1) * (LONG_QUARTER + 1);

/// What one is worth as the last digit of the first half in a word.
const FRONT_PLACE: u128 = 1 << (DIGIT_BITS * (WORD_COLUMNS - HALF) as u32);

/// And as the last digit of the second half.
const BACK_PLACE: u128 = 1 << (DIGIT_BITS * (WORD_COLUMNS - MAX_SHORT_SIZE) as u32);

/// The words of the digits of a short number.
pub(crate) fn short_words(value: u64, size: u32) -> [u128; WORDS]
    requires most { size ≤ MAX_SHORT_SIZE }
    requires value { value < SHORT_BASE ^ size }
    ensures { result ≡ words_of (digits size value) }
{
    let full = value << (SHORT_BITS * (MAX_SHORT_SIZE as u32 - size));
    let mut words = [0; WORDS];
    words[0] = spread_word(full);
    words
}

/// The word of as many digits as a short number has at most.
fn spread_word(full: u64) -> u128
    requires { full < SHORT_BASE ^ MAX_SHORT_SIZE }
    ensures { result ≡ key_number (digits MAX_SHORT_SIZE full) * BASE ^ (WORD_COLUMNS - MAX_SHORT_SIZE) }
{
    let front = spread_half(full / SHORT_HALF);
    let back = spread_half(full % SHORT_HALF);
    u128::from(front) * FRONT_PLACE + u128::from(back) * BACK_PLACE
}

/// Half as many digits to the base of keys. First both quarters are set apart; then of the three digits of each the second is to be worth
/// twice as much, and the first four times as much, at once in both.
fn spread_half(value: u64) -> u64
    requires { value < SHORT_BASE ^ HALF }
    ensures { result ≡ key_number (digits HALF value) }
{
    let apart = value + value / SHORT_QUARTER * (LONG_QUARTER - SHORT_QUARTER);
    4 * apart - (apart & LAST_DIGITS) - 2 * (apart & LAST_TWO_DIGITS)
}
