//! Numbers of 64 bits as lists of at most `MAX_SHORT_SIZE` digits to the base `SHORT_BASE`, the highest first: each digit is the row of a column.
ghost use Rattle.std.specs.Prelude.{◌≡◌, ◌<◌, ◌≤◌, ◌+◌, ◌-◌, ◌*◌, ◌/◌, ◌^◌, ◌++◌, ◌∷◌, ℕ, length, map, take, drop, replicate, slice_index, slice_set};
ghost use Rattle.std.specs.List.{All, insert, remove, swap};
ghost use Rattle.grid_core.specs.Places.{lifted, lowered};
ghost use Rattle.grid_core.specs.Diagram.{IsOneEach};
ghost use Rattle.grid_moves.specs.Shift.{shifted};
ghost use Rattle.grid_moves.specs.Exchange.{exchanged};
ghost use Rattle.grid_canon.specs.Digits.{short_number, digits, lowered_each, mark, AreLowDigits};

/// The greatest size of a short grid: its rows of a kind fit into 64 bits.
pub const MAX_SHORT_SIZE: usize = 12;

/// A row of a short grid is a digit to this base: at least twice as high as every row, so that each digit has a guard.
pub(crate) const SHORT_BASE: u64 = 32;

/// The base is this power of two.
pub(crate) const SHORT_BITS: u32 = 5;

/// The number with as many digits 1 as fit.
const ONES: u64 = ((1 << (SHORT_BITS * MAX_SHORT_SIZE as u32)) - 1) / (SHORT_BASE - 1);

/// The highest bit of a digit, which no row below `MAX_SHORT_SIZE` has: a digit with it can be lowered by any row, and borrows nothing from the
/// digit before it.
pub(crate) const GUARD: u64 = SHORT_BASE / 2;

/// The number with these rows as its digits.
pub(crate) fn number_of(rows: &[u8]) -> u64
    requires count { length rows.now ≤ MAX_SHORT_SIZE }
    requires inside { All (λ r. r < SHORT_BASE) rows.now }
    ensures { result ≡ short_number rows.now }
{
    let mut value = 0;
    for row in rows {
        value = value * SHORT_BASE + u64::from(*row);
    }
    value
}

/// The number with as many digits 1.
fn ones(count: u32) -> u64
    requires { count ≤ MAX_SHORT_SIZE }
    ensures { result ≡ short_number (replicate count 1) }
{
    ONES >> (SHORT_BITS * (MAX_SHORT_SIZE as u32 - count))
}

/// The number all of whose digits are this one.
pub(crate) fn repeated(digit: u64, count: u32) -> u64
    requires digit { digit < SHORT_BASE }
    requires most { count ≤ MAX_SHORT_SIZE }
    ensures fits { result < SHORT_BASE ^ count }
    ensures each { (c : ℕ) → c < count → slice_index (digits count result) c ≡ digit }
{
    digit * ones(count)
}

/// The guards of as many digits.
pub(crate) fn guards(count: u32) -> u64
    requires { count ≤ MAX_SHORT_SIZE }
    ensures fits { result < SHORT_BASE ^ count }
    ensures each { (c : ℕ) → c < count → slice_index (digits count result) c ≡ GUARD }
{
    repeated(GUARD, count)
}

/// The first digit.
pub(crate) fn first_digit(value: u64, size: u32) -> u64
    requires least { 0 < size }
    requires most { size ≤ MAX_SHORT_SIZE }
    ensures { result ≡ value / SHORT_BASE ^ (size - 1) }
{
    value >> (SHORT_BITS * (size - 1))
}

/// The digits from a place on, and then those before it.
pub(crate) fn cut(value: u64, place: u32, size: u32) -> u64
    requires place { place < size }
    requires most { size ≤ MAX_SHORT_SIZE }
    requires value { value < SHORT_BASE ^ size }
    ensures { result ≡ short_number (drop place (digits size value) ++ take place (digits size value)) }
{
    let behind = SHORT_BITS * (size - place);
    let front = value >> behind;
    ((value - (front << behind)) << (SHORT_BITS * place)) + front
}

/// Each digit lower by as many, round the circle of `size`: lowered with its guard, a digit lacks it where it was below.
pub(crate) fn lowered(value: u64, by: u64, size: u32) -> u64
    requires most { size ≤ MAX_SHORT_SIZE }
    requires value { value < SHORT_BASE ^ size }
    requires by { by < size }
    requires inside { All (λ r. r < size) (digits size value) }
    ensures { result ≡ short_number (map (shifted size by) (digits size value)) }
{
    let ones = ones(size);
    let guards = GUARD * ones;
    let taken = by * ones;
    let below = (guards - ((value + guards - taken) & guards)) / GUARD;
    value + u64::from(size) * below - taken
}

/// Each digit lower by the one of another number in its place, likewise.
pub(crate) fn lowered_each(value: u64, by: u64, size: u32) -> u64
    requires most { size ≤ MAX_SHORT_SIZE }
    requires value { value < SHORT_BASE ^ size }
    requires by { by < SHORT_BASE ^ size }
    requires inside { All (λ r. r < size) (digits size value) }
    requires by_inside { All (λ r. r < size) (digits size by) }
    ensures { result ≡ short_number (lowered_each size (digits size value) (digits size by)) }
{
    let guards = GUARD * ones(size);
    let below = (guards - ((value + guards - by) & guards)) / GUARD;
    value + u64::from(size) * below - by
}

/// The guards of the digits that are below those of another number in their places: lowered by these with their guards, they lack them.
pub(crate) fn below(value: u64, other: u64, size: u32) -> u64
    requires most { size ≤ MAX_SHORT_SIZE }
    requires value { value < SHORT_BASE ^ size }
    requires other { other < SHORT_BASE ^ size }
    requires inside { All (λ r. r < GUARD) (digits size value) }
    requires other_inside { All (λ r. r < GUARD) (digits size other) }
    ensures fits { result < SHORT_BASE ^ size }
    ensures marked { (c : ℕ) → c < size → slice_index (digits size result) c ≡ mark (slice_index (digits size other) c) (slice_index (digits size value) c) }
{
    let guards = GUARD * ones(size);
    guards - ((value + guards - other) & guards)
}

/// The guards of the digits that are below some bound, the least one from 2 on for which there are any: lowered by it with their guards,
/// these digits lack them. That it is the least bound only spares work, and is not proved.
pub(crate) fn low_digits(value: u64, size: u32) -> u64
    requires least { 2 ≤ size }
    requires most { size ≤ MAX_SHORT_SIZE }
    requires value { value < SHORT_BASE ^ size }
    requires inside { All (λ r. r < size) (digits size value) }
    ensures { AreLowDigits size value result }
{
    let ones = ones(size);
    let guards = GUARD * ones;
    for bound in 2..u64::from(size) {
        let marks = guards - ((value + guards - bound * ones) & guards);
        if marks != 0 {
            return marks;
        }
    }
    guards
}

/// How many digits stand after the first one that isn't 0.
pub(crate) fn digits_behind(value: u64) -> u32
    requires { 0 < value }
    ensures least { SHORT_BASE ^ result ≤ value }
    ensures most { value < SHORT_BASE ^ (result + 1) }
{
    value.ilog2() / SHORT_BITS
}

/// Each digit one higher that is at or above a row: lowered by the row with its guard, it has it still.
pub(crate) fn lifted(value: u64, row: u64, size: u32) -> u64
    requires most { size < MAX_SHORT_SIZE }
    requires value { value < SHORT_BASE ^ size }
    requires row { row ≤ size }
    requires inside { All (λ r. r < size) (digits size value) }
    ensures { result ≡ short_number (map (lifted row) (digits size value)) }
{
    let ones = ones(size);
    let guards = GUARD * ones;
    value + ((value + guards - row * ones) & guards) / GUARD
}

/// The digits with one more put in at a place.
pub(crate) fn with_digit(value: u64, digit: u64, place: u32, size: u32) -> u64
    requires place { place ≤ size }
    requires most { size < MAX_SHORT_SIZE }
    requires value { value < SHORT_BASE ^ size }
    requires digit { digit < SHORT_BASE }
    ensures { result ≡ short_number (insert (digits size value) place digit) }
{
    let behind = SHORT_BITS * (size - place);
    let front = value >> behind;
    (((front << SHORT_BITS) + digit) << behind) + (value - (front << behind))
}

/// The digits without that of a place.
pub(crate) fn without_digit(value: u64, place: u32, size: u32) -> u64
    requires place { place < size }
    requires most { size ≤ MAX_SHORT_SIZE }
    requires value { value < SHORT_BASE ^ size }
    ensures { result ≡ short_number (remove (digits size value) place) }
{
    let behind = SHORT_BITS * (size - place - 1);
    let front = value >> behind;
    ((front >> SHORT_BITS) << behind) + (value - (front << behind))
}

/// Each digit one lower that is above a row: lowered by the row after it with its guard, it has it still.
pub(crate) fn dropped(value: u64, row: u64, size: u32) -> u64
    requires most { size ≤ MAX_SHORT_SIZE }
    requires value { value < SHORT_BASE ^ size }
    requires row { row < GUARD }
    requires inside { All (λ r. r < GUARD) (digits size value) }
    ensures { result ≡ short_number (map (lowered row) (digits size value)) }
{
    let ones = ones(size);
    let guards = GUARD * ones;
    value - ((value + guards - (row + 1) * ones) & guards) / GUARD
}

/// The digit at a place.
pub(crate) fn nth_digit(value: u64, place: u32, size: u32) -> u64
    requires place { place < size }
    requires most { size ≤ MAX_SHORT_SIZE }
    requires value { value < SHORT_BASE ^ size }
    ensures { result ≡ slice_index (digits size value) place }
{
    (value >> (SHORT_BITS * (size - place - 1))) % SHORT_BASE
}

/// The digits with that of a place and the next one in each other's place.
pub(crate) fn swapped(value: u64, place: u32, size: u32) -> u64
    requires place { place + 1 < size }
    requires most { size ≤ MAX_SHORT_SIZE }
    requires value { value < SHORT_BASE ^ size }
    ensures { result ≡ short_number (swap (digits size value) place (place + 1)) }
{
    let near = nth_digit(value, place, size);
    let far = nth_digit(value, place + 1, size);
    let behind = SHORT_BITS * (size - place - 2);
    value + ((far * SHORT_BASE + near) << behind) - ((near * SHORT_BASE + far) << behind)
}

/// Each digit after two neighbouring rows have exchanged their numbers: as a digit, what it is when lifted at the first of them, and what
/// it is when lifted after both, together are the new digit and twice what it is when lifted at the second.
pub(crate) fn exchanged(value: u64, row: u64, size: u32) -> u64
    requires most { size < MAX_SHORT_SIZE }
    requires value { value < SHORT_BASE ^ size }
    requires row { row + 1 < size }
    requires inside { All (λ r. r < size) (digits size value) }
    ensures { result ≡ short_number (map (exchanged row) (digits size value)) }
{
    let both = lifted(value, row, size) + lifted(value, row + 2, size);
    value + both - 2 * lifted(value, row + 1, size)
}

/// The digits with one more at a place that has 0.
fn filled(value: u64, digit: u64, place: u32, size: u32) -> u64
    requires place { place < size }
    requires most { size ≤ MAX_SHORT_SIZE }
    requires value { value < SHORT_BASE ^ size }
    requires digit { digit < SHORT_BASE }
    requires free { slice_index (digits size value) place ≡ 0 }
    ensures fits { result < SHORT_BASE ^ size }
    ensures filled { digits size result ≡ slice_set (digits size value) place digit }
{
    value + (digit << (SHORT_BITS * (size - place - 1)))
}

/// By number its place among the digits, each number below the size being one of them.
pub(crate) fn places(value: u64, size: u32) -> u64
    requires most { size ≤ MAX_SHORT_SIZE }
    requires value { value < SHORT_BASE ^ size }
    requires each { IsOneEach size (digits size value) }
    ensures fits { result < SHORT_BASE ^ size }
    ensures places { (c : ℕ) → c < size → slice_index (digits size result) (slice_index (digits size value) c) ≡ c }
{
    let mut places = 0;
    for place in 0..size {
        let number = nth_digit(value, place, size);
        places = filled(places, u64::from(place), number as u32, size);
    }
    places
}
