//! Keys: a grid as its size and the words of its rows.
ghost use Rattle.std.specs.Prelude.{◌≡◌, ◌≢◌, ◌<◌, ◌≤◌, ◌+◌, ◌*◌, ◌-◌, ◌^◌, ◌++◌, IfSome, IfNone, fold, length, map, take, drop, slice_index};
ghost use Rattle.std.specs.List.{All, range_with_len};
ghost use Rattle.std.specs.Hash as fed;
ghost use Rattle.std.specs.Cmp.Rules.{hashing};
ghost use Rattle.std.proofs.Common.{rules};
ghost use Rattle.grid_core.specs.declared.grid.TheConstants.{MAX_SIZE};
ghost use Rattle.grid_core.specs.Diagram.{Diagram, IsGrid};
ghost use Rattle.grid_keys.specs.Translation.{translate};
ghost use Rattle.grid_keys.specs.Key.{key_number, filled, words_of, key_of, size_of, IsKeyOf, compare_keys, mixed, more_hashed, digit_at};

use crate::translation::translated_rows;
use arrayvec::ArrayVec;
use grid_core::{Grid, Kind, MAX_SIZE, Rows};
use std::cmp::Ordering;
use std::hash::{Hash, Hasher};

/// A row of a grid is a digit to this base in a word of a key: it is above every row.
pub const BASE: u128 = 64;

/// The base is this power of two: the bits of a digit.
pub const DIGIT_BITS: u32 = 6;

/// How many columns have their rows in one word of a key.
pub const WORD_COLUMNS: usize = 16;

/// How many words of a key the rows of a kind take: enough for the greatest size.
pub const WORDS: usize = (MAX_SIZE + WORD_COLUMNS - 1) / WORD_COLUMNS;

/// The bits of a word above its digits.
const SPARE_BITS: u32 = u128::BITS - DIGIT_BITS * WORD_COLUMNS as u32;

/// The bits of a word below its highest digit.
const BITS_BEHIND_TOP: u32 = u128::BITS - DIGIT_BITS;

/// The key of a grid. Keys are equal exactly for equal grids; they are ordered by size, then by the Xs, then by the Os,
/// so the fields are in this order.
#[derive(Clone, Copy, Default, PartialEq, Eq, PartialOrd, Ord)]
pub struct Packed {
    /// The size of the grid.
    pub size: u8,
    /// The words with the rows of the Xs by column as their digits, the first column's as the highest, filled with 0 after the last column's.
    pub x: [u128; WORDS],
    /// The words of the Os, likewise.
    pub o: [u128; WORDS],
}

impl Packed {
    /// The size of the grid that has this key.
    pub fn size(self) -> u8
        ensures { result ≡ size_of self }
    {
        self.size
    }
}

/// Hashes the size and the first word of each kind, which distinguish grids of up to `WORD_COLUMNS` columns, and for larger grids one more
/// number for each kind, which depends on all words.
impl Hash for Packed {
    ghost hash_input = { λ p. fed.u8 p.size ++ fed.u128 (slice_index p.x 0) ++ fed.u128 (slice_index p.o 0) ++ more_hashed p };

    ghost respects_eq = { Prim.search (hashing, rules) };

    fn hash<H: Hasher>(&self, state: &mut H) {
        self.size.hash(state);
        self.x[0].hash(state);
        self.o[0].hash(state);
        if self.size as usize > WORD_COLUMNS {
            mixed_words(&self.x).hash(state);
            mixed_words(&self.o).hash(state);
        }
    }
}

/// Some words counted into one number.
fn mixed_words(words: &[u128]) -> u128
    ensures { result ≡ fold mixed 0 words.now }
{
    let mut sum = 0;
    for word in words {
        sum = mixed(sum, *word);
    }
    sum
}

/// A checksum with one more number counted in.
fn mixed(sum: u128, number: u128) -> u128
    ensures { result ≡ mixed sum number }
{
    sum.wrapping_mul(31).wrapping_add(number)
}

/// The key of a grid. Takes no memory.
pub fn pack(grid: &Grid) -> Packed
    ensures { result ≡ key_of grid.now }
{
    Packed {
        size: grid.size(),
        x: words_of(grid.rows(Kind::Cross)),
        o: words_of(grid.rows(Kind::Ring)),
    }
}

/// How two keys compare: by size, and then by their words from the left. It is the order that the type derives.
pub fn compare_keys(p: &Packed, q: &Packed) -> Ordering
    ensures { result ≡ compare_keys p.now q.now }
{
    p.cmp(q)
}

/// The grid that has this key, or None exactly where no grid has it. Takes no memory.
pub fn unpack(key: Packed) -> Option<Grid>
    ensures some { IfSome result (λ g. key_of g ≡ key) }
    ensures complete { (d : Diagram) → IsGrid d → key_of d ≡ key → result ≡ Some d }
{
    if key.size as usize > MAX_SIZE {
        return None;
    }
    let x = rows_of_key(&key.x, key.size);
    let o = rows_of_key(&key.o, key.size);
    match Grid::new(x.as_slice(), o.as_slice()) {
        Ok(grid) => if_key(grid, key),
        Err(_) => None,
    }
}

/// The grid that has this key, which must be that of a grid: `unpack` checks that. Takes no memory.
pub fn grid_of(key: Packed) -> Grid
    requires { (d : Diagram) × IsKeyOf key d }
    ensures { (d : Diagram) → IsKeyOf key d → result ≡ d }
{
    Grid::of_rows(rows_of_key(&key.x, key.size), rows_of_key(&key.o, key.size))
}

/// The grid where it has this key.
fn if_key(grid: Grid, key: Packed) -> Option<Grid>
    ensures some { IfSome result (λ g. (g ≡ grid) × (key_of g ≡ key)) }
    ensures none { IfNone result (key_of grid ≢ key) }
{
    if pack(&grid) == key { Some(grid) } else { None }
}

/// The words of some rows.
fn words_of(rows: &[u8]) -> [u128; WORDS]
    requires count { length rows.now ≤ MAX_SIZE }
    requires inside { All (λ r. r < BASE) rows.now }
    ensures { result ≡ words_of rows.now }
{
    let mut words = [0; WORDS];
    for place in 0..WORDS {
        words[place] = word_at(rows, place * WORD_COLUMNS);
    }
    words
}

/// The word of the rows from a column on.
fn word_at(rows: &[u8], from: usize) -> u128
    requires count { length rows.now ≤ MAX_SIZE }
    requires from { from + WORD_COLUMNS ≤ WORDS * WORD_COLUMNS }
    requires inside { All (λ r. r < BASE) rows.now }
    ensures { result ≡ key_number (take WORD_COLUMNS (drop from (filled rows.now))) }
{
    if rows.len() <= from {
        return 0;
    }
    let (_, behind) = rows.split_at(from);
    let (piece, _) = behind.split_at(behind.len().min(WORD_COLUMNS));
    number(piece) << (DIGIT_BITS * (WORD_COLUMNS - piece.len()) as u32)
}

/// The number with these rows as its digits.
fn number(rows: &[u8]) -> u128
    requires count { length rows.now ≤ WORD_COLUMNS }
    requires inside { All (λ r. r < BASE) rows.now }
    ensures { result ≡ key_number rows.now }
{
    let mut value = 0;
    for row in rows {
        value = value * BASE + u128::from(*row);
    }
    value
}

/// The key of the translate after the shift of columns by `columns` and that of rows by `by`, from the rows of a grid: those of its Xs and
/// those of its Os by column. Takes no memory.
pub fn translated_key(x: &[u8], o: &[u8], columns: usize, by: u8) -> Packed
    requires grid { IsGrid (record { x = x.now; o = o.now }) }
    requires columns { columns < length x.now }
    requires by { by < length x.now }
    ensures { result ≡ key_of (translate (record { x = x.now; o = o.now }) columns by) }
{
    let size = x.len() as u8;
    let crosses = translated_rows(x, columns as u8, by, size);
    let rings = translated_rows(o, columns as u8, by, size);
    Packed {
        size,
        x: words_of(crosses.as_slice()),
        o: words_of(rings.as_slice()),
    }
}

/// The rows of the first columns in the words of a key. Each word is moved up, until its digits come out on top.
fn rows_of_key(words: &[u128; WORDS], count: u8) -> Rows
    requires { count ≤ MAX_SIZE }
    ensures { result.items ≡ map (digit_at words.now) (range_with_len 0 count) }
{
    let mut rows = ArrayVec::new();
    let mut rest = 0;
    for c in 0..count {
        let place = c as usize;
        if place % WORD_COLUMNS == 0 {
            rest = words[place / WORD_COLUMNS] << SPARE_BITS;
        }
        rows.push((rest >> BITS_BEHIND_TOP) as u8);
        rest <<= DIGIT_BITS;
    }
    rows
}
