//! At which ids the keys of a shared book may be found.
ghost use Rattle.std.specs.Prelude.{◌≡◌};

use crate::hand::Hand;
use crate::holding::taken;
use crate::locked::allows_plenty;
use grid_keys::{Packed, WORD_COLUMNS};
use next_moves::Offer;
use search_book::{NO_HINT, Problem};
use std::alloc::{AllocError, Global};
use std::sync::{Mutex, Wait};

/// What one is worth in the upper half of a word.
const UPPER: u64 = 1 << 32;

/// Odd numbers by which the halves of a key's words are multiplied.
const FACTORS: [u64; 4] = [
    0x9e37_79b9_7f4a_7c15,
    0xc2b2_ae3d_27d4_eb4f,
    0x1656_67b1_9e37_79f9,
    0xd6e8_feb8_6659_fd93,
];

/// Ids of entries by the keys that they have, under a lock beside that of the book; or none. A worker takes this lock twice for all that it
/// has in hand, and holds no other meanwhile.
#[derive(Drop)]
pub struct Hints {
    lock: Option<Mutex<HintTable>>,
}

impl Hints {
    /// Hints for the keys of a book of this problem. There are none where there can't be plenty of entries; where the cap is above
    /// `WORD_COLUMNS`, since the place of a key in the index then needn't be the id of its entry; or where memory is refused.
    pub fn new(alloc: Global, problem: &Problem) -> Hints {
        if !allows_plenty(problem.budget) || problem.cap as usize > WORD_COLUMNS {
            return Hints { lock: None };
        }
        match HintTable::reserve(alloc, problem.budget) {
            Ok(table) => Hints {
                lock: Some(Mutex::new(table)),
            },
            Err(_) => Hints { lock: None },
        }
    }

    /// Notes the ids that the last settlements of a hand left at its places with tasks.
    pub fn note<R: Wait>(&self, rt: &R, hand: &Hand) {
        if let Some(lock) = &self.lock {
            hand.note(&mut taken(lock, rt));
        }
    }

    /// Looks up ids for the offers of a hand.
    pub fn look<R: Wait>(&self, rt: &R, hand: &mut Hand)
        ensures { hand.new ≡ hand.old }
    {
        if let Some(lock) = &self.lock {
            hand.look(&taken(lock, rt));
        }
    }
}

/// Ids of entries by the keys that they have. Nothing is proved of an id: it may be that of another key, or of no entry. A word has a part
/// of a key's hash in its upper half and an id in its lower one.
#[derive(Drop)]
pub struct HintTable {
    words: Vec<u64>,
}

impl HintTable {
    /// An empty table for so many keys.
    fn reserve(alloc: Global, keys: u32) -> Result<HintTable, AllocError> {
        let words = blank_words(alloc, keys)?;
        Ok(HintTable { words })
    }

    /// Puts an id for the key of each offer at its place, or `NO_HINT`.
    pub fn look(&self, offers: &[Offer], ids: &mut [u32]) {
        for at in 0..offers.len() {
            if let Some(id) = ids.get_mut(at) {
                *id = self.look_one(&offers[at].key);
            }
        }
    }

    /// Notes the id at the place of each offer, but `NO_HINT`.
    pub fn note(&mut self, offers: &[Offer], ids: &[u32]) {
        for at in 0..offers.len() {
            if let Some(id) = ids.get(at) {
                if *id != NO_HINT {
                    self.note_one(&offers[at].key, *id);
                }
            }
        }
    }

    /// The id that was noted for a key, or for another one in its place.
    fn look_one(&self, key: &Packed) -> u32 {
        let hash = hash_of(key);
        match self.words.get(place_of(hash, self.words.len())) {
            Some(word) if *word / UPPER == hash % UPPER => (*word % UPPER) as u32,
            _ => NO_HINT,
        }
    }

    /// Notes the id of a key.
    fn note_one(&mut self, key: &Packed, id: u32) {
        let hash = hash_of(key);
        let place = place_of(hash, self.words.len());
        if let Some(word) = self.words.get_mut(place) {
            *word = hash % UPPER * UPPER + u64::from(id);
        }
    }
}

/// Twice as many words as keys.
fn blank_words(alloc: Global, keys: u32) -> Result<Vec<u64>, AllocError> {
    let count = keys as usize * 2;
    let mut words = Vec::with_capacity(alloc, count)?;
    for _ in 0..count {
        words.push_reserved(0u64);
    }
    Ok(words)
}

/// A number for a key, whose upper half names a place and whose lower half distinguishes keys of one place.
fn hash_of(key: &Packed) -> u64 {
    let x = key.x[0];
    let o = key.o[0];
    let of_x = lower(x).wrapping_mul(FACTORS[0]) ^ upper(x).wrapping_mul(FACTORS[1]);
    let of_o = lower(o).wrapping_mul(FACTORS[2]) ^ upper(o).wrapping_mul(FACTORS[3]);
    let both = of_x ^ of_o;
    both ^ both / UPPER
}

/// The lower half of a word of a key.
fn lower(word: u128) -> u64 {
    (word % (1 << 64)) as u64
}

/// The upper half of a word of a key.
fn upper(word: u128) -> u64 {
    (word / (1 << 64)) as u64
}

/// The place for a hash among so many, of which there are less than two to the power of 32.
fn place_of(hash: u64, places: usize) -> usize {
    ((hash / UPPER).saturating_mul(places as u64) / UPPER) as usize
}
