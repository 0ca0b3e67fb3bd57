//! What is known of keys, by key.
ghost use Rattle.std.specs.Prelude.{◌≡◌, ◌++◌, ◌∷◌, [], IfOk, IfSome, true, false, Some, None, IsPermutation};
ghost use Rattle.std.specs.Map.{lookup};
ghost use Rattle.grid_keys.specs.Brief.{whole_key};
ghost use Rattle.grid_keys.specs.Key.{same_key};

use crate::problem::Side;
use grid_keys::{BriefKey, Packed, WORD_COLUMNS};
use indexmap::IndexMap;
use memory_core::OutOfMemory;
use std::alloc::Global;
use std::marker::Model;

/// What is known of a key: the id of the entry that has it, and the entry's side.
#[derive(Clone, Copy, PartialEq, Eq)]
pub struct Known {
    pub id: u32,
    pub side: Side,
}

/// Keys with what is known of them, in two maps: a key that has a brief form is kept in that form, which a look-up reads from one line of
/// memory or two; any other key is kept whole. Contracts see the pairs by whole keys.
#[derive(Drop)]
pub struct KeyMap {
    brief: IndexMap<BriefKey, Known>,
    whole: IndexMap<Packed, Known>,
}

impl Model for KeyMap {
    ghost use Rattle.std.specs.Prelude.{List};
    ghost use Rattle.grid_keys.specs.declared.key.Packed.{Packed};
    ghost use Rattle.search_book.specs.declared.key_map.Known.{Known};
    ghost use Rattle.search_book.specs.KeyMap.{pairs, AreWide};

    ghost Value = { List (Packed × Known) };

    ghost view = { λ m. pairs m.brief.entries m.whole.entries };

    ghost invariant = { λ m. AreWide m.whole.entries };
}

impl KeyMap {
    /// Empty maps with room for `room` keys, of diagrams of at most `columns` columns.
    pub fn reserve(alloc: Global, room: u32, columns: u8) -> Result<KeyMap, OutOfMemory>
        ensures { IfOk result (λ map. map ≡ []) }
    {
        let wide = if columns as usize > WORD_COLUMNS {
            room
        } else {
            0
        };
        let brief = IndexMap::with_capacity(alloc, room as usize)?;
        let whole = IndexMap::with_capacity(alloc, wide as usize)?;
        Ok(KeyMap { brief, whole })
    }

    /// What is known of a key.
    pub fn get(&self, key: &Packed) -> Option<Known>
        ensures { result ≡ lookup (same_key key.now) self.now }
    {
        match BriefKey::of(key) {
            Some(brief) => self.brief.get(&brief).copied(),
            None => self.whole.get(key).copied(),
        }
    }

    /// What is known of a key, if it is at this place among the brief keys: they are in the order in which they were added. The place may
    /// be any number.
    pub fn get_at(&self, place: usize, key: &Packed) -> Option<Known>
        ensures { IfSome result (λ known. lookup (same_key key.now) self.now ≡ Some known) }
    {
        match self.brief.get_index(place) {
            Some((stored, known)) => {
                if is_form_of(*stored, key) {
                    Some(*known)
                } else {
                    None
                }
            }
            None => None,
        }
    }

    /// Adds a key that isn't there, and answers true; false where memory was refused.
    pub fn insert(&mut self, key: Packed, known: Known) -> bool
        requires { lookup (same_key key) self.old ≡ None }
        ensures added { result ≡ true → IsPermutation (self.old ++ (key, known) ∷ []) self.new }
        ensures refused { result ≡ false → self.new ≡ self.old }
    {
        match BriefKey::of(&key) {
            Some(brief) => match self.brief.insert(brief, known) {
                Ok(_) => true,
                Err(_) => false,
            },
            None => match self.whole.insert(key, known) {
                Ok(_) => true,
                Err(_) => false,
            },
        }
    }
}

/// Whether this is the brief form of a key.
fn is_form_of(brief: BriefKey, key: &Packed) -> bool
    ensures { result ≡ true → whole_key brief ≡ key.now }
{
    BriefKey::of(key) == Some(brief)
}
