//! The ids and sides of the entries by their keys.
ghost use Rattle.std.specs.Prelude.{◌≡◌, ◌≢◌, ◌<◌, ◌≤◌, IfOk, IfSome, IfNone, Some, None};
ghost use Rattle.std.specs.Prelude.{◌++◌, ◌∷◌, [], List, length, slice_get};
ghost use Rattle.std.specs.List.{All};
ghost use Rattle.std.specs.Map.{lookup};
ghost use Rattle.grid_keys.specs.Key.{same_key};
ghost use Rattle.grid_keys.specs.declared.key.Packed.{Packed};
ghost use Rattle.search_book.specs.declared.problem.Side.{Side};
ghost use Rattle.search_book.specs.Entries.{id_of, keys, sides};
ghost use Rattle.search_book.specs.Index.{IsIndexOf, IsKnown};

use crate::entry_list::EntryList;
use crate::key_map::{KeyMap, Known};
use grid_keys::Packed;
use memory_core::OutOfMemory;
use std::alloc::Global;
use std::marker::Model;

/// The ids of keys. An id is kept beside its key in a map, with the side of its entry, so that a look-up need not read the entry;
/// or, where the map had no memory for the pair, alone in a list, whose memory was taken before: so each id finds a place, and no
/// call but the first one can fail for lack of memory.
#[derive(Drop)]
pub struct Index {
    by_key: KeyMap,
    spilled: Vec<u32>,
}

impl Model for Index {
    ghost use Rattle.std.specs.Prelude.{vec_capacity};
    ghost use Rattle.search_book.specs.Index.{Indexed};

    ghost Value = { Indexed };

    ghost view = { λ index. record { room = vec_capacity index.spilled; paired = index.by_key; spilled = index.spilled.items } };
}

impl Index {
    /// An empty index with room for `room` ids, of diagrams of at most `columns` columns.
    pub fn reserve(alloc: Global, room: u32, columns: u8) -> Result<Index, OutOfMemory>
        ensures room { IfOk result (λ index. room ≤ index.room) }
        ensures index { IfOk result (λ index. IsIndexOf [] [] index) }
    {
        let by_key = KeyMap::reserve(alloc, room, columns)?;
        let spilled = Vec::with_capacity(alloc, room as usize)?;
        Ok(Index { by_key, spilled })
    }

    /// Adds what is known of a key after all others. While the map has room to spare it asks for no memory, which is not proved;
    /// if the map is refused memory, the id goes to the list alone.
    pub fn add(&mut self, key: Packed, known: Known)
        requires room { length self.old.spilled < self.old.room }
        requires new { lookup (same_key key) self.old.paired ≡ None }
        ensures room { self.new.room ≡ self.old.room }
        ensures index { (old_keys : List Packed) (old_sides : List Side)
            → IsIndexOf old_keys old_sides self.old
            → All (λ (k : Packed). k ≢ key) old_keys
            → known.id ≡ length old_keys
            → known.id ≡ length old_sides
            → IsIndexOf (old_keys ++ key ∷ []) (old_sides ++ known.side ∷ []) self.new }
    {
        if !self.by_key.insert(key, known) {
            self.spilled.push_reserved(known.id);
        }
    }

    /// What is known of a key, if it is in the map at this place, which is the id of its entry where all keys have brief forms and no id
    /// is in the list. The place may be any number.
    pub fn get_at(&self, place: u32, key: &Packed) -> Option<Known>
        ensures { IfSome result (λ known. lookup (same_key key.now) self.now.paired ≡ Some known) }
    {
        self.by_key.get_at(place as usize, key)
    }

    /// What is known of a key, by the entries whose index this is.
    pub fn find(&self, entries: &EntryList, key: &Packed) -> Option<Known>
        requires { IsIndexOf (keys entries.now.entries) (sides entries.now.entries) self.now }
        ensures some { IfSome result (λ known. IsKnown entries.now.entries key.now known) }
        ensures none { IfNone result (id_of entries.now.entries key.now ≡ None) }
    {
        match self.by_key.get(key) {
            Some(known) => Some(known),
            None => spilled_entry(entries, self.spilled.as_slice(), key),
        }
    }
}

/// The first of the ids whose entry has this key, and the side of that entry.
fn spilled_entry(entries: &EntryList, ids: &[u32], key: &Packed) -> Option<Known>
    requires { All (λ id. id < length entries.now.entries) ids.now }
    ensures key { IfSome result (λ known. slice_get (keys entries.now.entries) known.id ≡ Some key.now) }
    ensures side { IfSome result (λ known. slice_get (sides entries.now.entries) known.id ≡ Some known.side) }
    ensures none { IfNone result (All (λ id. slice_get (keys entries.now.entries) id ≢ Some key.now) ids.now) }
{
    for id in ids {
        let entry = entries.at(*id);
        if entry.key == *key {
            return Some(Known {
                id: *id,
                side: entry.side,
            });
        }
    }
    None
}
