//! The entries in the order of their ids, in little memory.
ghost use Rattle.std.specs.Prelude.{◌≡◌, ◌<◌, ◌≤◌, ◌++◌, ◌∷◌, [], length, IfOk, IfSome, IfNone};
ghost use Rattle.grid_keys.specs.Brief.{whole_key};
ghost use Rattle.search_book.specs.declared.entry.Entry.{Entry};
ghost use Rattle.search_book.specs.Entries.{StandsAt, at_stage};
ghost use Rattle.search_book.specs.EntryList.{whole_entry, IsSmall, are_brief, Fits};

use crate::entry::{Entry, Origin, Stage};
use crate::problem::Side;
use grid_keys::{BriefKey, WORD_COLUMNS};
use memory_core::OutOfMemory;
use std::alloc::Global;
use std::marker::Model;

/// An entry with its key in brief: it has less than half of the bytes of a whole one.
#[derive(Clone, Copy, Drop)]
struct BriefEntry {
    key: BriefKey,
    side: Side,
    origin: Origin,
    stage: Stage,
}

impl BriefEntry {
    /// The entry with its key in brief.
    #[inline(always)]
    fn of(key: BriefKey, entry: &Entry) -> BriefEntry
        requires { whole_key key ≡ entry.now.key }
        ensures { whole_entry result ≡ entry.now }
    {
        BriefEntry {
            key,
            side: entry.side,
            origin: entry.origin,
            stage: entry.stage,
        }
    }

    /// The entry with its whole key.
    #[inline(always)]
    fn whole(self) -> Entry
        requires { IsSmall self }
        ensures { result ≡ whole_entry self }
    {
        Entry {
            key: self.key.whole(),
            side: self.side,
            origin: self.origin,
            stage: self.stage,
        }
    }
}

/// Entries by their ids, with room for as many as were reserved. Where no diagram has more than `WORD_COLUMNS` columns their keys are kept in
/// brief form. Contracts see whole entries.
#[derive(Drop)]
pub struct EntryList {
    /// The most columns of a diagram. If all diagrams within them have brief keys, the list of whole entries is empty; otherwise the other one is.
    columns: u8,
    brief: Vec<BriefEntry>,
    whole: Vec<Entry>,
}

impl Model for EntryList {
    ghost use Rattle.std.specs.Prelude.{if◌then◌else◌, map, vec_capacity};
    ghost use Rattle.std.specs.List.{All};
    ghost use Rattle.search_book.specs.EntryList.{EntriesIn, whole_entry, IsSmall, are_brief};

    ghost Value = { EntriesIn };

    ghost view = { λ l. record {
      columns = l.columns;
      room = if are_brief l.columns then vec_capacity l.brief else vec_capacity l.whole;
      entries = if are_brief l.columns then map whole_entry l.brief.items else l.whole.items;
    } };

    ghost invariant = { λ l. All IsSmall l.brief.items };
}

/// Whether diagrams of at most so many columns all have brief keys.
#[inline(always)]
fn are_brief(columns: u8) -> bool
    ensures { result ≡ are_brief columns }
{
    columns as usize <= WORD_COLUMNS
}

impl EntryList {
    /// An empty list with room for `room` entries, of diagrams of at most `columns` columns.
    pub fn reserve(alloc: Global, room: u32, columns: u8) -> Result<EntryList, OutOfMemory>
        ensures columns { IfOk result (λ list. list.columns ≡ columns) }
        ensures room { IfOk result (λ list. room ≤ list.room) }
        ensures none { IfOk result (λ list. list.entries ≡ []) }
    {
        let brief_room = if are_brief(columns) { room } else { 0 };
        let whole_room = room - brief_room;
        let brief = Vec::with_capacity(alloc, brief_room as usize)?;
        let whole = Vec::with_capacity(alloc, whole_room as usize)?;
        Ok(EntryList {
            columns,
            brief,
            whole,
        })
    }

    /// The number of entries.
    pub fn len(&self) -> usize
        ensures { result ≡ length self.now.entries }
    {
        if are_brief(self.columns) {
            self.brief.len()
        } else {
            self.whole.len()
        }
    }

    /// The entry with this id, or None where there is none.
    pub fn get(&self, id: u32) -> Option<Entry>
        ensures some { IfSome result (λ e. StandsAt self.now.entries id e) }
        ensures none { IfNone result (length self.now.entries ≤ id) }
    {
        if (id as usize) < self.len() {
            Some(self.at(id))
        } else {
            None
        }
    }

    /// The entry with this id. It is inlined, so that what callers don't read of it need not be made.
    #[inline(always)]
    pub fn at(&self, id: u32) -> Entry
        requires { id < length self.now.entries }
        ensures { StandsAt self.now.entries id result }
    {
        if are_brief(self.columns) {
            self.brief[id as usize].whole()
        } else {
            self.whole[id as usize]
        }
    }

    /// Puts an entry after the others.
    pub fn push(&mut self, entry: Entry)
        requires room { length self.old.entries < self.old.room }
        requires key { Fits self.old.columns entry.key }
        ensures { self.new ≡ record self.old { entries = self.old.entries ++ entry ∷ [] } }
    {
        if are_brief(self.columns) {
            match BriefKey::of(&entry.key) {
                Some(key) => self.brief.push_reserved(BriefEntry::of(key, &entry)),
                // Never: each key here has a brief form.
                None => {}
            }
        } else {
            self.whole.push_reserved(entry);
        }
    }

    /// Puts an entry at another stage.
    pub fn set_stage(&mut self, id: u32, stage: Stage)
        requires { id < length self.old.entries }
        ensures { (e : Entry) → StandsAt self.old.entries id e → self.new ≡ record self.old { entries = at_stage self.old.entries id e stage } }
    {
        if are_brief(self.columns) {
            self.brief[id as usize].stage = stage;
        } else {
            self.whole[id as usize].stage = stage;
        }
    }
}
