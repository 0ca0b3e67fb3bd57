//! The path of an entry, as a list of moves.
ghost use Rattle.std.specs.Prelude.{◌≡◌, ◌<◌, ◌++◌, length, IfOk};
ghost use Rattle.std.specs.List.{All};
ghost use Rattle.search_book.specs.Path.{path};
ghost use Rattle.search_book.specs.JoiningWays.{ParentsComeFirst, own_moves, way_down};

use crate::entry::Origin;
use crate::entry_list::EntryList;
use grid_keys::push_shifts;
use grid_moves::Move;
use memory_core::OutOfMemory;
use next_moves::push_link;
use std::alloc::Global;

/// Puts what leads to an entry from its parent, or from its side's diagram, at the end.
fn push_origin(list: &mut Vec<Move>, origin: Origin) -> Result<(), OutOfMemory>
    ensures { IfOk result (λ _. list.new.items ≡ list.old.items ++ own_moves origin) }
{
    match origin {
        Origin::Root { columns, rows } => push_shifts(list, columns, rows),
        Origin::Child { link, .. } => push_link(list, link),
    }
}

/// The entry, its parent, and so on up to the root, by their ids.
fn ancestors(alloc: Global, entries: &EntryList, id: u32) -> Result<Vec<u32>, OutOfMemory>
    requires inside { id < length entries.now.entries }
    requires order { ParentsComeFirst entries.now.entries }
    ensures inside { IfOk result (λ ids. All (λ i. i < length entries.now.entries) ids.items) }
    ensures down { IfOk result (λ ids. way_down entries.now.entries ids.items ≡ path entries.now.entries id) }
{
    let mut ids = Vec::new(alloc);
    let mut here = id;
    loop {
        ids.push(here)?;
        match entries.at(here).origin {
            Origin::Root { .. } => return Ok(ids),
            Origin::Child { parent, .. } => here = parent,
        }
    }
}

/// The path of an entry: its root's shifts, and the links from the root down to it.
pub fn path_of(alloc: Global, entries: &EntryList, id: u32) -> Result<Vec<Move>, OutOfMemory>
    requires inside { id < length entries.now.entries }
    requires order { ParentsComeFirst entries.now.entries }
    ensures { IfOk result (λ list. list.items ≡ path entries.now.entries id) }
{
    let mut ids = ancestors(alloc, entries, id)?;
    let mut list = Vec::new(alloc);
    while let Some(ancestor) = ids.pop() {
        push_origin(&mut list, entries.at(ancestor).origin)?;
    }
    Ok(list)
}
