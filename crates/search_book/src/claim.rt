//! The ticket of a claim.
ghost use Rattle.std.specs.Prelude.{◌≡◌, ◌<◌, length};
ghost use Rattle.grid_core.specs.Diagram.{Diagram};
ghost use Rattle.search_book.specs.Entries.{StandsAt};
ghost use Rattle.search_book.specs.declared.entry.Entry.{Entry};
ghost use Rattle.search_book.specs.Sound.{NamesDiagram};

use crate::answer::Ticket;
use crate::entry_list::EntryList;
use grid_keys::LeastForm;

/// The ticket of an entry, whose key names a diagram.
pub fn ticket(entries: &EntryList, id: u32) -> Ticket
    requires inside { id < length entries.now.entries }
    requires named { (e : Entry) → StandsAt entries.now.entries id e → (d : Diagram) × NamesDiagram e.key d }
    ensures id { result.id ≡ id }
    ensures form { (e : Entry) (d : Diagram) → StandsAt entries.now.entries id e → NamesDiagram e.key d → result.form.grid ≡ d }
    ensures columns { result.form.columns ≡ 0 }
    ensures rows { result.form.rows ≡ 0 }
{
    Ticket {
        id,
        form: LeastForm::named_by(entries.at(id).key),
    }
}
