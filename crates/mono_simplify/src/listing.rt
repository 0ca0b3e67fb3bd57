//! A class, listed up to a budget.
ghost use Rattle.std.specs.Prelude.{◌<◌, ◌≤◌, length, IfOk};
ghost use Rattle.mono_simplify.specs.Ways.{keys_in, AreLinked};
ghost use Rattle.mono_simplify.specs.Seen.{IsSeen};

use crate::class::Class;
use crate::explore::admit_all;
use crate::least::LeastEnd;
use grid_canon::canonical_key;
use grid_core::Grid;
use grid_keys::LeastForm;
use memory_core::OutOfMemory;
use next_moves::Offers;
use std::alloc::Global;

/// The members of a class that were listed, and whether they are all.
#[derive(Drop)]
pub struct Seen {
    pub class: Class,
    pub end: LeastEnd,
}

/// Lists the class of a grid, breadth first, until each member has had its turn, or the listing has more members than the budget.
/// The list of offers is renewed for each member.
pub fn list_class(
    alloc: Global,
    grid: &Grid,
    budget: u32,
    offers: &mut Offers,
) -> Result<Seen, OutOfMemory>
    requires { 1 ≤ budget }
    ensures some { IfOk result (λ s. 0 < length s.class) }
    ensures ways { IfOk result (λ s. AreLinked grid.now s.class) }
    ensures seen { IfOk result (λ s. IsSeen grid.now budget (keys_in s.class) s.end) }
{
    let size = grid.size();
    let root = canonical_key(grid);
    let mut class = Class::of(alloc, root.key)?;
    let mut place = 0;
    while place < class.len() {
        let form = LeastForm::named_by(class.key_at(place));
        offers.renew(&form, size);
        let over = admit_all(&mut class, place as u32, offers.offers(), budget)?;
        if over {
            return Ok(Seen {
                class,
                end: LeastEnd::Spent { members: budget },
            });
        }
        place += 1;
    }
    Ok(Seen {
        class,
        end: LeastEnd::Whole,
    })
}
