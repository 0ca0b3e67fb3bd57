//! The roots of a book, with which it begins.
ghost use Rattle.std.specs.Prelude.{◌≡◌, ◌<◌, ◌≤◌, ◌++◌, ◌∷◌, [], length, None};
ghost use Rattle.grid_keys.specs.Key.{key_of};
ghost use Rattle.search_book.specs.declared.problem.Problem.{Problem};
ghost use Rattle.search_book.specs.Bounded.{IsBounded};
ghost use Rattle.search_book.specs.Begin.{Begins, opened, root};
ghost use Rattle.search_book.specs.Entries.{id_of};
ghost use Rattle.search_book.specs.EntryList.{IsWithin};
ghost use Rattle.search_book.specs.Sound.{IsProblem};

use crate::entry::Origin;
use crate::event::{End, Meeting};
use crate::problem::{Problem, Side};
use crate::roll::Roll;
use grid_canon::canonical;
use grid_keys::{LeastForm, pack};

/// Admits the roots of a problem, the canonical forms of its two diagrams.
pub fn admit_roots(roll: &mut Roll, problem: &Problem) -> Option<End>
    requires bounded { IsBounded problem.now }
    requires room { 2 ≤ roll.old.room }
    requires columns { roll.old.columns ≡ problem.now.cap }
    requires none { roll.old.entries ≡ [] }
    ensures rest { roll.new ≡ record roll.old { entries = roll.new.entries } }
    ensures problem { IsProblem problem.now }
    ensures begins { Begins problem.now (record { problem = problem.now; entries = roll.new.entries; history = []; end = result }) }
{
    // each size says that its diagram is a grid
    let _sizes = (problem.first.size(), problem.second.size());
    let first = canonical(&problem.first);
    let second = canonical(&problem.second);
    admit_forms(roll, &first, &second)
}

/// Admits the roots with these forms, of which there is one where the forms are equal: then the sides have met.
fn admit_forms(roll: &mut Roll, first: &LeastForm, second: &LeastForm) -> Option<End>
    requires room { 2 ≤ roll.old.room }
    requires none { roll.old.entries ≡ [] }
    requires first { IsWithin roll.old.columns first.now.grid }
    requires second { IsWithin roll.old.columns second.now.grid }
    ensures rest { roll.new ≡ record roll.old { entries = roll.new.entries } }
    ensures opened { (p : Problem)
        → opened p first.now second.now ≡ record { problem = p; entries = roll.new.entries; history = []; end = result } }
{
    admit_root(roll, Side::First, first);
    if first.grid.same_as(&second.grid) {
        Some(End::Met(Meeting::Roots))
    } else {
        admit_root(roll, Side::Second, second);
        None
    }
}

/// Admits the root of a side, whose key is new.
fn admit_root(roll: &mut Roll, side: Side, form: &LeastForm)
    requires room { length roll.old.entries < roll.old.room }
    requires within { IsWithin roll.old.columns form.now.grid }
    requires new { id_of roll.old.entries (key_of form.now.grid) ≡ None }
    ensures { roll.new ≡ record roll.old { entries = roll.old.entries ++ root side form.now ∷ [] } }
{
    let origin = Origin::Root {
        columns: form.columns,
        rows: form.rows,
    };
    roll.admit(&pack(&form.grid), side, origin);
}
