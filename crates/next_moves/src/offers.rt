//! The offers of a canonical diagram.
ghost use Rattle.std.specs.Prelude.{◌≡◌, ◌≤◌, ◌*◌, [], length};
ghost use Rattle.grid_core.specs.declared.grid.TheConstants.{MAX_SIZE};
ghost use Rattle.grid_core.specs.Diagram.{IsGrid, size};
ghost use Rattle.grid_keys.specs.CanonicalForm.{IsCanonical};
ghost use Rattle.grid_keys.specs.Key.{key_of};
ghost use Rattle.next_moves.specs.Offers.{IsOfferList};

use crate::links::Offer;
use crate::offer_list::OfferList;
use crate::tries::Tries;
use grid_core::{Grid, MAX_SIZE};
use grid_keys::{LeastForm, Packed, pack};
use std::marker::Model;

/// The greatest number of offers: at most twelve for each column.
pub const MAX_OFFERS: usize = 12 * MAX_SIZE;

/// The whole list of offers of a canonical diagram within a cap, in order.
#[derive(Drop)]
pub struct Offers {
    origin: Packed,
    cap: u8,
    list: OfferList,
}

impl Model for Offers {
    ghost use Rattle.next_moves.specs.Offers.{Neighbourhood, IsWholeNeighbourhood};

    ghost Value = { Neighbourhood };

    ghost view = { λ o. record { origin = o.origin; cap = o.cap; offers = o.list.items } };

    ghost invariant = { λ o. IsWholeNeighbourhood (record { origin = o.origin; cap = o.cap; offers = o.list.items }) };
}

impl Offers {
    ghost use Rattle.next_moves.specs.Offers.{IsWholeNeighbourhood};

    /// The offers of a diagram that is its own canonical form, within a cap from its size to `MAX_SIZE`.
    /// The form's shifts are not looked at. Takes no memory.
    pub fn of(form: &LeastForm, cap: u8) -> Offers
        requires canonical { IsCanonical form.now.grid }
        requires least { size form.now.grid ≤ cap }
        requires most { cap ≤ MAX_SIZE }
        ensures origin { result.origin ≡ key_of form.now.grid }
        ensures cap { result.cap ≡ cap }
        ensures offers { IsOfferList form.now.grid cap result.offers }
    {
        let grid = &form.grid;
        let mut offers = Offers {
            origin: pack(grid),
            cap,
            list: OfferList::new(),
        };
        fill(&mut offers.list, grid, cap);
        offers
    }

    /// Makes these the offers of another diagram, as `of` does, in the place of the old ones: a caller that asks for many lists, one
    /// at a time, so has none of them copied.
    pub fn renew(&mut self, form: &LeastForm, cap: u8)
        requires canonical { IsCanonical form.now.grid }
        requires least { size form.now.grid ≤ cap }
        requires most { cap ≤ MAX_SIZE }
        ensures origin { self.new.origin ≡ key_of form.now.grid }
        ensures cap { self.new.cap ≡ cap }
        ensures offers { IsOfferList form.now.grid cap self.new.offers }
    {
        let grid = &form.grid;
        self.origin = pack(grid);
        self.cap = cap;
        self.list.clear();
        fill(&mut self.list, grid, cap);
    }

    /// The key of the diagram whose offers these are.
    pub fn origin(&self) -> Packed
        ensures { result ≡ self.now.origin }
    {
        self.origin
    }

    /// The cap.
    pub fn cap(&self) -> u8
        ensures { result ≡ self.now.cap }
    {
        self.cap
    }

    /// The offers, in order.
    pub fn offers(&self) -> &[Offer]
        ensures offers { result.now ≡ self.now.offers }
        ensures whole { IsWholeNeighbourhood self.now }
    {
        self.list.as_slice()
    }
}

/// Appends all offers of a grid to an empty list.
fn fill(list: &mut OfferList, grid: &Grid, cap: u8)
    requires empty { list.old.items ≡ [] }
    requires least { size grid.now ≤ cap }
    requires most { cap ≤ MAX_SIZE }
    ensures grid { IsGrid grid.now }
    ensures offers { IsOfferList grid.now cap list.new.items }
    ensures count { length list.new.items ≤ 12 * size grid.now }
{
    let _size = grid.size();
    let tries = Tries::on(grid, cap);
    tries.trade_columns(list);
    tries.trade_rows(list);
    tries.destabilise(list);
    tries.stabilise(list);
}
