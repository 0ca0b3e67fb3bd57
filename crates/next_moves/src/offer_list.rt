//! Offers in the making.
ghost use Rattle.std.specs.Prelude.{◌≡◌, ◌<◌, ◌++◌, ◌∷◌, [], length};
ghost use Rattle.next_moves.specs.declared.offers.TheConstants.{MAX_OFFERS};

use crate::links::Offer;
use crate::offers::MAX_OFFERS;
use std::marker::Model;

/// At most `MAX_OFFERS` offers, which lie in the value itself. Contracts see their list.
///
/// The places after them keep what was there before, so a list is emptied without writing to them.
#[derive(Drop)]
pub(crate) struct OfferList {
    places: [Offer; MAX_OFFERS],
    count: usize,
}

impl Model for OfferList {
    ghost use Rattle.std.specs.Prelude.{◌≡◌, ◌≤◌, length, take};
    ghost use Rattle.next_moves.specs.declared.offers.TheConstants.{MAX_OFFERS};
    ghost use Rattle.next_moves.specs.Extends.{Listed};

    ghost Value = { Listed };

    ghost view = { λ l. record { items = take l.count l.places } };

    ghost invariant = { λ l. (l.count ≤ MAX_OFFERS) × (length l.places ≡ MAX_OFFERS) };
}

impl OfferList {
    /// An empty list.
    pub(crate) fn new() -> OfferList
        ensures { result.items ≡ [] }
    {
        OfferList {
            places: [Offer::default(); MAX_OFFERS],
            count: 0,
        }
    }

    /// Empties the list.
    pub(crate) fn clear(&mut self)
        ensures { self.new.items ≡ [] }
    {
        self.count = 0;
    }

    /// Appends an offer. There must be room.
    pub(crate) fn push(&mut self, offer: Offer)
        requires { length self.old.items < MAX_OFFERS }
        ensures items { self.new.items ≡ self.old.items ++ offer ∷ [] }
    {
        let count = self.count;
        self.places[count] = offer;
        self.count = count + 1;
    }

    /// The offers.
    pub(crate) fn as_slice(&self) -> &[Offer]
        ensures { result.now ≡ self.now.items }
    {
        &self.places[..self.count]
    }
}
