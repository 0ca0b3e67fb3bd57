//! Laws of classes and their listings, over the definitions alone.
ghost use Rattle.std.specs.Prelude.{◌≡◌, ◌≢◌, ◌<◌, ◌+◌, ◌++◌, ◌↔◌, ℕ, List, length, true};
ghost use Rattle.std.specs.List.{All, AllPairs, Contains};
ghost use Rattle.grid_core.specs.Diagram.{Diagram, IsGrid, size};
ghost use Rattle.grid_keys.specs.declared.key.Packed.{Packed};
ghost use Rattle.grid_keys.specs.Translation.{translates};
ghost use Rattle.grid_keys.specs.Key.{key_of};
ghost use Rattle.next_moves.specs.declared.links.Offer.{Offer};
ghost use Rattle.next_moves.specs.Offers.{IsOfferList};
ghost use Rattle.mono_simplify.specs.ExchangeClass.{IsInClass, MayDestabilise, IsIrreducible};
ghost use Rattle.grid_moves.specs.Kinds.{is_destabilisation};
ghost use Rattle.mono_simplify.specs.Listing.{IsListed, IsListing, NoTranslateDestabilises, HasAtMost, HasMoreAndNoneSmaller};

/// The members of the whole listing are exactly those of the class, each once.
pub fn the_listing_is_the_class()
    ensures class { (d : Diagram) (keys : List Packed)
        → IsGrid d
        → IsListing d keys
        → (f : Diagram)
        → IsInClass d f ↔ (IsGrid f × Contains keys (key_of f)) }
    ensures once { (d : Diagram) (turns : ℕ) (keys : List Packed) → IsListed d turns keys → AllPairs (λ p q. p ≢ q) keys }
{}

/// A diagram has one listing after some number of turns, which begins with what it was before, and at most one whole listing.
pub fn the_listing_is_determined()
    ensures turns { (d : Diagram) (turns : ℕ) (keys others : List Packed)
        → IsListed d turns keys
        → IsListed d turns others
        → keys ≡ others }
    ensures longer { (d : Diagram) (more turns : ℕ) (keys others : List Packed)
        → IsListed d turns keys
        → IsListed d (more + turns) others
        → (rest : List Packed) × (others ≡ keys ++ rest) }
    ensures whole { (d : Diagram) (keys others : List Packed) → IsListing d keys → IsListing d others → keys ≡ others }
{}

/// If the whole listing of a diagram has at most some number of members, no number of turns lists more. So the two ends of a simplification
/// exclude each other.
pub fn a_listing_has_not_both_few_and_more_members()
    ensures members { (d : Diagram) (b turns : ℕ) (keys : List Packed)
        → IsListed d turns keys
        → b < length keys
        → HasAtMost d b
        → ⊥ }
    ensures ends { (d : Diagram) (b : ℕ) → HasAtMost d b → HasMoreAndNoneSmaller d b → ⊥ }
{}

/// A destabilisation is legal on some translate of a diagram exactly where one is among its offers at its own size.
pub fn a_legal_destabilisation_is_offered()
    ensures offered { (d e : Diagram) (offers : List Offer)
        → IsGrid d
        → IsOfferList d (size d) offers
        → Contains (translates d) e
        → MayDestabilise e
        → (offer : Offer) × (Contains offers offer × (is_destabilisation offer.link.step ≡ true)) }
    ensures legal { (d : Diagram) (offers : List Offer) (offer : Offer)
        → IsGrid d
        → IsOfferList d (size d) offers
        → Contains offers offer
        → is_destabilisation offer.link.step ≡ true
        → (e : Diagram) × (Contains (translates d) e × MayDestabilise e) }
{}

/// A diagram is irreducible exactly where no member of its whole listing has a translate with a legal destabilisation.
pub fn irreducible_is_of_the_listing()
    ensures { (d : Diagram) (keys : List Packed)
        → IsGrid d
        → IsListing d keys
        → IsIrreducible d ↔ All NoTranslateDestabilises keys }
{}
