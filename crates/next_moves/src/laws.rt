//! Laws of neighbours and offers, over the definitions alone.
ghost use Rattle.std.specs.Prelude.{◌≡◌, ◌≢◌, ◌<◌, ◌≤◌, ◌+◌, ◌*◌, ℕ, List, filter, length};
ghost use Rattle.std.specs.List.{All, AllPairs, Contains};
ghost use Rattle.grid_core.specs.declared.mark.Kind.{Kind};
ghost use Rattle.grid_core.specs.declared.mark.Corner.{Corner};
ghost use Rattle.grid_core.specs.Diagram.{Diagram, IsGrid, size};
ghost use Rattle.grid_core.specs.Parts.{column_span, ends, column_lows, column_highs, row_lows, row_highs};
ghost use Rattle.lane_spans.specs.Columns as lane_columns;
ghost use Rattle.lane_spans.specs.Columns.{span_at};
ghost use Rattle.grid_moves.specs.declared.step.Move.TheVariants.{ExchangeColumns, ExchangeRows, SlideColumns, SlideRows, Stabilise, Destabilise};
ghost use Rattle.grid_moves.specs.Shift.{shifted};
ghost use Rattle.grid_moves.specs.Step.{Step};
ghost use Rattle.grid_moves.specs.Joining.{Joins, JoinsWithin, WithinCap};
ghost use Rattle.grid_keys.specs.Translation.{translate, translates};
ghost use Rattle.grid_keys.specs.CanonicalForm.{IsCanonicalForm, IsCanonical};
ghost use Rattle.grid_keys.specs.Key.{key_of};
ghost use Rattle.next_moves.specs.Neighbours.{IsNeighbour};
ghost use Rattle.next_moves.specs.Tries.{trade_tries, try_column_exchange, try_row_exchange, all_block_tries, all_stabilisation_tries};
ghost use Rattle.next_moves.specs.Offers.{is_legal, is_offered, Leads, IsOfferList, Neighbourhood, IsWholeNeighbourhood};
ghost use Rattle.next_moves.specs.Links.{link_moves};
ghost use Rattle.next_moves.specs.Reach.{IsReached, AreMembers, HasMembers, HasMoreMembers};

use crate::links::{Link, Offer};

/// An exchange on a diagram is an exchange on each translate in which its two columns, or rows, are still side by side, at the place
/// to which they have come, and it leads to the result's translate by the same shifts. A shift by one is such a translate.
pub fn an_exchange_is_one_on_each_translate()
    ensures columns { (d e : Diagram) (c a b : ℕ)
        → Step d (ExchangeColumns c) e
        → a < size d
        → b < size d
        → shifted (size d) a (c + 1) ≡ shifted (size d) a c + 1
        → Step (translate d a b) (ExchangeColumns (shifted (size d) a c)) (translate e a b) }
    ensures rows { (d e : Diagram) (r a b : ℕ)
        → Step d (ExchangeRows r) e
        → a < size d
        → b < size d
        → shifted (size d) b (r + 1) ≡ shifted (size d) b r + 1
        → Step (translate d a b) (ExchangeRows (shifted (size d) b r)) (translate e a b) }
{}

/// A slide on a diagram is likewise a slide on each such translate.
pub fn a_slide_is_one_on_each_translate()
    ensures columns { (d e : Diagram) (c a b : ℕ)
        → Step d (SlideColumns c) e
        → a < size d
        → b < size d
        → shifted (size d) a (c + 1) ≡ shifted (size d) a c + 1
        → Step (translate d a b) (SlideColumns (shifted (size d) a c)) (translate e a b) }
    ensures rows { (d e : Diagram) (r a b : ℕ)
        → Step d (SlideRows r) e
        → a < size d
        → b < size d
        → shifted (size d) b (r + 1) ≡ shifted (size d) b r + 1
        → Step (translate d a b) (SlideRows (shifted (size d) b r)) (translate e a b) }
{}

/// A stabilisation on a diagram is on each of its translates the stabilisation of the same mark, at the column to which it has come, and
/// leads to a translate of the result.
pub fn a_stabilisation_is_one_on_each_translate()
    ensures { (d e : Diagram) (c : ℕ) (kind : Kind) (corner : Corner) (a b : ℕ)
        → Step d (Stabilise c kind corner) e
        → a < size d
        → b < size d
        → (f : Diagram) × (Contains (translates e) f × Step (translate d a b) (Stabilise (shifted (size d) a c) kind corner) f) }
{}

/// A destabilisation on a diagram is on each of its translates the destabilisation of the same block, where its columns and its rows still
/// are side by side, and leads to a translate of the result.
pub fn a_destabilisation_is_one_on_each_translate()
    ensures { (d e : Diagram) (c r a b : ℕ)
        → Step d (Destabilise c r) e
        → a < size d
        → b < size d
        → shifted (size d) a (c + 1) ≡ shifted (size d) a c + 1
        → shifted (size d) b (r + 1) ≡ shifted (size d) b r + 1
        → (f : Diagram) × (Contains (translates e) f × Step (translate d a b) (Destabilise (shifted (size d) a c) (shifted (size d) b r)) f) }
{}

/// The spans of the columns and of the rows, as lane_spans takes them, are those of the diagram.
pub fn spans_are_those_of_the_diagram()
    ensures columns { (d : Diagram) (c : ℕ)
        → c < size d
        → span_at (column_lows d) (column_highs d) c ≡ record { low = (column_span d c).low; high = (column_span d c).high } }
    ensures rows { (d : Diagram) (r : ℕ)
        → r < size d
        → span_at (row_lows d) (row_highs d) r ≡ record { low = (ends d r).low; high = (ends d r).high } }
{}

/// Neighbours round the circle may change places, as lane_spans says by their spans, exactly where their exchange is legal: of the last and
/// the first on the translate on which they are side by side.
pub fn neighbours_trade_places_where_their_exchange_is_legal()
    ensures columns { (d : Diagram) (c : ℕ)
        → IsGrid d
        → c < size d
        → lane_columns.trades (column_lows d) (column_highs d) c ≡ is_legal d (try_column_exchange (size d) c) }
    ensures rows { (d : Diagram) (r : ℕ)
        → IsGrid d
        → r < size d
        → lane_columns.trades (row_lows d) (row_highs d) r ≡ is_legal d (try_row_exchange (size d) r) }
{}

/// The key of every neighbour, over all translates and all moves but shifts, is that of some offer.
pub fn every_neighbour_is_offered()
    ensures { (d f : Diagram) (cap : ℕ) (offers : List Offer)
        → IsGrid d
        → IsOfferList d cap offers
        → IsNeighbour d cap f
        → (offer : Offer) × (Contains offers offer × (key_of f ≡ offer.key)) }
{}

/// Every offer is a neighbour: its link leads from the diagram to the neighbour of its key.
pub fn every_offer_is_a_neighbour()
    ensures { (d : Diagram) (cap : ℕ) (offers : List Offer) (offer : Offer)
        → IsGrid d
        → IsOfferList d cap offers
        → Contains offers offer
        → (f : Diagram) × (IsNeighbour d cap f × (key_of f ≡ offer.key) × Leads d offer.link f) }
{}

/// Of the tries on a grid of size n at most 2n exchanges and slides together, 2n destabilisations and 8n stabilisations are offered.
pub fn how_many_tries_are_offered()
    ensures trades { (d : Diagram) (cap : ℕ) → length (filter (is_offered d cap) (trade_tries (size d))) ≤ 2 * size d }
    ensures destabilisations { (d : Diagram) (cap : ℕ)
        → IsGrid d
        → length (filter (is_offered d cap) (all_block_tries (size d))) ≤ 2 * size d }
    ensures stabilisations { (d : Diagram) (cap : ℕ) → length (filter (is_offered d cap) (all_stabilisation_tries (size d))) ≤ 8 * size d }
{}

/// A link that leads somewhere is a list of moves, its shifts and its step, that joins the two diagrams, and none on the way is larger than the larger end.
pub fn a_link_is_a_list_of_moves()
    ensures joined { (d f : Diagram) (link : Link) → IsGrid d → Leads d link f → Joins d (link_moves link) f }
    ensures within { (d f : Diagram) (link : Link) (cap : ℕ)
        → IsGrid d
        → Leads d link f
        → size d ≤ cap
        → size f ≤ cap
        → JoinsWithin cap d (link_moves link) f }
{}

/// A link leads from a diagram to at most one, and a diagram has at most one list of offers within a cap.
pub fn the_offers_are_determined()
    ensures link { (d e f : Diagram) (link : Link) → Leads d link e → Leads d link f → e ≡ f }
    ensures list { (d : Diagram) (cap : ℕ) (offers others : List Offer)
        → IsOfferList d cap offers
        → IsOfferList d cap others
        → offers ≡ others }
{}

/// What is closed under neighbours is complete: a list of grids that has the form of a diagram, and with each of its
/// diagrams all neighbours within the cap, has every canonical diagram that moves reach within the cap.
pub fn what_is_closed_under_neighbours_has_all_that_moves_reach()
    ensures { (members : List Diagram) (a : Diagram) (cap : ℕ)
        → IsGrid a
        → All IsGrid members
        → ((f : Diagram) → IsCanonicalForm a f → Contains members f)
        → ((f g : Diagram) → Contains members f → IsNeighbour f cap g → Contains members g)
        → (f : Diagram)
        → IsCanonical f
        → WithinCap a f cap
        → Contains members f }
{}

/// A list of different diagrams that moves reach from two diagrams, closed under neighbours and with both forms, is
/// all that they reach.
pub fn a_closed_list_of_what_is_reached_is_all_of_it()
    ensures { (members : List Diagram) (a b : Diagram) (cap : ℕ)
        → IsGrid a
        → IsGrid b
        → All IsGrid members
        → AllPairs (λ d e. d ≢ e) members
        → All (IsReached a b cap) members
        → ((f : Diagram) → IsCanonicalForm a f → Contains members f)
        → ((f : Diagram) → IsCanonicalForm b f → Contains members f)
        → ((f g : Diagram) → Contains members f → IsNeighbour f cap g → Contains members g)
        → AreMembers (IsReached a b cap) members }
{}

/// There is at most one number of the diagrams that moves reach, and where there are more than some number, it is larger.
pub fn there_is_one_number_of_members()
    ensures one { (a b : Diagram) (cap k l : ℕ) → HasMembers (IsReached a b cap) k → HasMembers (IsReached a b cap) l → k ≡ l }
    ensures more { (a b : Diagram) (cap k m : ℕ)
        → HasMembers (IsReached a b cap) k
        → HasMoreMembers (IsReached a b cap) m
        → m < k }
{}

/// A neighbour within the cap and a canonical form are reached within the cap.
pub fn neighbours_and_forms_are_reached()
    ensures neighbour { (d f : Diagram) (cap : ℕ) → IsGrid d → size d ≤ cap → IsNeighbour d cap f → WithinCap d f cap }
    ensures form { (d f : Diagram) (cap : ℕ) → IsGrid d → size d ≤ cap → IsCanonicalForm d f → WithinCap d f cap }
{}

/// Whole lists of offers are those of the grid that their key names.
pub fn offers_are_those_of_their_key()
    ensures { (n : Neighbourhood) (d : Diagram)
        → IsWholeNeighbourhood n
        → IsGrid d
        → key_of d ≡ n.origin
        → IsOfferList d n.cap n.offers }
{}
