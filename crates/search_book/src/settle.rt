//! The offers of an entry are taken, and the entry is settled.
ghost use Rattle.std.specs.Prelude.{◌≡◌, ◌≤◌, ◌<◌, ℕ, length, Some, None, IsTrue, true, ◌↔◌};
ghost use Rattle.std.specs.List.{All};
ghost use Rattle.next_moves.specs.declared.links.Offer.{Offer};
ghost use Rattle.search_book.specs.Entries.{StandsAt, id_of};
ghost use Rattle.search_book.specs.declared.entry.Entry.{Entry};
ghost use Rattle.search_book.specs.EntryList.{Fits};
ghost use Rattle.search_book.specs.Settle.{met_or_passed_over, admitted_or_spent, taken_one, taken_all, settled_whole, settled_entries};
ghost use Rattle.search_book.specs.Index.{IsPassedOver};
ghost use Rattle.search_book.specs.Roll.{is_in_flight};
ghost use Rattle.search_book.specs.Outcome.{end_of};
ghost use Rattle.search_book.specs.Answers.{asked_by};

use crate::answer::Held;
use crate::entry::Origin;
use crate::event::{End, Meeting};
use crate::key_map::Known;
use crate::problem::Side;
use crate::roll::Roll;
use grid_keys::Packed;
use next_moves::{Offer, Offers};
use std::slice;

/// What a worker asks to settle with these offers.
pub fn asked_by(worker: u32, offers: &Offers) -> Held
    ensures { result ≡ asked_by worker offers.now }
{
    Held {
        worker,
        key: offers.origin(),
        cap: offers.cap(),
    }
}

/// Whether what is in flight is what was asked.
pub fn is_held(held: Option<Held>, asked: Held) -> bool
    ensures { IsTrue result ↔ (held ≡ Some asked) }
{
    held == Some(asked)
}

/// Takes the offers of an entry in flight, and settles it where none of them ends the book; answers why the book is over
/// where it now is. The hints are those of `Book::settle_hinted`.
pub fn settle_entry(
    roll: &mut Roll,
    budget: u32,
    id: u32,
    offers: &[Offer],
    hints: &mut [u32],
) -> Option<End>
    requires room { budget ≤ roll.old.room }
    requires fit { All (λ (o : Offer). Fits roll.old.columns o.key) offers.now }
    requires inside { id < length roll.old.entries }
    requires in_flight { (e : Entry) → StandsAt roll.old.entries id e → is_in_flight e ≡ true }
    ensures rest { roll.new ≡ record roll.old { entries = roll.new.entries } }
    ensures settled { (e : Entry)
        → StandsAt roll.old.entries id e
        → settled_entries budget id e roll.old.entries offers.now ≡ record { entries = roll.new.entries; end = result } }
{
    let side = roll.entries().at(id).side;
    let parent = Parent { id, side, budget };
    let end = take_all(roll, parent, offers, hints);
    if end.is_some() {
        return end;
    }
    settle_whole(roll, id)
}

/// A hint that is the id of no entry.
pub const NO_HINT: u32 = u32::MAX;

/// What one offer of an entry comes to.
#[derive(Clone, Copy)]
enum Outcome {
    /// It was passed over or admitted, and the next one follows.
    GoesOn,
    /// An entry of the other side has its key: the one with this id.
    Met { other: u32 },
    /// No entry has its key, and there are as many as the budget.
    Refused,
}

/// The entry whose offers are taken, by its id and its side, and the budget of the book.
#[derive(Clone, Copy)]
struct Parent {
    id: u32,
    side: Side,
    budget: u32,
}

/// Takes the offers of an entry in order, and answers why the book is over where one of them ends it.
fn take_all(roll: &mut Roll, parent: Parent, offers: &[Offer], hints: &mut [u32]) -> Option<End>
    requires room { parent.budget ≤ roll.old.room }
    requires fit { All (λ (o : Offer). Fits roll.old.columns o.key) offers.now }
    ensures rest { roll.new ≡ record roll.old { entries = roll.new.entries } }
    ensures taken { taken_all parent.budget parent.id parent.side roll.old.entries offers.now
        ≡ record { entries = roll.new.entries; end = result } }
{
    if hints.is_empty() {
        take_each(roll, parent, offers)
    } else {
        take_each_hinted(roll, parent, offers, hints)
    }
}

/// Takes the offers without hints.
fn take_each(roll: &mut Roll, parent: Parent, offers: &[Offer]) -> Option<End>
    requires room { parent.budget ≤ roll.old.room }
    requires fit { All (λ (o : Offer). Fits roll.old.columns o.key) offers.now }
    ensures rest { roll.new ≡ record roll.old { entries = roll.new.entries } }
    ensures taken { taken_all parent.budget parent.id parent.side roll.old.entries offers.now
        ≡ record { entries = roll.new.entries; end = result } }
{
    for offer in offers {
        match take(roll, parent, offer) {
            Outcome::GoesOn => {}
            Outcome::Met { other } => return Some(met_by(parent.id, other, offer)),
            Outcome::Refused => return Some(End::Spent { refused: offer.key }),
        }
    }
    None
}

/// Takes the offers with the hints, and puts the ids of the entries that were admitted in their places.
fn take_each_hinted(
    roll: &mut Roll,
    parent: Parent,
    offers: &[Offer],
    hints: &mut [u32],
) -> Option<End>
    requires room { parent.budget ≤ roll.old.room }
    requires fit { All (λ (o : Offer). Fits roll.old.columns o.key) offers.now }
    ensures rest { roll.new ≡ record roll.old { entries = roll.new.entries } }
    ensures taken { taken_all parent.budget parent.id parent.side roll.old.entries offers.now
        ≡ record { entries = roll.new.entries; end = result } }
{
    sift(roll, parent.side, offers, hints);
    let mut at = 0usize;
    let mut next = roll.len();
    for offer in offers {
        let place = at;
        at = at.saturating_add(1);
        let end = take_hinted(roll, parent, offer, hint_at(hints, place));
        if end.is_some() {
            return end;
        }
        next = note(roll, hints, place, next);
    }
    None
}

/// The end by an offer of entry `id` with the key of entry `other`, which is of the other side.
fn met_by(id: u32, other: u32, offer: &Offer) -> End
    ensures { result ≡ End.Met (Meeting.Offered id other offer.now.link) }
{
    let link = offer.link;
    End::Met(Meeting::Offered { id, other, link })
}

/// The hint at a place, or `NO_HINT` after the hints.
fn hint_at(hints: &[u32], place: usize) -> u32 {
    match hints.get(place) {
        Some(hint) => *hint,
        None => NO_HINT,
    }
}

/// Puts `NO_HINT` for each hint at whose place the index has not the key of its offer with this side. A read of the index waits for memory;
/// here no read waits for another, so that they wait side by side, and when the offers are taken what they read is near.
fn sift(roll: &Roll, side: Side, offers: &[Offer], hints: &mut [u32]) {
    for at in 0..offers.len().min(hints.len()) {
        if let Some(hint) = hints.get_mut(at) {
            if !is_hinted(roll, *hint, &offers[at].key, side) {
                *hint = NO_HINT;
            }
        }
    }
}

/// Puts the id of the entry that was admitted into the hints, which is the number of entries before, or `NO_HINT` where none was. Answers
/// the number of entries now; after the hints that before.
fn note(roll: &Roll, hints: &mut [u32], place: usize, before: u32) -> u32 {
    match hints.get_mut(place) {
        Some(hint) => {
            let after = roll.len();
            *hint = if before < after { before } else { NO_HINT };
            after
        }
        None => before,
    }
}

/// Whether the index has this key with this side at the place of the hint.
fn is_hinted(roll: &Roll, hint: u32, key: &Packed, side: Side) -> bool
    ensures { result ≡ true → IsPassedOver roll.now.entries side key.now }
{
    if hint == NO_HINT {
        false
    } else {
        roll.has_at(hint, key, side)
    }
}

/// Takes one offer, but looks at what the index has at the place of the hint before it looks the key up. That is done as for a list of one
/// offer: so a list without hints is taken by code that nothing else calls, and that is put into one function.
fn take_hinted(roll: &mut Roll, parent: Parent, offer: &Offer, hint: u32) -> Option<End>
    requires room { parent.budget ≤ roll.old.room }
    requires fits { Fits roll.old.columns offer.now.key }
    ensures rest { roll.new ≡ record roll.old { entries = roll.new.entries } }
    ensures taken { taken_one parent.budget parent.id parent.side roll.old.entries offer.now ≡ record { entries = roll.new.entries; end = result } }
{
    if is_hinted(roll, hint, &offer.key, parent.side) {
        None
    } else {
        take_each(roll, parent, slice::from_ref(offer))
    }
}

/// Takes one offer of an entry: it is passed over, admitted, or ends the book.
fn take(roll: &mut Roll, parent: Parent, offer: &Offer) -> Outcome
    requires room { parent.budget ≤ roll.old.room }
    requires fits { Fits roll.old.columns offer.now.key }
    ensures rest { roll.new ≡ record roll.old { entries = roll.new.entries } }
    ensures taken { taken_one parent.budget parent.id parent.side roll.old.entries offer.now
        ≡ record { entries = roll.new.entries; end = end_of parent.id offer.now result } }
{
    match roll.find(&offer.key) {
        Some(known) => met_or_passed_over(parent.side, known),
        None => admit_or_refuse(roll, parent, offer),
    }
}

/// Admits an offer with a new key where there are fewer entries than the budget, and else refuses it.
fn admit_or_refuse(roll: &mut Roll, parent: Parent, offer: &Offer) -> Outcome
    requires room { parent.budget ≤ roll.old.room }
    requires fits { Fits roll.old.columns offer.now.key }
    requires new { id_of roll.old.entries offer.now.key ≡ None }
    ensures rest { roll.new ≡ record roll.old { entries = roll.new.entries } }
    ensures taken { admitted_or_spent parent.budget parent.id parent.side roll.old.entries offer.now
        ≡ record { entries = roll.new.entries; end = end_of parent.id offer.now result } }
{
    let Parent { id, side, budget } = parent;
    if roll.len() < budget {
        let link = offer.link;
        roll.admit(&offer.key, side, Origin::Child { parent: id, link });
        Outcome::GoesOn
    } else {
        Outcome::Refused
    }
}

/// An offered entry of the other side ends the book, and one of this side is passed over.
fn met_or_passed_over(side: Side, known: Known) -> Outcome
    ensures { (id : ℕ) (offer : Offer) (e : Entry)
        → e.side ≡ known.side
        → end_of id offer result ≡ met_or_passed_over id side offer known.id (Some e) }
{
    if known.side == side {
        Outcome::GoesOn
    } else {
        Outcome::Met { other: known.id }
    }
}

/// Settles an entry all of whose offers were taken, and answers whether the book is exhausted.
fn settle_whole(roll: &mut Roll, id: u32) -> Option<End>
    requires inside { id < length roll.old.entries }
    requires in_flight { (e : Entry) → StandsAt roll.old.entries id e → is_in_flight e ≡ true }
    ensures rest { roll.new ≡ record roll.old { entries = roll.new.entries } }
    ensures settled { (e : Entry)
        → StandsAt roll.old.entries id e
        → settled_whole id e roll.old.entries ≡ record { entries = roll.new.entries; end = result } }
{
    roll.settle(id);
    if roll.all_settled() {
        Some(End::Exhausted)
    } else {
        None
    }
}
