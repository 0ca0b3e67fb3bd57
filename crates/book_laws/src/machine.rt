//! Laws of the machine and of sound books, over the definitions alone.
ghost use Rattle.std.specs.Prelude.{List, ◌+◌, ◌≡◌, ◌≢◌, ◌≤◌, ◌++◌, ◌∷◌, [], ℕ, None};
ghost use Rattle.std.specs.List.{AllPairs};
ghost use Rattle.next_moves.specs.Offers.{Neighbourhood};
ghost use Rattle.search_book.specs.Entries.{StandsAt};
ghost use Rattle.search_book.specs.declared.answer.Claim.{Claim};
ghost use Rattle.search_book.specs.declared.answer.Settled.{Settled};
ghost use Rattle.search_book.specs.declared.problem.Problem.{Problem};
ghost use Rattle.search_book.specs.declared.entry.Entry.{Entry};
ghost use Rattle.search_book.specs.declared.event.Event.{Event};
ghost use Rattle.search_book.specs.State.{State};
ghost use Rattle.search_book.specs.Begin.{Begins};
ghost use Rattle.search_book.specs.Machine.{After, Runs, claimed_ids};
ghost use Rattle.search_book.specs.Events.{settled_ids, settlements};
ghost use Rattle.search_book.specs.Sound.{IsProblem, IsSound, IsLater};
ghost use Rattle.grid_keys.specs.Key.{size_of};
ghost use Rattle.search_book.specs.Claim.{ClaimsEntry};
ghost use Rattle.search_book.specs.Settle.{Settles};
ghost use Rattle.search_book.specs.Settlement.{IsSettlement};
ghost use Rattle.search_book.specs.Answers.{AnswersClaim, AnswersSettle};

use search_book::{Claim, Entry, Event, Problem, Settled, Stage};

/// A book at its beginning is sound.
pub fn a_book_begins_sound()
    ensures { (p : Problem) (s : State) → IsProblem p → Begins p s → IsSound s }
{}

/// Each claim and each settlement leads from a sound book to a sound one.
pub fn each_event_keeps_a_book_sound()
    ensures { (s t : State) (event : Event) → IsSound s → After s event t → IsSound t }
{}

/// A problem has at most one book at its beginning, and an event leads from a book to at most one.
pub fn the_machine_is_determined()
    ensures beginning { (p : Problem) (s t : State) → Begins p s → Begins p t → s ≡ t }
    ensures event { (s t u : State) (event : Event) → After s event t → After s event u → t ≡ u }
{}

/// After an event each entry is where it was, with its key, side and origin; what was claimed is not unclaimed
/// again, and what was settled stays settled.
pub fn a_claimed_entry_is_never_unclaimed_again()
    ensures { (s t : State) (event : Event) (id : ℕ) (e : Entry)
        → After s event t
        → StandsAt s.entries id e
        → (f : Entry) × (StandsAt t.entries id f × IsLater e f) }
{}

/// A claim hands out an unclaimed entry: no unclaimed one is smaller, and of those of its size none has a lower id. The entry is
/// then in flight for the worker; each other one is as it was, and the book is not over.
pub fn what_a_claim_does()
    ensures first { (s t : State) (worker id : ℕ) (claim : ClaimsEntry s worker id t) (i : ℕ) (f : Entry)
        → StandsAt s.entries i f
        → f.stage ≡ Stage.Unclaimed
        → (size_of claim.entry.key ≤ size_of f.key) × (size_of claim.entry.key ≡ size_of f.key → id ≤ i) }
    ensures was { (s t : State) (worker id : ℕ) (claim : ClaimsEntry s worker id t)
        → StandsAt s.entries id claim.entry × (claim.entry.stage ≡ Stage.Unclaimed) }
    ensures is { (s t : State) (worker id : ℕ) (claim : ClaimsEntry s worker id t)
        → StandsAt t.entries id (record claim.entry { stage = Stage.InFlight worker }) }
    ensures others { (s t : State) (worker id i : ℕ) (f : Entry)
        → ClaimsEntry s worker id t
        → i ≢ id
        → StandsAt s.entries i f
        → StandsAt t.entries i f }
    ensures end { (s t : State) (worker id : ℕ) → ClaimsEntry s worker id t → t.end ≡ None }
{}

/// What a settlement does, in words (`IsSettlement`): each offer before the one that ends the book has the key of an entry of
/// this side, or a new key, with which the first is admitted; the new entries are the new keys in their order; and the end is
/// what the ending offer says, or none ends the book and the entry is settled.
pub fn what_a_settlement_does()
    ensures { (s t : State) (worker id : ℕ) (settlement : Settles s worker id t)
        → IsSettlement s worker id settlement.entry settlement.offers t }
{}

/// In a run no id is claimed twice, and none is settled twice; so it is in the history of a sound book, which replays it.
pub fn no_id_is_claimed_or_settled_twice()
    ensures claims { (s t : State) (events : List Event) (run : Runs s events t)
        → AllPairs (λ (i j : ℕ). i ≢ j) (claimed_ids s events t run) }
    ensures settlements { (s t : State) (events : List Event)
        → Runs s events t
        → AllPairs (λ (i j : ℕ). i ≢ j) (settled_ids events) }
{}

/// An event is put at the end of the history, and leaves the problem as it is.
pub fn each_event_is_put_behind_the_history()
    ensures history { (s t : State) (event : Event) → After s event t → t.history ≡ s.history ++ event ∷ [] }
    ensures problem { (s t : State) (event : Event) → After s event t → t.problem ≡ s.problem }
{}

/// No event happens to a book that is over, and no answer to a claim or a settlement changes it: it stays over.
pub fn a_book_that_is_over_stays_over()
    ensures event { (s t : State) (event : Event) → After s event t → s.end ≡ None }
    ensures claim { (s t : State) (worker : ℕ) (answer : Claim) → s.end ≢ None → AnswersClaim s worker answer t → t ≡ s }
    ensures settle { (s t : State) (worker id : ℕ) (offers : Neighbourhood) (answer : Settled)
        → s.end ≢ None
        → AnswersSettle s worker id offers answer t
        → t ≡ s }
{}

/// An answer `Done` adds one settlement to the history, any other answer to a settlement changes nothing, and no answer to a
/// claim adds a settlement.
pub fn what_is_done_is_one_settlement()
    ensures done { (s t : State) (worker id : ℕ) (offers : Neighbourhood)
        → AnswersSettle s worker id offers Settled.Done t
        → settlements t.history ≡ settlements s.history + 1 }
    ensures others { (s t : State) (worker id : ℕ) (offers : Neighbourhood) (answer : Settled)
        → answer ≢ Settled.Done
        → AnswersSettle s worker id offers answer t
        → t ≡ s }
    ensures claim { (s t : State) (worker : ℕ) (answer : Claim)
        → AnswersClaim s worker answer t
        → settlements t.history ≡ settlements s.history }
{}
