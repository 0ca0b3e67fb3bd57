//! One class, listed up to a budget, or up to its first destabilisation.
ghost use Rattle.std.specs.Prelude.{◌≡◌, ◌≤◌, true, false, length, take, nat_lt, IfOk, IfSome, IfNone};
ghost use Rattle.std.specs.List.{All, Contains};
ghost use Rattle.grid_moves.specs.Kinds.{is_exchange, is_destabilisation};
ghost use Rattle.next_moves.specs.Offers.{exchanges_among};
ghost use Rattle.mono_simplify.specs.Listing.{with_keys};
ghost use Rattle.mono_simplify.specs.Ways.{keys_in, Admits, IsExploredAfter, IsExploredTo};

use crate::class::{Class, MemberOrigin};
use crate::way::way_to;
use grid_canon::canonical_key;
use grid_core::Grid;
use grid_keys::{LeastForm, Packed, grid_of};
use grid_moves::Move;
use memory_core::OutOfMemory;
use next_moves::{Offer, Offers};
use std::alloc::Global;

/// What a class showed.
#[derive(Drop)]
pub enum Explored {
    /// A smaller diagram, and the moves that lead there.
    Smaller { grid: Grid, moves: Vec<Move> },
    /// The whole class: at most as many members as the budget, and no destabilisation is legal in it.
    Whole,
    /// The listing has more members than the budget, and no destabilisation is legal on any translate of its first members, as many as the budget.
    More,
}

/// Lists the class of a grid until a destabilisation is offered, or all members, at most as many as the budget, have had their turn.
/// The list of offers is renewed for each member.
pub fn explore(
    alloc: Global,
    grid: &Grid,
    budget: u32,
    offers: &mut Offers,
) -> Result<Explored, OutOfMemory>
    requires { 1 ≤ budget }
    ensures { IfOk result (λ e. IsExploredTo grid.now budget e) }
{
    let size = grid.size();
    let root = canonical_key(grid);
    let mut class = Class::of(alloc, root.key)?;
    let mut over = false;
    let mut place = 0;
    while place < class.len() {
        let form = LeastForm::named_by(class.key_at(place));
        offers.renew(&form, size);
        if let Some(offer) = first_destabilisation(offers.offers()) {
            let moves = way_to(alloc, grid, &class, place, offer.link)?;
            return Ok(Explored::Smaller {
                grid: grid_of(offer.key),
                moves,
            });
        }
        over = turn(&mut class, place as u32, offers.offers(), budget, over)?;
        place += 1;
    }
    if over {
        Ok(Explored::More)
    } else {
        Ok(Explored::Whole)
    }
}

/// The first of these offers that destabilises.
fn first_destabilisation(offers: &[Offer]) -> Option<Offer>
    ensures some { IfSome result (λ o. Contains offers.now o × (is_destabilisation o.link.step ≡ true)) }
    ensures none { IfNone result (All (λ o. is_destabilisation o.link.step ≡ false) offers.now) }
{
    for offer in offers {
        if let Move::Destabilise { .. } = offer.link.step {
            return Some(*offer);
        }
    }
    None
}

/// The turn of the member at a place, with the exchanges among its offers: once the listing has more members than the budget, nothing is added.
/// Whether it has more.
fn turn(
    class: &mut Class,
    place: u32,
    offers: &[Offer],
    budget: u32,
    over: bool,
) -> Result<bool, OutOfMemory>
    requires few { length class.old ≤ budget }
    ensures listed { IfOk result (λ after.
        IsExploredAfter budget place (exchanges_among offers.now) (keys_in class.old) over (keys_in class.new) after) }
    ensures ways { IfOk result (λ _. Admits place (exchanges_among offers.now) class.old class.new) }
    ensures few { IfOk result (λ _. length class.new ≤ budget) }
{
    if over {
        return Ok(true);
    }
    let after = admit_all(class, place, offers, budget)?;
    Ok(after)
}

/// Adds to the class the keys of the exchanges among these offers, made at the member of a place, if they are not in it yet, unless there
/// would be more members than the budget. Answers whether there would be. It fails only if memory runs out.
pub fn admit_all(
    class: &mut Class,
    place: u32,
    offers: &[Offer],
    budget: u32,
) -> Result<bool, OutOfMemory>
    requires { length class.old ≤ budget }
    ensures keys { IfOk result (λ _. keys_in class.new ≡ take budget (with_keys (keys_in class.old) (exchanges_among offers.now))) }
    ensures over { IfOk result (λ over. over ≡ nat_lt budget (length (with_keys (keys_in class.old) (exchanges_among offers.now)))) }
    ensures ways { IfOk result (λ _. Admits place (exchanges_among offers.now) class.old class.new) }
{
    for offer in offers {
        if !is_exchange(offer.link.step) {
            continue;
        }
        if class.holds(offer.key) {
            continue;
        }
        if class.len() == budget as usize {
            return Ok(true);
        }
        let origin = MemberOrigin {
            parent: place,
            link: offer.link,
        };
        class.admit(offer.key, origin)?;
    }
    Ok(false)
}

/// Whether a move is an exchange.
fn is_exchange(step: Move) -> bool
    ensures { result ≡ is_exchange step }
{
    matches!(step, Move::ExchangeColumns(_) | Move::ExchangeRows(_))
}
