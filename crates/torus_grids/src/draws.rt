//! Numbers and moves drawn at random.
ghost use Rattle.std.specs.Prelude.{◌≤◌};

use crate::torus::{Torus, TorusMoves};
use grid_core::{Corner, Kind};
use rand_core::utils::NextWord;
use rand_pcg::Pcg32;

/// A number below `count`, by one word of the generator; 0 where `count` is 0.
pub fn below(generator: &mut Pcg32, count: u32) -> u32
    ensures { result ≤ count }
{
    let word = generator.next_word();
    if count == 0 { 0 } else { word % count }
}

/// Makes a random stabilisation, each column, kind and corner with nearly the same chance, and answers whether there was room: the diagram had
/// fewer than `MAX_SIZE` columns.
pub fn stabilise_at_random(torus: &mut Torus, generator: &mut Pcg32) -> bool {
    let column = below(generator, u32::from(torus.size())) as u8;
    let (kind, corner) = mark_and_corner(below(generator, 8) as u8);
    torus.stabilise(column, kind, corner)
}

/// The mark and the corner of a stabilisation by its place among eight, from 0: two kinds by four corners. A greater place answers a ring.
pub fn mark_and_corner(place: u8) -> (Kind, Corner) {
    let kind = if place < 4 { Kind::Cross } else { Kind::Ring };
    let corner = match place % 4 {
        0 => Corner::LowLeft,
        1 => Corner::LowRight,
        2 => Corner::HighLeft,
        _ => Corner::HighRight,
    };
    (kind, corner)
}

/// Makes a random exchange of those that are legal, each with nearly the same chance, and answers whether there was one.
pub fn exchange_at_random(torus: &mut Torus, generator: &mut Pcg32) -> bool {
    let exchanges = torus.exchanges();
    make_one(torus, exchanges, generator)
}

/// Makes a random destabilisation of those that are legal, each with nearly the same chance, and answers whether there was one.
pub fn destabilise_at_random(torus: &mut Torus, generator: &mut Pcg32) -> bool {
    let destabilisations = torus.destabilisations();
    make_one(torus, destabilisations, generator)
}

/// Makes one of some moves, each with nearly the same chance, and answers whether there is any.
fn make_one(torus: &mut Torus, moves: TorusMoves, generator: &mut Pcg32) -> bool {
    let count = moves.count();
    if count == 0 {
        return false;
    }
    torus.make(moves.at(below(generator, count)));
    true
}
