//! Connected quandles, and the one colour that the first seed then needs.
ghost use Rattle.std.specs.Prelude.{◌≡◌, ◌<◌, ℕ, Bool, None, true, false, slice_index_or, length, IfSome};
ghost use Rattle.std.specs.List.{list_all, range_with_len};
ghost use Rattle.quandle_core.specs.Quandle.{over, back};
ghost use Rattle.quandle_core.specs.declared.operations.TheConstants.{MAX_LARGE_ORDER};
ghost use Rattle.colour_seeds.specs.Connected.{IsConnected, IsStableSet};

use quandle_core::{MAX_LARGE_ORDER, Operations};

/// Whether a quandle is connected (Joyce 1982): from each colour, a chain of operations `x ▷ y` and `x ◁ y` leads to each other.
///
/// Takes no memory.
pub fn is_connected(quandle: &Operations) -> bool
    ensures connected { result ≡ true → IsConnected quandle.now }
    ensures only { IsConnected quandle.now → result ≡ true }
{
    let _order = quandle.order();
    let mut reached = [false; MAX_LARGE_ORDER];
    reached[0] = true;
    while let Some(colour) = next_reached(quandle, &reached) {
        reached[colour as usize] = true;
    }
    reaches_all(quandle, &reached)
}

/// Whether each colour is reached.
fn reaches_all(quandle: &Operations, reached: &[bool; MAX_LARGE_ORDER]) -> bool
    ensures { result ≡ list_all (λ x. slice_index_or reached.now x false) (range_with_len 0 quandle.now.order) }
{
    let _order = quandle.order();
    (0..quandle.order()).all(|colour| reached[colour as usize])
}

/// A colour that is not reached yet, and that an operation gives of one that is.
fn next_reached(quandle: &Operations, reached: &[bool; MAX_LARGE_ORDER]) -> Option<u8>
    ensures fresh { IfSome result (λ z. (z < quandle.now.order) × (slice_index_or reached.now z false ≡ false)) }
    ensures only { IfSome result (λ z. (p : ℕ → Bool) → IsStableSet quandle.now p
        → ((x : ℕ) → x < quandle.now.order → slice_index_or reached.now x false ≡ true → p x ≡ true) → p z ≡ true) }
    ensures stuck { result ≡ None → IsStableSet quandle.now (λ x. slice_index_or reached.now x false) }
{
    let _order = quandle.order();
    for colour in 0..quandle.order() {
        if reached[colour as usize] {
            if let Some(other) = next_from(quandle, reached, colour) {
                return Some(other);
            }
        }
    }
    None
}

/// A colour that is not reached yet, and that an operation gives of this one.
fn next_from(quandle: &Operations, reached: &[bool; MAX_LARGE_ORDER], colour: u8) -> Option<u8>
    requires colour { colour < quandle.now.order }
    ensures fresh { IfSome result (λ z. (z < quandle.now.order) × (slice_index_or reached.now z false ≡ false)) }
    ensures only { IfSome result (λ z. (p : ℕ → Bool) → IsStableSet quandle.now p → p colour ≡ true → p z ≡ true) }
    ensures stuck { result ≡ None → (y : ℕ) → y < quandle.now.order
        → (slice_index_or reached.now (over quandle.now colour y) false ≡ true) × (slice_index_or reached.now (back quandle.now colour y) false ≡ true) }
{
    let _order = quandle.order();
    for by in 0..quandle.order() {
        let over = quandle.over(colour, by);
        if !reached[over as usize] {
            return Some(over);
        }
        let back = quandle.back(colour, by);
        if !reached[back as usize] {
            return Some(back);
        }
    }
    None
}
