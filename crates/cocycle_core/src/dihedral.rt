//! Dihedral quandles of prime order.
ghost use Rattle.std.specs.Prelude.{◌≡◌, ◌<◌, ◌+◌, ◌-◌, ◌*◌, ◌%◌, ◌==◌, ◌&&◌, not};
ghost use Rattle.std.specs.List.{list_all, range_with_len};
ghost use Rattle.quandle_core.specs.Quandle.{over};
ghost use Rattle.cocycle_core.specs.Formula.{is_prime, is_dihedral, has_formula};

use quandle_core::Quandle;

/// Whether the quandle is a dihedral one of prime order, of which the formula gives a cocycle. Takes no memory.
pub fn has_formula(quandle: &Quandle) -> bool
    ensures { result ≡ has_formula quandle.now }
{
    let order = quandle.order();
    is_prime(order) && is_dihedral(quandle)
}

/// Whether n is a prime number.
fn is_prime(n: u8) -> bool
    ensures { result ≡ is_prime n }
{
    n >= 2 && has_no_divisor(n)
}

/// Whether no number from 2 to n - 1 divides n, for n from 2 on.
fn has_no_divisor(n: u8) -> bool
    requires { 1 < n }
    ensures { result ≡ list_all (λ d. not (n % d == 0)) (range_with_len 2 (n - 2)) }
{
    for d in 2..n {
        if divides(d, n) {
            return false;
        }
    }
    true
}

/// Whether d divides n, for d from 1 on.
fn divides(d: u8, n: u8) -> bool
    requires { 0 < d }
    ensures { result ≡ (n % d == 0) }
{
    n % d == 0
}

/// Whether `x ▷ y` is `2y - x` mod the order, for all colours.
fn is_dihedral(quandle: &Quandle) -> bool
    ensures { result ≡ is_dihedral quandle.now }
{
    let order = quandle.order();
    for x in 0..order {
        if !are_reflected(quandle, x) {
            return false;
        }
    }
    true
}

/// Whether `x ▷ y` is `2y - x` mod the order, for this colour x and all colours y.
fn are_reflected(quandle: &Quandle, x: u8) -> bool
    requires { x < quandle.now.order }
    ensures { result ≡ list_all (λ y. over quandle.now x y == (2 * y + (quandle.now.order - x)) % quandle.now.order) (range_with_len 0 quandle.now.order) }
{
    let order = quandle.order();
    for y in 0..order {
        if !is_reflected(quandle, x, y) {
            return false;
        }
    }
    true
}

/// Whether `x ▷ y` is `2y - x` mod the order, for these two colours.
fn is_reflected(quandle: &Quandle, x: u8, y: u8) -> bool
    requires { (x < quandle.now.order) × (y < quandle.now.order) }
    ensures { result ≡ (over quandle.now x y == (2 * y + (quandle.now.order - x)) % quandle.now.order) }
{
    let order = quandle.order();
    quandle.over(x, y) == (2 * y + (order - x)) % order
}
