//! Why a table of numbers is no shadow cocycle.
ghost use Rattle.std.specs.Prelude.{◌≡◌, ◌<◌, ◌+◌, ◌*◌, ◌%◌, ℕ, length};
ghost use Rattle.quandle_core.specs.Fault.{or_else};
ghost use Rattle.cocycle_core.specs.ShadowCocycle.{shadow_value, one_side, other_side};
ghost use Rattle.cocycle_core.specs.ShadowFault.{shadow_modulus_fault, shadow_length_fault, shadow_range_fault, shadow_diagonal_fault, shadow_law_fault};
ghost use Rattle.cocycle_core.specs.ShadowFault.{first_shadow_fault, shadow_obeys};

use quandle_core::Quandle;

/// The first law that a table of numbers breaks, with its lexicographically first case.
#[derive(Clone, Copy, PartialEq, Eq)]
pub enum ShadowFault {
    /// The modulus is 0 or 1.
    Modulus,
    /// The table's length is not the quandle's order cubed.
    Length,
    /// `θ(w, x, y)` is not below the modulus.
    Range { w: u8, x: u8, y: u8 },
    /// `θ(w, x, x)` is not 0.
    Diagonal { w: u8, x: u8 },
    /// `θ(a, c, d) + θ(a ▷ c, b ▷ c, d) + θ(a, b, c)` is not `θ(a ▷ b, c, d) + θ(a, b, d) + θ(a ▷ d, b ▷ d, c ▷ d)` mod the modulus.
    Law { a: u8, b: u8, c: u8, d: u8 },
}

/// The place of `θ(w, x, y)` in a table over a quandle of this order.
pub(crate) fn place(order: u8, w: u8, x: u8, y: u8) -> usize
    requires { (w < order) × (x < order) × (y < order) }
    ensures place { result ≡ (w * order + x) * order + y }
    ensures below { result < order * order * order }
{
    (w as usize * order as usize + x as usize) * order as usize + y as usize
}

/// `θ(w, x, y)`, read off a table.
pub(crate) fn entry(quandle: &Quandle, table: &[u8], w: u8, x: u8, y: u8) -> u8
    requires cube { length table.now ≡ quandle.now.order * quandle.now.order * quandle.now.order }
    requires place { (w < quandle.now.order) × (x < quandle.now.order) × (y < quandle.now.order) }
    ensures { (modulus : ℕ) → result ≡ shadow_value (record { quandle = quandle.now; modulus = modulus; entries = table.now }) w x y }
{
    table[place(quandle.order(), w, x, y)]
}

/// The first law that the table breaks, with its lexicographically first case.
pub(crate) fn first_fault(quandle: &Quandle, modulus: u8, table: &[u8]) -> Option<ShadowFault>
    ensures { result ≡ first_shadow_fault (record { quandle = quandle.now; modulus = modulus; entries = table.now }) }
{
    if let Some(fault) = shape_fault(quandle, modulus, table) {
        return Some(fault);
    }
    if let Some(fault) = range_fault(quandle, modulus, table) {
        return Some(fault);
    }
    if let Some(fault) = diagonal_fault(quandle, modulus, table) {
        return Some(fault);
    }
    law_fault(quandle, modulus, table)
}

/// Whether the modulus or the length is wrong.
fn shape_fault(quandle: &Quandle, modulus: u8, table: &[u8]) -> Option<ShadowFault>
    ensures { result ≡ or_else (shadow_modulus_fault (record { quandle = quandle.now; modulus = modulus; entries = table.now }))
        (shadow_length_fault (record { quandle = quandle.now; modulus = modulus; entries = table.now })) }
{
    if modulus < 2 {
        return Some(ShadowFault::Modulus);
    }
    let order = quandle.order() as usize;
    if table.len() != order * order * order {
        return Some(ShadowFault::Length);
    }
    None
}

/// The first number that is not below the modulus.
fn range_fault(quandle: &Quandle, modulus: u8, table: &[u8]) -> Option<ShadowFault>
    requires cube { length table.now ≡ quandle.now.order * quandle.now.order * quandle.now.order }
    ensures { result ≡ shadow_range_fault (record { quandle = quandle.now; modulus = modulus; entries = table.now }) }
{
    let order = quandle.order();
    for w in 0..order {
        for x in 0..order {
            for y in 0..order {
                if entry(quandle, table, w, x, y) >= modulus {
                    return Some(ShadowFault::Range { w, x, y });
                }
            }
        }
    }
    None
}

/// The first `w` and `x` with a `θ(w, x, x)` other than 0.
fn diagonal_fault(quandle: &Quandle, modulus: u8, table: &[u8]) -> Option<ShadowFault>
    requires cube { length table.now ≡ quandle.now.order * quandle.now.order * quandle.now.order }
    ensures { result ≡ shadow_diagonal_fault (record { quandle = quandle.now; modulus = modulus; entries = table.now }) }
{
    let order = quandle.order();
    for w in 0..order {
        for x in 0..order {
            if entry(quandle, table, w, x, x) != 0 {
                return Some(ShadowFault::Diagonal { w, x });
            }
        }
    }
    None
}

/// The first case that breaks the law.
fn law_fault(quandle: &Quandle, modulus: u8, table: &[u8]) -> Option<ShadowFault>
    requires some { 0 < modulus }
    requires cube { length table.now ≡ quandle.now.order * quandle.now.order * quandle.now.order }
    ensures { result ≡ shadow_law_fault (record { quandle = quandle.now; modulus = modulus; entries = table.now }) }
{
    let order = quandle.order();
    for a in 0..order {
        for b in 0..order {
            for c in 0..order {
                for d in 0..order {
                    if !obeys(quandle, modulus, table, a, b, c, d) {
                        return Some(ShadowFault::Law { a, b, c, d });
                    }
                }
            }
        }
    }
    None
}

/// Whether both sides of the law are equal mod the modulus.
fn obeys(quandle: &Quandle, modulus: u8, table: &[u8], a: u8, b: u8, c: u8, d: u8) -> bool
    requires some { 0 < modulus }
    requires cube { length table.now ≡ quandle.now.order * quandle.now.order * quandle.now.order }
    requires cases { (a < quandle.now.order) × (b < quandle.now.order) × (c < quandle.now.order) × (d < quandle.now.order) }
    ensures { result ≡ shadow_obeys (record { quandle = quandle.now; modulus = modulus; entries = table.now }) a b c d }
{
    let one = one_side(quandle, table, a, b, c, d);
    let other = other_side(quandle, table, a, b, c, d);
    one % u16::from(modulus) == other % u16::from(modulus)
}

/// `θ(a, c, d) + θ(a ▷ c, b ▷ c, d) + θ(a, b, c)`.
fn one_side(quandle: &Quandle, table: &[u8], a: u8, b: u8, c: u8, d: u8) -> u16
    requires cube { length table.now ≡ quandle.now.order * quandle.now.order * quandle.now.order }
    requires cases { (a < quandle.now.order) × (b < quandle.now.order) × (c < quandle.now.order) × (d < quandle.now.order) }
    ensures { (modulus : ℕ) → result ≡ one_side (record { quandle = quandle.now; modulus = modulus; entries = table.now }) a b c d }
{
    let _order = quandle.order();
    let behind = u16::from(entry(quandle, table, a, c, d));
    let passed = u16::from(entry(quandle, table, quandle.over(a, c), quandle.over(b, c), d));
    behind + passed + u16::from(entry(quandle, table, a, b, c))
}

/// `θ(a ▷ b, c, d) + θ(a, b, d) + θ(a ▷ d, b ▷ d, c ▷ d)`.
fn other_side(quandle: &Quandle, table: &[u8], a: u8, b: u8, c: u8, d: u8) -> u16
    requires cube { length table.now ≡ quandle.now.order * quandle.now.order * quandle.now.order }
    requires cases { (a < quandle.now.order) × (b < quandle.now.order) × (c < quandle.now.order) × (d < quandle.now.order) }
    ensures { (modulus : ℕ) → result ≡ other_side (record { quandle = quandle.now; modulus = modulus; entries = table.now }) a b c d }
{
    let _order = quandle.order();
    let beyond = u16::from(entry(quandle, table, quandle.over(a, b), c, d));
    let before = u16::from(entry(quandle, table, a, b, d));
    beyond
        + before
        + u16::from(entry(
            quandle,
            table,
            quandle.over(a, d),
            quandle.over(b, d),
            quandle.over(c, d),
        ))
}
