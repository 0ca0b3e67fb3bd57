//! Mochizuki's shadow cocycles.
ghost use Rattle.std.specs.Prelude.{◌≡◌, ◌<◌, ◌≤◌, ◌+◌, ◌-◌, ◌*◌, ◌/◌, ◌%◌, ◌^◌, true, IfOk};
ghost use Rattle.quandle_core.specs.declared.quandle.TheConstants.{MAX_ORDER, MAX_TABLE};
ghost use Rattle.quandle_core.specs.Tables.{table_of};
ghost use Rattle.cocycle_core.specs.Formula.{is_prime, dividend, quotient, formula, mochizuki};

use crate::laws::mochizuki_is_a_shadow_cocycle;
use crate::shadow_cocycle::{ShadowCocycle, of_table};
use arrayvec::ArrayVec;
use quandle_core::{MAX_TABLE, Quandle};
use std::alloc::{AllocFailed, Global};

/// Mochizuki's shadow cocycle of the dihedral quandle of prime order p, with values mod p (Mochizuki 2003):
/// `θ(x, y, z) = (x - y) ((2z - y)^p + y^p - 2 z^p) / p`.
pub fn mochizuki(alloc: Global, p: u8) -> Result<ShadowCocycle, AllocFailed<u8>>
    requires prime { is_prime p ≡ true }
    requires most { p ≤ MAX_ORDER }
    ensures { IfOk result (λ c. c ≡ mochizuki p) }
{
    mochizuki_is_a_shadow_cocycle();
    let table = values(alloc, p)?;
    Ok(of_table(&Quandle::dihedral(p), p, table))
}

/// All values of the formula.
fn values(alloc: Global, p: u8) -> Result<Vec<u8>, AllocFailed<u8>>
    requires { (1 < p) × (p ≤ MAX_ORDER) }
    ensures { IfOk result (λ v. v.items ≡ (mochizuki p).entries) }
{
    let order = p as usize;
    let quotients = quotients(p);
    let mut table = Vec::new(alloc);
    for place in 0..order * order * order {
        table.push(value_at(p, quotients.as_slice(), place))?;
    }
    Ok(table)
}

/// The value of the formula at a place of the table.
fn value_at(p: u8, quotients: &[u8], place: usize) -> u8
    requires order { (1 < p) × (p ≤ MAX_ORDER) }
    requires quotients { quotients.now ≡ (table_of p (quotient p)).entries }
    requires place { place < p * p * p }
    ensures { result ≡ formula p (place / p / p) (place / p % p) (place % p) }
{
    let order = p as usize;
    let quotient = quotients[place % (order * order)];
    let x = (place / order / order) as u32;
    let y = (place / order % order) as u32;
    value(p as u32, x, y, quotient as u32) as u8
}

/// `(x - y) q` mod k.
fn value(k: u32, x: u32, y: u32, q: u32) -> u32
    requires modulus { (1 < k) × (k ≤ MAX_TABLE) }
    requires inside { (x < k) × (y < k) × (q < k) }
    ensures value { result ≡ (x + (k - 1) * y) * q % k }
    ensures below { result < k }
{
    let turned = times(k, k - 1, y);
    times(k, (x + turned) % k, q)
}

/// The quotients of the formula, row by row.
fn quotients(p: u8) -> ArrayVec<u8, MAX_TABLE>
    requires { (1 < p) × (p ≤ MAX_ORDER) }
    ensures { result.items ≡ (table_of p (quotient p)).entries }
{
    let order = p as usize;
    let mut list = ArrayVec::new();
    for place in 0..order * order {
        list.push(quotient(p, (place / order) as u8, (place % order) as u8));
    }
    list
}

/// `((2z - y)^p + y^p - 2 z^p) / p` mod p.
fn quotient(p: u8, y: u8, z: u8) -> u8
    requires order { (1 < p) × (p ≤ MAX_ORDER) }
    requires inside { (y < p) × (z < p) }
    ensures quotient { result ≡ quotient p y z }
    ensures below { result < p }
{
    let dividend = dividend(square(p), p, y as u32, z as u32);
    (dividend / p as u32) as u8
}

/// `(2z - y)^p + y^p - 2 z^p` mod k.
fn dividend(k: u32, p: u8, y: u32, z: u32) -> u32
    requires modulus { (1 < k) × (k ≤ MAX_TABLE) }
    requires inside { (y < k) × (z < k) }
    ensures dividend { result ≡ ((2 * z + (k - 1) * y) ^ p + y ^ p + (k - 2) * z ^ p) % k }
    ensures below { result < k }
{
    let turned = times(k, k - 1, y);
    let first = power(k, (2 * z + turned) % k, p);
    let second = power(k, y, p);
    let last = power(k, z, p);
    let third = times(k, k - 2, last);
    (first + second + third) % k
}

/// `p²`.
fn square(p: u8) -> u32
    requires { (1 < p) × (p ≤ MAX_ORDER) }
    ensures square { result ≡ p * p }
    ensures bounds { (p < result) × (result ≤ MAX_TABLE) }
{
    p as u32 * p as u32
}

/// A power mod k.
fn power(k: u32, base: u32, exponent: u8) -> u32
    requires modulus { (1 < k) × (k ≤ MAX_TABLE) }
    requires below { base < k }
    ensures power { result ≡ base ^ exponent % k }
    ensures below { result < k }
{
    let mut product = 1;
    for _ in 0..exponent {
        product = times(k, product, base);
    }
    product
}

/// `a b` mod k.
fn times(k: u32, a: u32, b: u32) -> u32
    requires modulus { (1 < k) × (k ≤ MAX_TABLE) }
    requires below { (a < k) × (b < k) }
    ensures product { result ≡ a * b % k }
    ensures below { result < k }
{
    a * b % k
}
