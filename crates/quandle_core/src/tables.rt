//! The built-in quandles, by their formulas.
ghost use Rattle.std.specs.Prelude.{◌≡◌, ◌<◌, ◌≤◌, ◌+◌, ◌*◌, ◌%◌, IfOk};
ghost use Rattle.std.specs.Result.{result_err};
ghost use Rattle.quandle_core.specs.Quandle.{IsQuandle};
ghost use Rattle.quandle_core.specs.Tables.{trivial, dihedral, alexander, tetrahedral, linear, is_unit};
ghost use Rattle.quandle_core.specs.Fault.{unless};
ghost use Rattle.quandle_core.specs.declared.quandle.TheConstants.{MAX_ORDER};
ghost use Rattle.quandle_core.specs.declared.fault.QuandleFault.TheVariants as fault;

use crate::fault::QuandleFault;
use crate::quandle::{MAX_TABLE, Quandle, of_table};
use arrayvec::ArrayVec;

impl Quandle {
    /// The trivial quandle of order n, `x ▷ y = x`, for n from 1 to `MAX_ORDER`.
    pub fn trivial(n: u8) -> Quandle
        requires { (1 ≤ n) × (n ≤ MAX_ORDER) }
        ensures { result ≡ trivial n }
    {
        linear(n, 1, 0)
    }

    /// The dihedral quandle of order n, `x ▷ y = 2y - x mod n`, for n from 1 to `MAX_ORDER`.
    pub fn dihedral(n: u8) -> Quandle
        requires { (1 ≤ n) × (n ≤ MAX_ORDER) }
        ensures { result ≡ dihedral n }
    {
        linear(n, n - 1, 2)
    }

    /// The Alexander quandle of order n, `x ▷ y = t x + (1 - t) y mod n`, for n from 1 to `MAX_ORDER`.
    ///
    /// `NoInverse` exactly where no u below n has `t u = 1 mod n`, and no other fault.
    pub fn alexander(n: u8, t: u8) -> Result<Quandle, QuandleFault>
        requires { (1 ≤ n) × (n ≤ MAX_ORDER) }
        ensures fault { result_err result ≡ unless (is_unit n t) fault.NoInverse }
        ensures quandle { IfOk result (λ q. q ≡ alexander n t) }
    {
        if !is_unit(n, t) {
            return Err(QuandleFault::NoInverse);
        }
        let kept = t % n;
        Ok(linear(n, kept, n + 1 - kept))
    }

    /// The quandle of order 4 of the rotations of a tetrahedron by a third of a turn.
    pub fn tetrahedral() -> Quandle
        ensures { result ≡ tetrahedral }
    {
        of_table(4, &[0, 3, 1, 2, 2, 1, 3, 0, 3, 0, 2, 1, 1, 2, 0, 3])
    }
}

/// The quandle with `x ▷ y = a x + b y mod n`.
fn linear(n: u8, a: u8, b: u8) -> Quandle
    requires order { (1 ≤ n) × (n ≤ MAX_ORDER) }
    requires small { (a ≤ n) × (b ≤ n + 1) }
    requires laws { IsQuandle (linear n a b) }
    ensures { result ≡ linear n a b }
{
    of_table(n, linear_entries(n, a, b).as_slice())
}

/// The table of `a x + b y mod n`, row by row.
fn linear_entries(n: u8, a: u8, b: u8) -> ArrayVec<u8, MAX_TABLE>
    requires order { (1 ≤ n) × (n ≤ MAX_ORDER) }
    requires small { (a ≤ n) × (b ≤ n + 1) }
    ensures { result.items ≡ (linear n a b).entries }
{
    let size = n as usize;
    let mut entries = ArrayVec::new();
    for place in 0..size * size {
        entries.push(linear_entry(n, a, b, (place / size) as u8, (place % size) as u8));
    }
    entries
}

/// `a x + b y mod n`.
fn linear_entry(n: u8, a: u8, b: u8, x: u8, y: u8) -> u8
    requires order { (1 ≤ n) × (n ≤ MAX_ORDER) }
    requires inside { (x < n) × (y < n) }
    ensures { result ≡ (a * x + b * y) % n }
{
    let first = a as usize * x as usize;
    let second = b as usize * y as usize;
    ((first + second) % n as usize) as u8
}

/// Whether some u below n has `t u = 1 mod n`.
fn is_unit(n: u8, t: u8) -> bool
    requires { (1 ≤ n) × (n ≤ MAX_ORDER) }
    ensures { result ≡ is_unit n t }
{
    let size = n as usize;
    for u in 0..size {
        if t as usize * u % size == 1 % size {
            return true;
        }
    }
    false
}
