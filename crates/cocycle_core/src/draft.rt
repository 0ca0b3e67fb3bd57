//! A table of numbers that may be a cocycle.
ghost use Rattle.std.specs.Prelude.{◌≡◌, ◌<◌, ◌*◌, length};
ghost use Rattle.quandle_core.specs.Quandle.{IsQuandle, over};
ghost use Rattle.cocycle_core.specs.Cocycle.{value};

use quandle_core::Operations;
use std::marker::Model;

/// Numbers for the pairs of colours of a quandle, row by row, to be taken mod a modulus. Contracts see a `Cochain`.
#[derive(Drop)]
pub(crate) struct Draft<'a> {
    quandle: Operations<'a>,
    modulus: u8,
    table: &'a [u8],
}

impl<'a> Model for Draft<'a> {
    ghost use Rattle.cocycle_core.specs.Cocycle.{Cochain};

    ghost Value = { Cochain };

    ghost view = { λ d. record { quandle = d.quandle; modulus = d.modulus; entries = d.table.now } };
}

impl<'a> Draft<'a> {
    /// The draft of a table.
    pub(crate) fn new(quandle: Operations<'a>, modulus: u8, table: &'a [u8]) -> Draft<'a>
        ensures { result ≡ record { quandle = quandle.entry; modulus = modulus; entries = table.now } }
    {
        Draft {
            quandle,
            modulus,
            table,
        }
    }

    /// The order of the quandle.
    pub(crate) fn order(&self) -> u8
        ensures order { result ≡ self.now.quandle.order }
        ensures quandle { IsQuandle self.now.quandle }
    {
        self.quandle.order()
    }

    /// The modulus.
    pub(crate) fn modulus(&self) -> u8
        ensures { result ≡ self.now.modulus }
    {
        self.modulus
    }

    /// How many numbers the table has.
    pub(crate) fn len(&self) -> usize
        ensures { result ≡ length self.now.entries }
    {
        self.table.len()
    }

    /// `x ▷ y`.
    pub(crate) fn over(&self, x: u8, y: u8) -> u8
        requires { (x < self.now.quandle.order) × (y < self.now.quandle.order) }
        ensures { result ≡ over self.now.quandle x y }
    {
        self.quandle.over(x, y)
    }

    /// `φ(x, y)`, read off the table.
    pub(crate) fn entry(&self, x: u8, y: u8) -> u8
        requires square { length self.now.entries ≡ self.now.quandle.order * self.now.quandle.order }
        requires place { (x < self.now.quandle.order) × (y < self.now.quandle.order) }
        ensures { result ≡ value self.now x y }
    {
        self.table[x as usize * self.quandle.order() as usize + y as usize]
    }
}
