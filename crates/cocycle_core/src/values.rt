//! The values of a cocycle, wherever its table lies.
ghost use Rattle.std.specs.Prelude.{◌≡◌, ◌<◌, ◌*◌, length};
ghost use Rattle.cocycle_core.specs.Cocycle.{IsCocycle, value};

use quandle_core::Operations;
use std::marker::Model;

/// The values of a 2-cocycle, with the operations of its quandle, which contracts see as a `Cochain`.
///
/// With it, code that only reads the values is written once, for quandles of every size.
#[derive(Drop)]
pub struct Values<'a> {
    quandle: Operations<'a>,
    modulus: u8,
    table: &'a [u8],
}

impl<'a> Model for Values<'a> {
    ghost use Rattle.cocycle_core.specs.Cocycle.{Cochain, IsCocycle};

    ghost Value = { Cochain };

    ghost view = { λ v. record { quandle = v.quandle; modulus = v.modulus; entries = v.table.now } };

    ghost invariant = { λ v. IsCocycle (record { quandle = v.quandle; modulus = v.modulus; entries = v.table.now }) };
}

impl<'a> Values<'a> {
    /// The values of a table that obeys the laws.
    pub(crate) fn of_table(quandle: Operations<'a>, modulus: u8, table: &'a [u8]) -> Values<'a>
        requires { IsCocycle (record { quandle = quandle; modulus = modulus; entries = table.now }) }
        ensures { result ≡ record { quandle = quandle.entry; modulus = modulus; entries = table.now } }
    {
        Values {
            quandle,
            modulus,
            table,
        }
    }

    /// The operations of the quandle of which it is a cocycle.
    pub fn quandle(&self) -> &Operations<'a>
        ensures { result.now ≡ self.now.quandle }
    {
        &self.quandle
    }

    /// The modulus k, from 2 to 255. Weights are below it.
    pub fn modulus(&self) -> u8
        ensures modulus { result ≡ self.now.modulus }
        ensures cocycle { IsCocycle self.now }
    {
        self.modulus
    }

    /// `φ(x, y)`, for colours x and y below the quandle's order.
    pub fn value(&self, x: u8, y: u8) -> u8
        requires { (x < self.now.quandle.order) × (y < self.now.quandle.order) }
        ensures value { result ≡ value self.now x y }
        ensures below { result < self.now.modulus }
    {
        let order = self.quandle.order();
        self.table[x as usize * order as usize + y as usize]
    }
}
