//! A cocycle of a quandle.
ghost use Rattle.std.specs.Prelude.{◌≡◌, ◌<◌, ◌*◌, length, IfOk};
ghost use Rattle.std.specs.Result.{result_err};
ghost use Rattle.cocycle_core.specs.Cocycle.{IsCocycle, value};
ghost use Rattle.cocycle_core.specs.Fault.{first_cocycle_fault};

use crate::fault::{CocycleFault, table_fault};
use crate::values::Values;
use arrayvec::ArrayVec;
use quandle_core::{MAX_TABLE, Quandle};
use std::marker::Model;

/// A 2-cocycle of a quandle with values mod a number from 2 to 255 (Carter and others 2003), which contracts see as a `Cochain`.
#[derive(Drop)]
pub struct Cocycle {
    quandle: Quandle,
    modulus: u8,
    table: ArrayVec<u8, MAX_TABLE>,
}

impl Model for Cocycle {
    ghost use Rattle.cocycle_core.specs.Cocycle.{Cochain, IsCocycle};

    ghost Value = { Cochain };

    ghost view = { λ c. record { quandle = c.quandle; modulus = c.modulus; entries = c.table.items } };

    ghost invariant = { λ c. IsCocycle (record { quandle = c.quandle; modulus = c.modulus; entries = c.table.items }) };
}

impl Cocycle {
    /// The cocycle of a table in which `table[x * order + y]` is `φ(x, y)`.
    ///
    /// If the table breaks a law, the error is the first law that it breaks, with the lexicographically first case.
    pub fn new(quandle: &Quandle, modulus: u8, table: &[u8]) -> Result<Cocycle, CocycleFault>
        ensures fault { result_err result ≡ first_cocycle_fault (record { quandle = quandle.now; modulus = modulus; entries = table.now }) }
        ensures cocycle { IfOk result (λ c. c ≡ record { quandle = quandle.now; modulus = modulus; entries = table.now }) }
    {
        let _order = quandle.order();
        match table_fault(quandle.operations(), modulus, table) {
            Some(fault) => Err(fault),
            None => Ok(of_table(quandle, modulus, table)),
        }
    }

    /// A copy of the cocycle. Takes no memory.
    pub fn copy(&self) -> Self
        ensures { result ≡ self.now }
    {
        of_table(&self.quandle, self.modulus, self.table.as_slice())
    }

    /// The quandle of which it is a cocycle.
    pub fn quandle(&self) -> &Quandle
        ensures { result.now ≡ self.now.quandle }
    {
        &self.quandle
    }

    /// Its values, with the operations of its quandle. Takes no memory.
    pub fn values(&self) -> Values<'_>
        ensures { result ≡ self.now }
    {
        Values::of_table(
            self.quandle.operations(),
            self.modulus,
            self.table.as_slice(),
        )
    }

    /// The modulus k, from 2 to 255. Weights are below it.
    pub fn modulus(&self) -> u8
        ensures modulus { result ≡ self.now.modulus }
        ensures cocycle { IsCocycle self.now }
    {
        self.modulus
    }

    /// `φ(x, y)`, for colours x and y below the quandle's order.
    pub fn value(&self, x: u8, y: u8) -> u8
        requires { (x < self.now.quandle.order) × (y < self.now.quandle.order) }
        ensures value { result ≡ value self.now x y }
        ensures below { result < self.now.modulus }
    {
        let order = self.quandle.order();
        self.table[x as usize * order as usize + y as usize]
    }
}

/// The cocycle of a table that obeys the laws.
fn of_table(quandle: &Quandle, modulus: u8, table: &[u8]) -> Cocycle
    requires { IsCocycle (record { quandle = quandle.now; modulus = modulus; entries = table.now }) }
    ensures { result ≡ record { quandle = quandle.now; modulus = modulus; entries = table.now } }
{
    let _order = quandle.order();
    let mut copy = ArrayVec::new();
    copy.try_extend_from_slice(table).unwrap();
    Cocycle {
        quandle: quandle.copy(),
        modulus,
        table: copy,
    }
}
