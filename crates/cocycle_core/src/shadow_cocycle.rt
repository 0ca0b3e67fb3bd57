//! A shadow cocycle of a quandle.
ghost use Rattle.std.specs.Prelude.{◌≡◌, ◌<◌, ◌*◌, length, IfOk};
ghost use Rattle.std.specs.Result.{result_err};
ghost use Rattle.cocycle_core.specs.ShadowCocycle.{IsShadowCocycle, shadow_value};
ghost use Rattle.cocycle_core.specs.ShadowFault.{first_shadow_fault};

use crate::shadow_fault::{ShadowFault, first_fault, place};
use quandle_core::Quandle;
use std::marker::Model;

/// A shadow 3-cocycle of a quandle with values mod a number from 2 to 255 (Carter, Kamada and Saito 2001), which contracts see as a `ShadowCochain`.
#[derive(Drop)]
pub struct ShadowCocycle {
    quandle: Quandle,
    modulus: u8,
    // Up to 32,768 numbers: too many to be passed by value.
    table: Vec<u8>,
}

impl Model for ShadowCocycle {
    ghost use Rattle.cocycle_core.specs.ShadowCocycle.{ShadowCochain, IsShadowCocycle};

    ghost Value = { ShadowCochain };

    ghost view = { λ c. record { quandle = c.quandle; modulus = c.modulus; entries = c.table.items } };

    ghost invariant = { λ c. IsShadowCocycle (record { quandle = c.quandle; modulus = c.modulus; entries = c.table.items }) };
}

impl ShadowCocycle {
    /// The cocycle of a table in which `table[(w * order + x) * order + y]` is `θ(w, x, y)`. It keeps the table, and takes no memory.
    ///
    /// If the table breaks a law, the error is the first law that it breaks, with the lexicographically first case.
    pub fn new(quandle: &Quandle, modulus: u8, table: Vec<u8>) -> Result<ShadowCocycle, ShadowFault>
        ensures fault { result_err result ≡ first_shadow_fault (record { quandle = quandle.now; modulus = modulus; entries = table.items }) }
        ensures cocycle { IfOk result (λ c. c ≡ record { quandle = quandle.now; modulus = modulus; entries = table.items }) }
    {
        let _order = quandle.order();
        match first_fault(quandle, modulus, table.as_slice()) {
            Some(fault) => Err(fault),
            None => Ok(of_table(quandle, modulus, table)),
        }
    }

    /// The quandle of which it is a cocycle.
    pub fn quandle(&self) -> &Quandle
        ensures { result.now ≡ self.now.quandle }
    {
        &self.quandle
    }

    /// The modulus k, from 2 to 255. Weights are below it.
    pub fn modulus(&self) -> u8
        ensures modulus { result ≡ self.now.modulus }
        ensures cocycle { IsShadowCocycle self.now }
    {
        self.modulus
    }

    /// `θ(w, x, y)`, for a region of colour w and strands of colours x and y, all below the quandle's order.
    pub fn value(&self, w: u8, x: u8, y: u8) -> u8
        requires { (w < self.now.quandle.order) × (x < self.now.quandle.order) × (y < self.now.quandle.order) }
        ensures value { result ≡ shadow_value self.now w x y }
        ensures below { result < self.now.modulus }
    {
        self.table[place(self.quandle.order(), w, x, y)]
    }
}

/// The cocycle of a table that obeys the laws, in which `table[(w * order + x) * order + y]` is `θ(w, x, y)`. It doesn't check them, and takes no memory.
pub fn of_table(quandle: &Quandle, modulus: u8, table: Vec<u8>) -> ShadowCocycle
    requires { IsShadowCocycle (record { quandle = quandle.now; modulus = modulus; entries = table.items }) }
    ensures { result ≡ record { quandle = quandle.now; modulus = modulus; entries = table.items } }
{
    ShadowCocycle {
        quandle: quandle.copy(),
        modulus,
        table,
    }
}
