//! A cocycle of a larger quandle, on the heap.
ghost use Rattle.std.specs.Prelude.{◌≡◌, IfOk};
ghost use Rattle.std.specs.Result.{result_err};
ghost use Rattle.cocycle_core.specs.Fault.{first_cocycle_fault};

use crate::fault::{CocycleFault, table_fault};
use crate::values::Values;
use quandle_core::{LargeQuandle, Operations};
use std::alloc::{AllocFailed, Global};
use std::marker::Model;

/// A 2-cocycle of a larger quandle, on the heap, with values mod a number from 2 to 255 (Carter and others 2003), which contracts see as a `Cochain`.
#[derive(Drop)]
pub struct LargeCocycle {
    quandle: LargeQuandle,
    modulus: u8,
    table: Vec<u8>,
}

impl Model for LargeCocycle {
    ghost use Rattle.cocycle_core.specs.Cocycle.{Cochain, IsCocycle};

    ghost Value = { Cochain };

    ghost view = { λ c. record { quandle = c.quandle; modulus = c.modulus; entries = c.table.items } };

    ghost invariant = { λ c. IsCocycle (record { quandle = c.quandle; modulus = c.modulus; entries = c.table.items }) };
}

impl LargeCocycle {
    /// The cocycle of a table in which `table[x * order + y]` is `φ(x, y)`. Takes no memory.
    ///
    /// If the table breaks a law, the error is the first law that it breaks, with the lexicographically first case.
    pub fn new(
        quandle: LargeQuandle,
        modulus: u8,
        table: Vec<u8>,
    ) -> Result<LargeCocycle, CocycleFault>
        ensures fault { result_err result ≡ first_cocycle_fault (record { quandle = quandle; modulus = modulus; entries = table.items }) }
        ensures cocycle { IfOk result (λ c. c ≡ record { quandle = quandle; modulus = modulus; entries = table.items }) }
    {
        let operations = quandle.operations();
        let _order = operations.order();
        match table_fault(operations, modulus, table.as_slice()) {
            Some(fault) => Err(fault),
            None => Ok(LargeCocycle {
                quandle,
                modulus,
                table,
            }),
        }
    }

    /// A copy of the cocycle. It fails only if memory runs out.
    pub fn copy(&self, alloc: Global) -> Result<LargeCocycle, AllocFailed<u8>>
        ensures { IfOk result (λ c. c ≡ self.now) }
    {
        let operations = self.quandle.operations();
        let quandle = LargeQuandle::of(alloc, &operations)?;
        let table = copy_of(alloc, self.table.as_slice())?;
        Ok(LargeCocycle {
            quandle,
            modulus: self.modulus,
            table,
        })
    }

    /// The operations of the quandle of which it is a cocycle. Takes no memory.
    pub fn quandle(&self) -> Operations<'_>
        ensures { result ≡ self.now.quandle }
    {
        self.quandle.operations()
    }

    /// Its values, with the operations of its quandle. Takes no memory.
    pub fn values(&self) -> Values<'_>
        ensures { result ≡ self.now }
    {
        Values::of_table(
            self.quandle.operations(),
            self.modulus,
            self.table.as_slice(),
        )
    }
}

/// The same bytes again.
fn copy_of(alloc: Global, bytes: &[u8]) -> Result<Vec<u8>, AllocFailed<u8>>
    ensures { IfOk result (λ v. v.items ≡ bytes.now) }
{
    let mut copy = Vec::new(alloc);
    for byte in bytes {
        copy.push(*byte)?;
    }
    Ok(copy)
}
