//! Larger quandles by name.
ghost use Rattle.std.specs.Prelude.{◌≡◌, IfOk};
ghost use Rattle.quandle_core.specs.declared.operations.TheConstants.{MAX_LARGE_ORDER};
ghost use Rattle.quandle_core.specs.Names.{NamesWithin, called};
ghost use Rattle.quandle_core.specs.declared.names.QuandleName.TheVariants as name;

use crate::large::LargeQuandle;
use crate::names::{Listed, QuandleName};
use crate::operations::Operations;
use std::alloc::{AllocFailed, Global};
use std::marker::Model;

/// A quandle of order 1 to `MAX_LARGE_ORDER` and its name, on the heap, which contracts see as a `NamedQuandle`: the name gives the quandle.
#[derive(Drop)]
pub struct LargeListed {
    name: QuandleName,
    quandle: LargeQuandle,
}

impl Model for LargeListed {
    ghost use Rattle.quandle_core.specs.declared.operations.TheConstants.{MAX_LARGE_ORDER};
    ghost use Rattle.quandle_core.specs.Names.{NamedQuandle, NamesWithin};

    ghost Value = { NamedQuandle };

    ghost view = { λ q. record { name = q.name; table = q.quandle } };

    ghost invariant = { λ q. NamesWithin MAX_LARGE_ORDER q.name q.quandle };
}

impl LargeListed {
    /// Any quandle, under the name `Table`. Takes no memory.
    pub fn table(quandle: LargeQuandle) -> LargeListed
        ensures { result ≡ called name.Table quandle }
    {
        let _order = quandle.operations().order();
        LargeListed {
            name: QuandleName::Table,
            quandle,
        }
    }

    /// A smaller quandle, with its name. It fails only if memory runs out.
    pub fn listed(alloc: Global, listed: &Listed) -> Result<LargeListed, AllocFailed<u8>>
        ensures { IfOk result (λ q. q ≡ listed.now) }
    {
        let operations = listed.quandle().operations();
        let quandle = LargeQuandle::of(alloc, &operations)?;
        Ok(LargeListed {
            name: listed.name(),
            quandle,
        })
    }

    /// The name.
    pub fn name(&self) -> QuandleName
        ensures { result ≡ self.now.name }
    {
        self.name
    }

    /// The operations of the quandle, which the name gives. Takes no memory.
    pub fn operations(&self) -> Operations<'_>
        ensures quandle { result ≡ self.now.table }
        ensures names { NamesWithin MAX_LARGE_ORDER self.now.name self.now.table }
    {
        self.quandle.operations()
    }

    /// A copy. It fails only if memory runs out.
    pub fn copy(&self, alloc: Global) -> Result<LargeListed, AllocFailed<u8>>
        ensures { IfOk result (λ q. q ≡ self.now) }
    {
        let operations = self.quandle.operations();
        let quandle = LargeQuandle::of(alloc, &operations)?;
        Ok(LargeListed {
            name: self.name,
            quandle,
        })
    }
}
