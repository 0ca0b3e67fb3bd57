//! Quandles by name.
ghost use Rattle.std.specs.Prelude.{◌≡◌, ◌≤◌};
ghost use Rattle.quandle_core.specs.Quandle.{IsQuandle};
ghost use Rattle.quandle_core.specs.declared.quandle.TheConstants.{MAX_ORDER};
ghost use Rattle.quandle_core.specs.Names.{NamedQuandle, Names, called, quandle_named, is_order};
ghost use Rattle.quandle_core.specs.declared.names.QuandleName.TheVariants as name;

use crate::quandle::{MAX_ORDER, Quandle};
use std::marker::Model;

/// What a quandle is called. The numbers may be any; in a `Listed` the order is from 1 to `MAX_ORDER`.
#[derive(Clone, Copy, PartialEq, Eq)]
pub enum QuandleName {
    /// The trivial quandle of this order.
    Trivial(u8),
    /// The dihedral quandle of this order.
    Dihedral(u8),
    /// The tetrahedral quandle, of order 4.
    Tetrahedral,
    /// The Alexander quandle of this order, and this factor, which has an inverse.
    Alexander(u8, u8),
    /// A quandle by its table, whichever it is.
    Table,
}

/// A quandle and its name, which contracts see as a `NamedQuandle`: the name gives the quandle.
#[derive(Drop)]
pub struct Listed {
    name: QuandleName,
    quandle: Quandle,
}

impl Model for Listed {
    ghost use Rattle.quandle_core.specs.Names.{NamedQuandle, Names};

    ghost Value = { NamedQuandle };

    ghost view = { λ l. record { name = l.name; table = l.quandle } };

    ghost invariant = { λ l. Names l.name l.quandle };
}

impl Listed {
    /// The one quandle of a name: `None` exactly where the order is not from 1 to `MAX_ORDER`, the factor has no inverse,
    /// or the name is `Table`. Takes no memory.
    pub fn named(name: QuandleName) -> Option<Listed>
        ensures { result ≡ quandle_named name }
    {
        match name {
            QuandleName::Trivial(n) => trivial(n),
            QuandleName::Dihedral(n) => dihedral(n),
            QuandleName::Tetrahedral => Some(Listed {
                name,
                quandle: Quandle::tetrahedral(),
            }),
            QuandleName::Alexander(n, factor) => alexander(n, factor),
            QuandleName::Table => None,
        }
    }

    /// Any quandle, under the name `Table`. Takes no memory.
    pub fn table(quandle: Quandle) -> Listed
        ensures { result ≡ called name.Table quandle }
    {
        let _order = quandle.order();
        Listed {
            name: QuandleName::Table,
            quandle,
        }
    }

    /// The name.
    pub fn name(&self) -> QuandleName
        ensures { result ≡ self.now.name }
    {
        self.name
    }

    /// The quandle, which the name gives.
    pub fn quandle(&self) -> &Quandle
        ensures quandle { result.now ≡ self.now.table }
        ensures names { Names self.now.name self.now.table }
    {
        &self.quandle
    }

    /// A copy. Takes no memory.
    pub fn copy(&self) -> Self
        ensures { result ≡ self.now }
    {
        Listed {
            name: self.name,
            quandle: self.quandle.copy(),
        }
    }
}

/// Whether a quandle may have this order.
fn is_order(n: u8) -> bool
    ensures { result ≡ is_order n }
{
    1 <= n && n as usize <= MAX_ORDER
}

fn trivial(n: u8) -> Option<Listed>
    ensures { result ≡ quandle_named (name.Trivial n) }
{
    if !is_order(n) {
        return None;
    }
    Some(Listed {
        name: QuandleName::Trivial(n),
        quandle: Quandle::trivial(n),
    })
}

fn dihedral(n: u8) -> Option<Listed>
    ensures { result ≡ quandle_named (name.Dihedral n) }
{
    if !is_order(n) {
        return None;
    }
    Some(Listed {
        name: QuandleName::Dihedral(n),
        quandle: Quandle::dihedral(n),
    })
}

fn alexander(n: u8, factor: u8) -> Option<Listed>
    ensures { result ≡ quandle_named (name.Alexander n factor) }
{
    if !is_order(n) {
        return None;
    }
    match Quandle::alexander(n, factor) {
        Ok(quandle) => Some(Listed {
            name: QuandleName::Alexander(n, factor),
            quandle,
        }),
        Err(_) => None,
    }
}
