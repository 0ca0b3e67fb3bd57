//! A quandle and its two operations.
ghost use Rattle.std.specs.Prelude.{◌≡◌, ◌<◌, ◌≤◌, ◌*◌, IfOk};
ghost use Rattle.std.specs.Result.{result_err};
ghost use Rattle.quandle_core.specs.Quandle.{IsQuandle, over, back};
ghost use Rattle.quandle_core.specs.declared.quandle.TheConstants.{MAX_ORDER};
ghost use Rattle.quandle_core.specs.Fault.{first_quandle_fault};

use crate::fault::{QuandleFault, entry, table_fault};
use crate::operations::Operations;
use arrayvec::ArrayVec;
use std::marker::Model;

/// The greatest order of a quandle.
pub const MAX_ORDER: usize = 32;

/// The greatest number of entries of a table.
pub const MAX_TABLE: usize = MAX_ORDER * MAX_ORDER;

/// A finite quandle (Joyce 1982), which contracts see as its table.
///
/// Its colours are the numbers below its order, which is 1 to `MAX_ORDER`.
#[derive(Drop)]
pub struct Quandle {
    order: u8,
    // Both operations by column, the columns `MAX_ORDER` places apart.
    forward: [u8; MAX_TABLE],
    backward: [u8; MAX_TABLE],
}

impl Model for Quandle {
    ghost use Rattle.std.specs.Prelude.{◌≡◌, ◌<◌, ◌≤◌, ℕ};
    ghost use Rattle.quandle_core.specs.declared.quandle.TheConstants.{MAX_ORDER};
    ghost use Rattle.quandle_core.specs.Quandle.{Table, IsQuandle, back};
    ghost use Rattle.quandle_core.specs.Tables.{table_of};
    ghost use Rattle.quandle_core.specs.Columns.{cell};

    ghost Value = { Table };

    ghost view = { λ q. table_of q.order (cell q.forward) };

    ghost invariant = { λ q. IsQuandle (table_of q.order (cell q.forward)) × (q.order ≤ MAX_ORDER)
        × ((x y : ℕ) → x < q.order → y < q.order → cell q.backward x y ≡ back (table_of q.order (cell q.forward)) x y) };
}

impl Quandle {
    /// The quandle of a table in which `table[x * order + y]` is `x ▷ y`.
    ///
    /// If the table breaks a law, the error is the first law that it breaks, with the lexicographically first case.
    pub fn new(order: u8, table: &[u8]) -> Result<Quandle, QuandleFault>
        ensures fault { result_err result ≡ first_quandle_fault (record { order = order; entries = table.now }) }
        ensures quandle { IfOk result (λ q. q ≡ record { order = order; entries = table.now }) }
    {
        match table_fault(MAX_ORDER, order, table) {
            Some(fault) => Err(fault),
            None => Ok(of_table(order, table)),
        }
    }

    /// The quandle of operations on at most `MAX_ORDER` colours. Takes no memory.
    pub fn of(quandle: &Operations) -> Quandle
        requires few { quandle.now.order ≤ MAX_ORDER }
        ensures { result ≡ quandle.now }
    {
        let order = quandle.order();
        of_table(order, entries_of(order, quandle).as_slice())
    }

    /// A copy of the quandle.
    pub fn copy(&self) -> Self
        ensures { result ≡ self.now }
    {
        Quandle {
            order: self.order,
            forward: self.forward,
            backward: self.backward,
        }
    }

    /// The number of colours, from 1 to `MAX_ORDER`.
    pub fn order(&self) -> u8
        ensures order { result ≡ self.now.order }
        ensures few { result ≤ MAX_ORDER }
        ensures quandle { IsQuandle self.now }
    {
        self.order
    }

    /// Its operations. Takes no memory.
    pub fn operations(&self) -> Operations<'_>
        ensures { result ≡ self.now }
    {
        Operations::of_columns(self.order, MAX_ORDER as u8, &self.forward, &self.backward)
    }

    /// `x ▷ y`, for colours x and y below the order.
    pub fn over(&self, x: u8, y: u8) -> u8
        requires { (x < self.now.order) × (y < self.now.order) }
        ensures { result ≡ over self.now x y }
    {
        self.forward[y as usize * MAX_ORDER + x as usize]
    }

    /// `x ◁ y`, the colour `z` with `z ▷ y = x`, for colours x and y below the order.
    pub fn back(&self, x: u8, y: u8) -> u8
        requires { (x < self.now.order) × (y < self.now.order) }
        ensures { result ≡ back self.now x y }
    {
        self.backward[y as usize * MAX_ORDER + x as usize]
    }
}

/// The table of a quandle, row by row.
fn entries_of(order: u8, quandle: &Operations) -> ArrayVec<u8, MAX_TABLE>
    requires order { order ≡ quandle.now.order }
    requires few { order ≤ MAX_ORDER }
    requires laws { IsQuandle quandle.now }
    ensures { result.items ≡ quandle.now.entries }
{
    let size = order as usize;
    let mut entries = ArrayVec::new();
    for place in 0..size * size {
        let value = quandle.over((place / size) as u8, (place % size) as u8);
        entries.push(value);
    }
    entries
}

/// The quandle of a table that has the three laws.
pub(crate) fn of_table(order: u8, table: &[u8]) -> Quandle
    requires laws { IsQuandle (record { order = order; entries = table.now }) }
    requires few { order ≤ MAX_ORDER }
    ensures { result ≡ record { order = order; entries = table.now } }
{
    let mut forward = [0; MAX_TABLE];
    let mut backward = [0; MAX_TABLE];
    for y in 0..order {
        for x in 0..order {
            let z = entry(order, table, x, y);
            forward[y as usize * MAX_ORDER + x as usize] = z;
            backward[y as usize * MAX_ORDER + z as usize] = x;
        }
    }
    Quandle {
        order,
        forward,
        backward,
    }
}
