//! Larger quandles, on the heap.
ghost use Rattle.std.specs.Prelude.{◌≡◌, ◌<◌, ◌≤◌, ◌*◌, Err, None, Some, length, IfErr, IfOk};
ghost use Rattle.quandle_core.specs.declared.fault.QuandleFault.{QuandleFault};
ghost use Rattle.quandle_core.specs.declared.large.LargeFault.TheVariants as large;
ghost use Rattle.quandle_core.specs.declared.operations.TheConstants.{MAX_LARGE_ORDER};
ghost use Rattle.quandle_core.specs.Quandle.{IsQuandle, over, back};
ghost use Rattle.quandle_core.specs.Columns.{operation_columns};
ghost use Rattle.quandle_core.specs.Fault.{first_fault_within};

use crate::fault::{QuandleFault, entry, table_fault};
use crate::operations::{MAX_LARGE_ORDER, Operations};
use std::alloc::{AllocFailed, Global};
use std::marker::Model;

/// Why a table gave no `LargeQuandle`.
#[derive(Clone, Copy, PartialEq, Eq)]
pub enum LargeFault {
    /// The first law that the table breaks, with its lexicographically first case.
    Broken { fault: QuandleFault },
    /// Memory ran out.
    OutOfMemory,
}

impl From<AllocFailed<u8>> for LargeFault {
    ghost use Rattle.quandle_core.specs.declared.large.LargeFault.TheVariants as large;

    ghost from_gives = { λ _ e. e ≡ large.OutOfMemory };

    fn from(_: AllocFailed<u8>) -> LargeFault {
        LargeFault::OutOfMemory
    }
}

/// A finite quandle of order 1 to `MAX_LARGE_ORDER`, on the heap, which contracts see as its table.
#[derive(Drop)]
pub struct LargeQuandle {
    order: u8,
    // Both operations by column, one column after the other.
    forward: Vec<u8>,
    backward: Vec<u8>,
}

impl Model for LargeQuandle {
    ghost use Rattle.std.specs.Prelude.{◌≡◌, ◌≤◌};
    ghost use Rattle.quandle_core.specs.declared.operations.TheConstants.{MAX_LARGE_ORDER};
    ghost use Rattle.quandle_core.specs.Quandle.{Table, IsQuandle, back};
    ghost use Rattle.quandle_core.specs.Tables.{table_of};
    ghost use Rattle.quandle_core.specs.Columns.{cell_at, operation_columns};

    ghost Value = { Table };

    ghost view = { λ q. table_of q.order (cell_at q.order q.forward.items) };

    ghost invariant = { λ q. IsQuandle (table_of q.order (cell_at q.order q.forward.items)) × (q.order ≤ MAX_LARGE_ORDER)
        × (q.forward.items ≡ operation_columns q.order (cell_at q.order q.forward.items))
        × (q.backward.items ≡ operation_columns q.order (back (table_of q.order (cell_at q.order q.forward.items)))) };
}

impl LargeQuandle {
    /// The quandle of a table in which `table[x * order + y]` is `x ▷ y`.
    ///
    /// If the table breaks a law, the error is the first law that it breaks, with the lexicographically first case; otherwise it fails only if memory runs out.
    pub fn new(alloc: Global, order: u8, table: &[u8]) -> Result<LargeQuandle, LargeFault>
        ensures broken { (fault : QuandleFault) → first_fault_within MAX_LARGE_ORDER (record { order = order; entries = table.now }) ≡ Some fault
            → result ≡ Err (large.Broken fault) }
        ensures memory { first_fault_within MAX_LARGE_ORDER (record { order = order; entries = table.now }) ≡ None
            → IfErr result (λ e. e ≡ large.OutOfMemory) }
        ensures quandle { IfOk result (λ q. q ≡ record { order = order; entries = table.now }) }
    {
        match table_fault(MAX_LARGE_ORDER, order, table) {
            Some(fault) => Err(LargeFault::Broken { fault }),
            None => Ok(of_table(alloc, order, table)?),
        }
    }

    /// A quandle with these operations. It fails only if memory runs out.
    pub fn of(alloc: Global, quandle: &Operations) -> Result<LargeQuandle, AllocFailed<u8>>
        ensures { IfOk result (λ q. q ≡ quandle.now) }
    {
        let order = quandle.order();
        let entries = entries_of(alloc, order, quandle)?;
        of_table(alloc, order, entries.as_slice())
    }

    /// Its operations. Takes no memory.
    pub fn operations(&self) -> Operations<'_>
        ensures { result ≡ self.now }
    {
        Operations::of_columns(
            self.order,
            self.order,
            self.forward.as_slice(),
            self.backward.as_slice(),
        )
    }
}

/// The quandle of a table that has the three laws.
fn of_table(alloc: Global, order: u8, table: &[u8]) -> Result<LargeQuandle, AllocFailed<u8>>
    requires laws { IsQuandle (record { order = order; entries = table.now }) }
    requires few { order ≤ MAX_LARGE_ORDER }
    ensures { IfOk result (λ q. q ≡ record { order = order; entries = table.now }) }
{
    let forward = over_columns(alloc, order, table)?;
    let backward = back_columns(alloc, order, table)?;
    Ok(LargeQuandle {
        order,
        forward,
        backward,
    })
}

/// The table of a quandle, row by row.
fn entries_of(alloc: Global, order: u8, quandle: &Operations) -> Result<Vec<u8>, AllocFailed<u8>>
    requires order { order ≡ quandle.now.order }
    requires laws { IsQuandle quandle.now }
    ensures { IfOk result (λ v. v.items ≡ quandle.now.entries) }
{
    let size = order as usize;
    let mut entries = Vec::new(alloc);
    for place in 0..size * size {
        let value = quandle.over((place / size) as u8, (place % size) as u8);
        entries.push(value)?;
    }
    Ok(entries)
}

/// The columns of `x ▷ y`.
fn over_columns(alloc: Global, order: u8, table: &[u8]) -> Result<Vec<u8>, AllocFailed<u8>>
    requires least { 1 ≤ order }
    requires square { length table.now ≡ order * order }
    ensures { IfOk result (λ v. v.items ≡ operation_columns order (over (record { order = order; entries = table.now }))) }
{
    let size = order as usize;
    let mut cells = Vec::new(alloc);
    for place in 0..size * size {
        let value = entry(order, table, (place % size) as u8, (place / size) as u8);
        cells.push(value)?;
    }
    Ok(cells)
}

/// The columns of `x ◁ y`.
fn back_columns(alloc: Global, order: u8, table: &[u8]) -> Result<Vec<u8>, AllocFailed<u8>>
    requires least { 1 ≤ order }
    requires laws { IsQuandle (record { order = order; entries = table.now }) }
    ensures { IfOk result (λ v. v.items ≡ operation_columns order (back (record { order = order; entries = table.now }))) }
{
    let size = order as usize;
    let mut cells = Vec::new(alloc);
    for place in 0..size * size {
        let value = back_entry(order, table, (place % size) as u8, (place / size) as u8);
        cells.push(value)?;
    }
    Ok(cells)
}

/// `x ◁ y`, sought in a table.
fn back_entry(order: u8, table: &[u8], x: u8, y: u8) -> u8
    requires laws { IsQuandle (record { order = order; entries = table.now }) }
    requires place { (x < order) × (y < order) }
    ensures { result ≡ back (record { order = order; entries = table.now }) x y }
{
    for z in 0..order {
        if entry(order, table, z, y) == x {
            return z;
        }
    }
    order
}
