//! The ruling on a table.
ghost use Rattle.std.specs.Prelude.{◌≡◌, ◌↔◌, IfOk};
ghost use Rattle.std.specs.List.{All};
ghost use Rattle.quandle_core.specs.Quandle.{IsQuandle};
ghost use Rattle.colour_numbers.specs.Numbers.{IsCocycleOrNone};
ghost use Rattle.evidence_core.specs.declared.blocks.Block.{Block};
ghost use Rattle.table_check.specs.TableHolds.{TableHolds, RowsJoined, ClassesApart, RowsApart};
ghost use Rattle.table_check.specs.Ruling.{RulesOnTable};

use crate::cause::TableRuling;
use crate::classes::classes_cause;
use crate::pairs::pairs_cause;
use crate::rows::rows_cause;
use crate::tables::KnotTable;
use evidence_core::Block;
use memory_core::OutOfMemory;
use number_check::laws_of;
use std::alloc::Global;

/// Whether a table of knots holds: accepted exactly where it does, else rejected for the first cause, of its classes in turn, then of its
/// pairs of classes, then of its rows.
///
/// A class holds where its seeds settle its diagram, and its numbers by each block are shown by them to be the diagram's own. A pair of
/// classes holds where it's left open, or some block has numbers of both that differ. A row holds where its moves lead from its diagram
/// to that of its class. Where a table that was read is accepted, rows of one class are equivalent, and no list of moves joins the diagrams
/// of two classes, or rows of them, unless these are left open.
///
/// The colourings of each class by each block are counted once, and each move is made once.
pub fn rule(alloc: Global, table: &KnotTable) -> Result<TableRuling, OutOfMemory>
    ensures ruling { IfOk result (λ r. RulesOnTable table.now r) }
    ensures accepted { IfOk result (λ r. (r ≡ TableRuling.Accepted) ↔ TableHolds table.now) }
    ensures joined { IfOk result (λ r. r ≡ TableRuling.Accepted → RowsJoined table.now) }
    ensures classes { IfOk result (λ r. r ≡ TableRuling.Accepted → ClassesApart table.now) }
    ensures apart { IfOk result (λ r. r ≡ TableRuling.Accepted → RowsApart table.now) }
{
    laws_of_each(table.blocks.as_slice());
    let ruling = ruled(alloc, table)?;
    Ok(ruling)
}

/// The ruling by the definition.
fn ruled(alloc: Global, table: &KnotTable) -> Result<TableRuling, OutOfMemory>
    ensures ruling { IfOk result (λ r. RulesOnTable table.now r) }
{
    if let Some(cause) = classes_cause(alloc, table)? {
        return Ok(TableRuling::Rejected(cause));
    }
    if let Some(cause) = pairs_cause(table) {
        return Ok(TableRuling::Rejected(cause));
    }
    if let Some(cause) = rows_cause(table) {
        return Ok(TableRuling::Rejected(cause));
    }
    Ok(TableRuling::Accepted)
}

/// The quandles of blocks are quandles, and their cocycles, if there are any, are cocycles. It does nothing.
fn laws_of_each(blocks: &[Block])
    ensures quandles { All (λ b. IsQuandle b.listed.table) blocks.now }
    ensures cocycles { All (λ b. IsCocycleOrNone b.cocycle) blocks.now }
{
    for block in blocks {
        laws_of(block);
    }
}
