//! The ruling on the classes of a table.
ghost use Rattle.std.specs.Prelude.{◌≡◌, ◌<◌, ◌≤◌, ℕ, Some, None, IfOk, IfSome, length};
ghost use Rattle.std.specs.List.{slice_get};
ghost use Rattle.colour_seeds.specs.Settled.{Determine};
ghost use Rattle.colour_seeds.specs.Plan.{IsPlan, seeds_in};
ghost use Rattle.evidence_core.specs.declared.blocks.Block.{Block};
ghost use Rattle.verdict_core.specs.Diagrams.{grid_of};
ghost use Rattle.table_check.specs.TableHolds.{numbers_at, ShownAt, ClassHolds, ClassAt, ClassesHold};
ghost use Rattle.table_check.specs.Cause.{shown_cause, FailsBy, IsClassCause, ClassFails, IsTableCause};

use crate::cause::{ClassCause, TableCause};
use crate::class_items::Class;
use crate::tables::KnotTable;
use colour_seeds::{SeedFault, Seeding};
use evidence_core::Block;
use grid_core::Grid;
use memory_core::OutOfMemory;
use number_check::{Cause, SaidNumbers, settled_cause};
use std::alloc::Global;

/// Why the classes of a table don't hold: the first cause, if there is one.
pub(crate) fn classes_cause(
    alloc: Global,
    table: &KnotTable,
) -> Result<Option<TableCause>, OutOfMemory>
    ensures some { IfOk result (λ o. IfSome o (λ cause. IsTableCause table.now cause)) }
    ensures none { IfOk result (λ o. o ≡ None → ClassesHold table.now (length table.now.classes)) }
{
    for at in 0..table.classes.as_slice().len() {
        if let Some(cause) = class_at(alloc, table, at)? {
            return Ok(Some(TableCause::Class { class: at, cause }));
        }
    }
    Ok(None)
}

/// Why the class at this place doesn't hold.
fn class_at(alloc: Global, table: &KnotTable, at: usize) -> Result<Option<ClassCause>, OutOfMemory>
    ensures some { IfOk result (λ o. IfSome o (λ cause. ClassFails table.now at cause)) }
    ensures none { IfOk result (λ o. o ≡ None → ClassAt table.now at) }
{
    match table.classes.as_slice().get(at) {
        Some(class) => class_cause(alloc, table.blocks.as_slice(), class),
        None => Ok(None),
    }
}

/// Why a class doesn't hold. A plan of its seeds is made once, for all blocks.
fn class_cause(
    alloc: Global,
    blocks: &[Block],
    class: &Class,
) -> Result<Option<ClassCause>, OutOfMemory>
    ensures some { IfOk result (λ o. IfSome o (λ cause. IsClassCause blocks.now class.now cause)) }
    ensures none { IfOk result (λ o. o ≡ None → ClassHolds blocks.now class.now) }
{
    let grid = class.diagram.grid();
    match Seeding::new(alloc, &grid, class.seeds.as_slice()) {
        Ok(seeding) => blocks_cause(alloc, &grid, blocks, class, &seeding),
        Err(SeedFault::Outside { column }) => Ok(Some(ClassCause::Outside { column })),
        Err(SeedFault::Unsettled { column }) => Ok(Some(ClassCause::Unsettled { column })),
        Err(SeedFault::OutOfMemory) => Err(OutOfMemory),
    }
}

/// Why the numbers of a class, whose seeds settle its diagram, aren't shown by each block.
fn blocks_cause(
    alloc: Global,
    grid: &Grid,
    blocks: &[Block],
    class: &Class,
    seeding: &Seeding,
) -> Result<Option<ClassCause>, OutOfMemory>
    requires grid { grid.now ≡ grid_of class.now.diagram }
    requires settled { Determine class.now.seeds.items grid.now }
    requires plan { IsPlan grid.now seeding.now }
    requires few { seeds_in seeding.now ≤ length class.now.seeds.items }
    ensures some { IfOk result (λ o. IfSome o (λ cause. IsClassCause blocks.now class.now cause)) }
    ensures none { IfOk result (λ o. o ≡ None → ClassHolds blocks.now class.now) }
{
    for at in 0..blocks.len() {
        if let Some(cause) = block_cause(alloc, grid, &blocks[at], at, class, seeding)? {
            return Ok(Some(cause));
        }
    }
    Ok(None)
}

/// Why the numbers of a class by the block at this place, if they are said, aren't shown.
fn block_cause(
    alloc: Global,
    grid: &Grid,
    block: &Block,
    at: usize,
    class: &Class,
    seeding: &Seeding,
) -> Result<Option<ClassCause>, OutOfMemory>
    requires grid { grid.now ≡ grid_of class.now.diagram }
    requires plan { IsPlan grid.now seeding.now }
    requires few { seeds_in seeding.now ≤ length class.now.seeds.items }
    ensures { IfOk result (λ o. o ≡ shown_cause class.now at block.now (numbers_at class.now at)) }
{
    let Some(numbers) = numbers_at(class, at) else {
        return Ok(None);
    };
    let said = SaidNumbers {
        which: 1,
        seeds: class.seeds.as_slice(),
        numbers,
    };
    match settled_cause(alloc, grid, block, &said, seeding)? {
        None => Ok(None),
        Some(Cause::Number { place, .. }) => Ok(Some(ClassCause::Numbers { block: at, place })),
        Some(_) => Ok(Some(ClassCause::Wide { block: at })),
    }
}

/// The numbers of a class by the block at this place, if they are said.
pub(crate) fn numbers_at(class: &Class, at: usize) -> Option<&[u32]>
    ensures some { IfSome result (λ list. numbers_at class.now at ≡ Some list.now) }
    ensures none { result ≡ None → numbers_at class.now at ≡ None }
{
    match class.counts.as_slice().get(at) {
        Some(Some(numbers)) => Some(numbers.as_slice()),
        _ => None,
    }
}
