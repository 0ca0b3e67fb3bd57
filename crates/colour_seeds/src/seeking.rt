//! Few seeds of a diagram. The sets of one to four columns are tried by masks, and what is found is put to the test of `Seeding::new`.
ghost use Rattle.std.specs.Prelude.{◌≡◌, ◌<◌, ◌≤◌, IfErr, IfOk, length};
ghost use Rattle.std.specs.List.{range_with_len};
ghost use Rattle.grid_core.specs.declared.grid.TheConstants.{MAX_SIZE};
ghost use Rattle.grid_core.specs.Diagram.{size};
ghost use Rattle.colour_seeds.specs.Plan.{IsPlan};
ghost use Rattle.colour_seeds.specs.declared.seeding.SeedFault.TheVariants as fault;

use crate::seeding::{SeedFault, Seeding};
use arrayvec::ArrayVec;
use colour_rows::Spans;
use grid_core::{Grid, MAX_SIZE};
use std::alloc::Global;

/// The columns of a row by bits: those that pass over it, and its ends.
#[derive(Clone, Copy, Default, PartialEq, Eq)]
struct RowMask {
    overs: u64,
    ends: u64,
}

/// Few seeds of a grid: the first of the least sets of at most four columns that settle all, or else each column that those left of it do not settle.
///
/// That they are few isn't proved.
pub fn seeds_of(alloc: Global, grid: &Grid) -> Result<Seeding, SeedFault>
    ensures plan { IfOk result (λ s. IsPlan grid.now s) }
    ensures fault { IfErr result (λ e. e ≡ fault.OutOfMemory) }
{
    let few = few_columns(grid);
    match Seeding::new(alloc, grid, few.as_slice()) {
        Ok(seeding) => Ok(seeding),
        Err(SeedFault::OutOfMemory) => Err(SeedFault::OutOfMemory),
        Err(_) => by_all_columns(alloc, grid),
    }
}

/// The seeds among all columns: each that those left of it do not settle.
fn by_all_columns(alloc: Global, grid: &Grid) -> Result<Seeding, SeedFault>
    ensures plan { IfOk result (λ s. IsPlan grid.now s) }
    ensures fault { IfErr result (λ e. e ≡ fault.OutOfMemory) }
{
    let all = all_columns(grid);
    match Seeding::new(alloc, grid, all.as_slice()) {
        Ok(seeding) => Ok(seeding),
        Err(fault) => Err(fault),
    }
}

/// All columns, from the left.
fn all_columns(grid: &Grid) -> ArrayVec<u8, MAX_SIZE>
    ensures { result.items ≡ range_with_len 0 (size grid.now) }
{
    let _size = grid.size();
    let mut columns = ArrayVec::new();
    for column in 0..grid.size() {
        columns.push(column);
    }
    columns
}

/// The columns of the first mask of one to four columns that settles all, as far as there is one.
fn few_columns(grid: &Grid) -> ArrayVec<u8, MAX_SIZE> {
    let _size = grid.size();
    let rows = row_masks(grid);
    let mut found = 0;
    for count in 1..5 {
        if found == 0 {
            found = seek(rows.as_slice(), grid.size(), 0, 0, count);
        }
    }
    columns_of(found, grid.size())
}

/// The columns of a mask, from the left.
fn columns_of(mask: u64, size: u8) -> ArrayVec<u8, MAX_SIZE>
    requires { size ≤ MAX_SIZE }
{
    let mut columns = ArrayVec::new();
    for column in 0..size {
        if (mask >> column) & 1 == 1 {
            columns.push(column);
        }
    }
    columns
}

/// The masks of all rows.
fn row_masks(grid: &Grid) -> ArrayVec<RowMask, MAX_SIZE> {
    let _size = grid.size();
    let spans = Spans::of(grid);
    let mut masks = ArrayVec::new();
    for row in 0..grid.size() {
        let (left, right) = grid.ends(row);
        let between = ((1u64 << right) - 1) & !((1u64 << (left + 1)) - 1);
        masks.push(RowMask {
            overs: spans.covering(row) & between,
            ends: (1u64 << left) | (1u64 << right),
        });
    }
    masks
}

/// The first mask that settles all, of those with so many columns more from a column on, or 0.
fn seek(rows: &[RowMask], size: u8, chosen: u64, from: u8, more: u8) -> u64
    requires size { size ≤ MAX_SIZE }
{
    if more == 0 {
        return if_settles(rows, size, chosen);
    }
    for column in from..size {
        let found = seek(rows, size, chosen | (1u64 << column), column + 1, more - 1);
        if found != 0 {
            return found;
        }
    }
    0
}

/// A mask whose columns settle all, else 0.
fn if_settles(rows: &[RowMask], size: u8, chosen: u64) -> u64
    requires size { size ≤ MAX_SIZE }
{
    let all = (1u64 << size) - 1;
    if reached(rows, chosen) == all {
        chosen
    } else {
        0
    }
}

/// The columns that those of a mask settle.
fn reached(rows: &[RowMask], chosen: u64) -> u64 {
    let mut known = chosen;
    for _round in 0..MAX_SIZE {
        let before = known;
        for row in rows {
            if row.overs & !known == 0 && row.ends & known != 0 {
                known |= row.ends;
            }
        }
        if known == before {
            return known;
        }
    }
    known
}
