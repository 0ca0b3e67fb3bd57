//! Numbers of edges.
ghost use Rattle.std.specs.Prelude.{◌≡◌, ◌≤◌, ◌*◌, ◌==◌, ◌++◌, map, length, count_by, nat_lt, IfOk, OnOk};
ghost use Rattle.code_rows.specs.declared.code_fault.TheConstants.{MAX_CROSSINGS};
ghost use Rattle.code_rows.specs.Rows.{all_names, names_of, edge_number, name_of, numbered_row};

use crate::row::CodeRow;
use std::alloc::{AllocError, Global};

/// The names at the ends of edges, four to a row.
pub(crate) fn names_of(alloc: Global, rows: &[CodeRow]) -> Result<Vec<u32>, AllocError>
    ensures { IfOk result (λ v. v.items ≡ all_names rows.now) }
{
    let mut names = Vec::new(alloc);
    for row in rows {
        push_names(&mut names, row)?;
    }
    Ok(names)
}

/// Appends the names at the ends of a row.
fn push_names(out: &mut Vec<u32>, row: &CodeRow) -> Result<(), AllocError>
    ensures { OnOk result (out.new.items ≡ out.old.items ++ names_of row.now) }
{
    out.push(row.first)?;
    out.push(row.second)?;
    out.push(row.third)?;
    out.push(row.fourth)?;
    Ok(())
}

/// The rows with their edges numbered from 1 in the order of their names.
pub(crate) fn numbered_rows(
    alloc: Global,
    names: &[u32],
    rows: &[CodeRow],
) -> Result<Vec<CodeRow>, AllocError>
    requires { length names.now ≤ 4 * MAX_CROSSINGS }
    ensures { IfOk result (λ v. v.items ≡ map (numbered_row names.now) rows.now) }
{
    rows.iter().map(|row| numbered(names, row)).collect(alloc)
}

/// A row with its edges numbered.
fn numbered(names: &[u32], row: &CodeRow) -> CodeRow
    requires { length names.now ≤ 4 * MAX_CROSSINGS }
    ensures { result ≡ numbered_row names.now row.now }
{
    CodeRow {
        first: edge_number(names, row.first),
        second: edge_number(names, row.second),
        third: edge_number(names, row.third),
        fourth: edge_number(names, row.fourth),
    }
}

/// The number of an edge: 1 more than there are edges with lesser names.
fn edge_number(names: &[u32], name: u32) -> u32
    requires { length names.now ≤ 4 * MAX_CROSSINGS }
    ensures { result ≡ edge_number names.now name }
{
    (ends_below(names, name) / 2 + 1) as u32
}

/// At how many ends lesser names are.
fn ends_below(names: &[u32], name: u32) -> usize
    ensures below { result ≡ count_by (λ m. nat_lt m name) names.now }
    ensures few { result ≤ length names.now }
{
    names.iter().filter(|other| **other < name).count()
}

/// The name of the edge with a number.
pub(crate) fn name_of(names: &[u32], edge: u32) -> u32
    requires { length names.now ≤ 4 * MAX_CROSSINGS }
    ensures { result ≡ name_of names.now edge }
{
    for name in names {
        if edge_number(names, *name) == edge {
            return *name;
        }
    }
    0
}
