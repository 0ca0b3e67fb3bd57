//! Codes from rows.
ghost use Rattle.std.specs.Prelude.{◌≡◌, ◌≤◌, ◌*◌, ℕ, length, Err, None, IfOk};
ghost use Rattle.code_rows.specs.declared.code_fault.TheConstants.{MAX_CROSSINGS};
ghost use Rattle.code_rows.specs.CodeFault.{first_code_fault};
ghost use Rattle.code_rows.specs.Rows.{all_names, IsCodeOf};
ghost use Rattle.code_rows.specs.RowsFault.{unpaired, as_unpaired};
ghost use Rattle.code_rows.specs.Refused.{IsClash, IsUnplane};
ghost use Rattle.code_rows.specs.RowSigns.{with_signs, IsBest};

use crate::code_fault::{CodeFault, first_fault};
use crate::numbers::{name_of, names_of, numbered_rows};
use crate::row::CodeRow;
use crate::row_signs::signs_of;
use crate::rows_fault::{RowsFault, unpaired};
use crossing_codes::{Code, Crossing};
use memory_core::{Items, OutOfMemory};
use std::alloc::{AllocError, Global};

/// The signed code of these rows with this many loops and without a fault, or why there is none: the first fault of the rows themselves;
/// else `Direction` where no signs give each strand a direction; else `Plane`. There may be at most `MAX_CROSSINGS` rows.
pub fn code_of_rows(
    alloc: Global,
    rows: &[CodeRow],
    loops: u32,
) -> Result<Result<Code, RowsFault>, OutOfMemory>
    requires { length rows.now ≤ MAX_CROSSINGS }
    ensures code { IfOk result (λ answer. IfOk answer (λ code. IsCodeOf rows.now loops code)) }
    ensures faultless { IfOk result (λ answer. IfOk answer (λ code. first_code_fault code ≡ None)) }
    ensures unpaired { IfOk result (λ answer. as_unpaired answer ≡ unpaired rows.now loops) }
    ensures direction { IfOk result (λ answer. (name : ℕ) → answer ≡ Err (RowsFault.Direction name) → IsClash rows.now loops name) }
    ensures plane { IfOk result (λ answer. answer ≡ Err RowsFault.Plane → IsUnplane rows.now loops) }
{
    let names = names_of(alloc, rows)?;
    if let Some(fault) = unpaired(rows, names.as_slice(), loops) {
        return Ok(Err(fault));
    }
    let code = directed(alloc, names.as_slice(), rows, loops)?;
    match first_fault(alloc, &code)? {
        None => Ok(Ok(code)),
        Some(CodeFault::Edge { edge }) => Ok(Err(RowsFault::Direction {
            edge: name_of(names.as_slice(), edge),
        })),
        Some(CodeFault::Plane) => Ok(Err(RowsFault::Plane)),
        Some(CodeFault::Empty) => unreachable!(),
        Some(CodeFault::Size) => unreachable!(),
        Some(CodeFault::Count) => unreachable!(),
        Some(CodeFault::Range { crossing: _ }) => unreachable!(),
    }
}

/// A code of the rows whose first edges lead from one passage to one, as far as any signs do that.
fn directed(alloc: Global, names: &[u32], rows: &[CodeRow], loops: u32) -> Result<Code, OutOfMemory>
    requires few { length rows.now ≤ MAX_CROSSINGS }
    requires names { names.now ≡ all_names rows.now }
    ensures code { IfOk result (λ code. IsCodeOf rows.now loops code) }
    ensures best { IfOk result (λ code. IsBest rows.now loops code) }
{
    let numbered = numbered_rows(alloc, names, rows)?;
    let signs = signs_of(alloc, numbered.as_slice())?;
    let crossings = crossings_of(alloc, numbered.as_slice(), signs.as_slice())?;
    Ok(Code {
        edges: 2 * rows.len() as u32,
        crossings: Items::from_vec(crossings),
        loops,
    })
}

/// The crossings of rows with these signs.
fn crossings_of(
    alloc: Global,
    rows: &[CodeRow],
    signs: &[bool],
) -> Result<Vec<Crossing>, AllocError>
    requires { length signs.now ≡ length rows.now }
    ensures { IfOk result (λ v. v.items ≡ with_signs rows.now signs.now) }
{
    let mut crossings = Vec::new(alloc);
    for k in 0..rows.len() {
        crossings.push(rows[k].with_sign(signs[k]))?;
    }
    Ok(crossings)
}
