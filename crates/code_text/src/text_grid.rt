//! Grid diagrams of texts of codes.
ghost use Rattle.std.specs.Prelude.{◌≡◌, ◌≤◌, None, length, IfOk, IfSome, IfNone};
ghost use Rattle.code_rows.specs.declared.code_fault.TheConstants.{MAX_CROSSINGS};
ghost use Rattle.code_rows.specs.CodeFault.{first_code_fault};
ghost use Rattle.code_rows.specs.Rows.{IsCodeOf};
ghost use Rattle.code_rows.specs.RowsFault.{unpaired};
ghost use Rattle.code_text.specs.GaussSigns.{AreSigned};
ghost use Rattle.code_text.specs.TextGrid.{Says, HasWrongLines, IsAnswer};

use crate::code_reading::CodeText;
use crate::gauss_check::{agrees_with_gauss, all_of};
use crate::gauss_lines::GaussPassage;
use crate::gauss_signs::signed;
use crate::refusal::TextRefusal;
use code_grids::{DrawingRefusal, grid_of_code};
use code_rows::{are_joined, code_of_rows};
use crossing_codes::Code;
use grid_core::Grid;
use memory_core::{Items, OutOfMemory};
use std::alloc::{AllocError, Global};

/// A grid diagram of what the text of a code says, or why none is answered. There may be at most `MAX_CROSSINGS` rows.
///
/// The diagram's own code is one with these rows and loops, under other names of crossings and edges. Where there are signed Gauss
/// lines, they are its own, so they decide every sign.
pub fn grid_of_text(
    alloc: Global,
    text: &CodeText,
) -> Result<Result<Grid, TextRefusal>, OutOfMemory>
    requires { length text.now.rows ≤ MAX_CROSSINGS }
    ensures { IfOk result (λ answer. IsAnswer text.now answer) }
{
    let code = match code_of_rows(alloc, text.rows.as_slice(), text.loops)? {
        Ok(code) => code,
        Err(fault) => return Ok(Err(TextRefusal::Rows(fault))),
    };
    let Some(said) = said_by(alloc, text, code)? else {
        return Ok(Err(TextRefusal::Gauss));
    };
    match grid_of_code(alloc, &said)? {
        Ok(drawing) => Ok(Ok(drawing.grid)),
        Err(DrawingRefusal::Columns { columns }) => Ok(Err(TextRefusal::Columns { columns })),
        Err(DrawingRefusal::Lost) => Ok(Err(TextRefusal::Lost)),
    }
}

/// The code that a text says, from one of its rows and loops: with the signs of the Gauss lines, where there are some.
fn said_by(alloc: Global, text: &CodeText, code: Code) -> Result<Option<Code>, OutOfMemory>
    requires few { length text.now.rows ≤ MAX_CROSSINGS }
    requires paired { unpaired text.now.rows text.now.loops ≡ None }
    requires rows { IsCodeOf text.now.rows text.now.loops code }
    requires faultless { first_code_fault code ≡ None }
    ensures some { IfOk result (λ found. IfSome found (λ said. Says text.now said)) }
    ensures none { IfOk result (λ found. IfNone found (HasWrongLines text.now)) }
{
    let walks = text.walks.as_slice();
    if walks.is_empty() {
        return Ok(Some(code));
    }
    let passages = all_of(alloc, walks)?;
    let said = with_signs(alloc, passages.as_slice(), &code)?;
    if !agrees_with_gauss(&said, walks, passages.as_slice()) {
        return Ok(None);
    }
    if !are_joined(&said) {
        return Ok(None);
    }
    Ok(Some(said))
}

/// A code with the signs of the passages. It fails only if memory runs out.
fn with_signs(alloc: Global, passages: &[GaussPassage], code: &Code) -> Result<Code, AllocError>
    requires { length code.now.crossings ≤ MAX_CROSSINGS }
    ensures crossings { IfOk result (λ said. AreSigned passages.now code.now.crossings said.crossings) }
    ensures rest { IfOk result (λ said. (said.edges ≡ code.now.edges) × (said.loops ≡ code.now.loops)) }
{
    let crossings = signed(alloc, passages, code.crossings.as_slice())?;
    Ok(Code {
        crossings: Items::from_vec(crossings),
        edges: code.edges,
        loops: code.loops,
    })
}
