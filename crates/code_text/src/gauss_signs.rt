//! Signs of crossings by signed Gauss lines.
ghost use Rattle.std.specs.Prelude.{◌≡◌, ◌≤◌, length, IfOk};
ghost use Rattle.code_rows.specs.declared.code_fault.TheConstants.{MAX_CROSSINGS};
ghost use Rattle.code_text.specs.GaussSigns.{sign_by, AreSigned};

use crate::gauss_lines::GaussPassage;
use code_rows::CodeRow;
use crossing_codes::Crossing;
use std::alloc::{AllocError, Global};

/// The sign that the first passage through a crossing of this number has, or this one where there is none.
fn sign_by(passages: &[GaussPassage], number: usize, sign: bool) -> bool
    ensures { result ≡ sign_by passages.now number sign }
{
    let mut left = passages;
    while let [passage, after @ ..] = left {
        if passage.crossing as usize == number {
            return passage.positive;
        }
        left = after;
    }
    sign
}

/// The crossings with the signs of the passages.
pub(crate) fn signed(
    alloc: Global,
    passages: &[GaussPassage],
    crossings: &[Crossing],
) -> Result<Vec<Crossing>, AllocError>
    requires { length crossings.now ≤ MAX_CROSSINGS }
    ensures { IfOk result (λ v. AreSigned passages.now crossings.now v.items) }
{
    let mut found = Vec::new(alloc);
    for k in 0..crossings.len() {
        let positive = sign_by(passages, k + 1, crossings[k].positive);
        found.push(CodeRow::of(&crossings[k]).with_sign(positive))?;
    }
    Ok(found)
}
