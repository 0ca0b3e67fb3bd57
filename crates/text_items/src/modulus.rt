//! The modulus of a cocycle.
ghost use Rattle.text_items.specs.Reading.{Gives};
ghost use Rattle.text_items.specs.Modulus.{modulus_at};

use crate::fault::TextFault;
use crate::reading::{at_most, last_number, word};
use text_lines::Line;

/// The greatest modulus of a cocycle.
pub const MAX_MODULUS: u32 = u8::MAX as u32;

/// The line `weight` with a modulus from 2 to `MAX_MODULUS`. A greater one exceeds a limit, a smaller one is malformed.
#[tactic(auto, unfolding(crate::specs::Modulus::modulus_at))]
pub fn modulus_at(line: &mut Line) -> Result<u8, TextFault>
    ensures { Gives (λ k. k) result (modulus_at line.old) }
{
    word(line, b"weight")?;
    let value = last_number(line)?;
    let modulus = at_most(MAX_MODULUS, line, value)?;
    if modulus < 2 {
        return Err(TextFault::Malformed {
            line: line.number(),
        });
    }
    Ok(modulus as u8)
}
