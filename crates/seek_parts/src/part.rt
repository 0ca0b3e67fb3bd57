//! The bytes of one part.
ghost use Rattle.std.specs.Prelude.{◌≡◌, ◌++◌, codes, IfOk, IfErr, Some};
ghost use Rattle.code_text.specs.TextGrid.{IsTrueDrawing};
ghost use Rattle.seek_parts.specs.Fault.{IsUndrawn, HasNoText};
ghost use Rattle.seek_parts.specs.Parts.{IsTextOf};

use crate::fault::PartFault;
use crate::texts::Texts;
use code_text::{grid_of_text, read_code};
use knot_text::print_grid;
use memory_core::OutOfMemory;
use seek_words::Given;
use std::alloc::Global;

/// The bytes of a part: of a file, the line of a braid, or a diagram of a code. Messages call it by this name.
pub(crate) fn part_bytes<'a, F: Texts>(
    alloc: Global,
    files: &F,
    given: Given<'a>,
    name: &'a str,
) -> Result<Vec<u8>, PartFault<'a>>
    ensures text { IfOk result (λ bytes. IsTextOf (F.told files.now) given.entry bytes.items) }
    ensures fault { IfErr result (λ f. HasNoText (F.told files.now) given.entry f) }
{
    match given {
        Given::Braid(word) => match braid_line(alloc, word) {
            Ok(line) => Ok(line),
            Err(_) => Err(PartFault::OutOfMemory),
        },
        Given::File(path) => files.text(alloc, path, name),
        Given::Code(path) => {
            let bytes = files.text(alloc, path, name)?;
            drawn(alloc, bytes.as_slice(), name)
        }
    }
}

/// The text of a grid diagram of a planar diagram code.
fn drawn<'a>(alloc: Global, bytes: &[u8], name: &'a str) -> Result<Vec<u8>, PartFault<'a>>
    ensures drawing { IfOk result (λ text. IsTrueDrawing bytes.now text.items) }
    ensures fault { IfErr result (λ f. IsUndrawn (Some bytes.now) f) }
{
    let code = match read_code(alloc, bytes) {
        Ok(code) => code,
        Err(fault) => return Err(PartFault::Code { name, fault }),
    };
    match grid_of_text(alloc, &code) {
        Ok(Ok(grid)) => {
            let _size = grid.size();
            match print_grid(alloc, &grid) {
                Ok(printed) => Ok(printed),
                Err(_) => Err(PartFault::OutOfMemory),
            }
        }
        Ok(Err(refusal)) => Err(PartFault::NoDiagram { name, refusal }),
        Err(_) => Err(PartFault::OutOfMemory),
    }
}

/// The line of a braid whose strands and letters are given.
fn braid_line(alloc: Global, word: &str) -> Result<Vec<u8>, OutOfMemory>
    ensures { IfOk result (λ line. line.items ≡ codes "braid " ++ word.now) }
{
    let mut line = Vec::from_slice(alloc, b"braid ")?;
    line.extend_from_slice(word.as_bytes())?;
    Ok(line)
}
