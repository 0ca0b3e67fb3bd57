//! What is read for a search: the parts of its input, and the blocks by which diagrams are to be distinguished.
ghost use Rattle.std.specs.Prelude.{IfOk, IfErr};
ghost use Rattle.seek_parts.specs.Parts.{ArePartsOf, all_due};
ghost use Rattle.seek_call.specs.Blocks.{AreBlocksOf};
ghost use Rattle.seek_call.specs.Inputs.{IsInputsFailure};

use crate::blocks::read_blocks;
use crate::failure::Failure;
use seek_core::Blocks;
use seek_parts::{Parts, Texts};
use seek_words::Asked;
use std::alloc::Global;

/// The parts of an input, and the blocks that go with them.
#[derive(Drop)]
pub(crate) struct Inputs<'a> {
    pub(crate) parts: Parts<'a>,
    pub(crate) blocks: Blocks,
}

/// Reads the parts and the blocks of what is asked. Otherwise the answer is why one of them can't be had.
pub(crate) fn read_inputs<'a, F: Texts>(
    alloc: Global,
    files: &F,
    asked: &Asked<'a>,
) -> Result<Inputs<'a>, Failure<'a>>
    ensures parts { IfOk result (λ inputs. ArePartsOf (F.told files.now) (all_due asked.now) inputs.parts.texts) }
    ensures blocks { IfOk result (λ inputs. AreBlocksOf (F.told files.now) asked.now.weights.items inputs.blocks) }
    ensures failure { IfErr result (λ f. IsInputsFailure (F.told files.now) asked.now f) }
{
    let parts = match Parts::read(alloc, files, asked) {
        Ok(parts) => parts,
        Err(fault) => return Err(Failure::Part(fault)),
    };
    match read_blocks(alloc, files, asked) {
        Ok(blocks) => Ok(Inputs { parts, blocks }),
        Err(failure) => Err(failure),
    }
}
