//! The blocks by which diagrams are to be distinguished, from the files that the words name for them.
ghost use Rattle.std.specs.Prelude.{◌≡◌, Ok, IfOk, IfErr};
ghost use Rattle.seek_core.specs.Given.{more_blocks};
ghost use Rattle.seek_call.specs.Blocks.{AreBlocksOf, AddsBlocksOf, HasNoBlocks, IsBlocksFault, IsBlocksFailure};

use crate::failure::{Failure, file_name};
use seek_core::Blocks;
use seek_parts::Texts;
use seek_words::Asked;
use std::alloc::Global;

/// The blocks of all files that the words name for them, in this order. Otherwise the answer is why one of the files can't be had.
pub(crate) fn read_blocks<'a, F: Texts>(
    alloc: Global,
    files: &F,
    asked: &Asked<'a>,
) -> Result<Blocks, Failure<'a>>
    ensures blocks { IfOk result (λ blocks. AreBlocksOf (F.told files.now) asked.now.weights.items blocks) }
    ensures failure { IfErr result (λ f. IsBlocksFailure (F.told files.now) asked.now.weights.items f) }
{
    let mut blocks = Blocks::new(alloc);
    for path in &asked.weights {
        blocks = with_file(alloc, files, blocks, *path)?;
    }
    Ok(blocks)
}

/// These blocks, followed by those of a file.
fn with_file<'a, F: Texts>(
    alloc: Global,
    files: &F,
    blocks: Blocks,
    path: &'a str,
) -> Result<Blocks, Failure<'a>>
    ensures blocks { IfOk result (λ more. AddsBlocksOf (F.told files.now) path.entry blocks more) }
    ensures failure { IfErr result (λ f. HasNoBlocks (F.told files.now) path.entry f) }
{
    let name = file_name(path);
    match files.text(alloc, path, name) {
        Ok(bytes) => with_text(alloc, blocks, bytes.as_slice(), name),
        Err(fault) => Err(Failure::Part(fault)),
    }
}

/// These blocks, followed by those of a text, which messages call by this name.
fn with_text<'a>(
    alloc: Global,
    blocks: Blocks,
    bytes: &[u8],
    name: &'a str,
) -> Result<Blocks, Failure<'a>>
    ensures blocks { IfOk result (λ more. more_blocks blocks bytes.now ≡ Ok more) }
    ensures failure { IfErr result (λ f. IsBlocksFault (more_blocks blocks bytes.now) f) }
{
    match blocks.with_text(alloc, bytes) {
        Ok(more) => Ok(more),
        Err(fault) => Err(Failure::Blocks { name, fault }),
    }
}
