//! Blocks by which diagrams are to be distinguished.
ghost use Rattle.std.specs.Prelude.{◌≡◌, ◌++◌, [], OnOk};
ghost use Rattle.std.specs.List.{All};
ghost use Rattle.certificates.specs.Printed.{HasBlockText};
ghost use Rattle.text_items.specs.Reading.{Gives};
ghost use Rattle.seek_core.specs.Given.{more_blocks};

use memory_core::Items;
use number_text::{Block, read_blocks};
use std::alloc::{AllocError, Global};
use std::marker::Model;
use text_items::TextFault;

/// A list of blocks, each of which has a text, so that evidence by it can be written. Contracts see the list.
#[derive(Drop)]
pub struct Blocks {
    list: Vec<Block>,
}

impl Model for Blocks {
    ghost use Rattle.std.specs.Prelude.{List};
    ghost use Rattle.std.specs.List.{All};
    ghost use Rattle.evidence_core.specs.declared.blocks.Block.{Block};
    ghost use Rattle.certificates.specs.Printed.{HasBlockText};

    ghost Value = { List Block };

    ghost view = { λ b. b.list.items };

    ghost invariant = { λ b. All HasBlockText b.list.items };
}

impl Blocks {
    /// No blocks.
    pub fn new(alloc: Global) -> Blocks
        ensures { result ≡ [] }
    {
        Blocks {
            list: Vec::new(alloc),
        }
    }

    /// The blocks in their order.
    pub fn as_slice(&self) -> &[Block]
        ensures list { result.now ≡ self.now }
        ensures texts { All HasBlockText self.now }
    {
        self.list.as_slice()
    }

    /// These blocks, followed by those of a text that has blocks alone. Otherwise the fault of its first bad line, or `OutOfMemory`.
    pub fn with_text(self, alloc: Global, bytes: &[u8]) -> Result<Blocks, TextFault>
        ensures { Gives (λ b. b) result (more_blocks self bytes.now) }
    {
        let more = read_blocks(alloc, bytes)?;
        let Blocks { mut list } = self;
        push_all(&mut list, more)?;
        Ok(Blocks { list })
    }
}

/// Appends blocks.
fn push_all(list: &mut Vec<Block>, more: Items<Block>) -> Result<(), AllocError>
    ensures { OnOk result (list.new.items ≡ list.old.items ++ more) }
{
    let mut more = more.into_vec();
    list.append(&mut more)
}
