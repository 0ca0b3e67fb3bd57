//! The two sizes of blocks, by the number of colours of their quandles.
ghost use Rattle.std.specs.Prelude.{◌≡◌};
ghost use Rattle.seek_core.specs.Sizes.{is_larger, is_smaller};

use number_text::Block;
use quandle_core::MAX_ORDER;

/// Whether the quandle of a block has at most `MAX_ORDER` colours.
pub(crate) fn is_smaller(block: &Block) -> bool
    ensures { result ≡ is_smaller block.now }
{
    !is_larger(block)
}

/// Whether the quandle of a block has more colours than `MAX_ORDER`.
pub(crate) fn is_larger(block: &Block) -> bool
    ensures { result ≡ is_larger block.now }
{
    block.listed.operations().order() as usize > MAX_ORDER
}
