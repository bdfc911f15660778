//! The block of an anchor.

ghost use Rattle.std.specs.Prelude.{◌≡◌};
ghost use Rattle.trace_store_text.specs.flex.Changes.{block_of_anchor, is_same_block};

use store_copies::{FlexBlock, FlexBlocks};

/// The block of an anchor among some blocks, if one has it.
pub fn find_block(blocks: FlexBlocks, anchor: u32) -> Option<FlexBlock>
    ensures { result ≡ block_of_anchor anchor blocks.entry }
{
    let mut rest = blocks;
    while let Some(block) = rest.next() {
        if block.anchor == anchor {
            return Some(block);
        }
    }
    None
}

/// Whether two blocks of an anchor stand at the same address, and have the same size.
pub fn is_same_block(old: &FlexBlock, new: &FlexBlock) -> bool
    ensures { result ≡ is_same_block old.now new.now }
{
    old.at == new.at && old.size == new.size
}
