//! The blocks of the flex store in order of address, one after another.

ghost use Rattle.std.specs.Prelude.{◌≡◌, List};
ghost use Rattle.std.specs.Iterator.{YieldsFirst, item_count};
ghost use Rattle.os_heap.specs.Memory.{byte_at, bytes_of};
ghost use Rattle.flex_store.specs.declared.blocks.FlexBlock.{FlexBlock};
ghost use Rattle.flex_store.specs.Listed.{all_listed, blocks_with_places};
ghost use Rattle.flex_store.specs.Memory.{blocks_in};
ghost use Rattle.flex_store.specs.State.{flex_in, IsFlex, IsText};

use crate::flex::Flex;
use crate::walk::{HEADER, SIZE, taken, word};
use os_heap::AddressMap;
use std::marker::Model;

/// A block of the flex store: the address of its anchor, that of its bytes, and how many of these
/// are its guest's own.
#[derive(Clone, Copy)]
pub struct FlexBlock {
    pub anchor: u32,
    pub at: u32,
    pub size: u32,
}

/// The blocks of the flex store, in the order of their addresses.
#[derive(Drop)]
pub struct FlexBlocks<'a> {
    map: &'a AddressMap,
    header: u32,
    end: u32,
}

impl<'a> Model for FlexBlocks<'a> {
    ghost Value = { List FlexBlock };

    ghost view = { λ b. blocks_with_places b.header (blocks_in (byte_at b.map.now) b.header b.end) };

    ghost invariant = { λ b. IsText (bytes_of b.map.now) b.header b.end
        (blocks_in (byte_at b.map.now) b.header b.end) };
}

impl<'a> Iterator for FlexBlocks<'a> {
    type Item = FlexBlock;

    ghost next_gives = { YieldsFirst (λ s. s) };

    ghost remaining = { item_count (λ s. s) };

    fn next(&mut self) -> Option<FlexBlock> {
        if self.header >= self.end {
            return None;
        }
        let anchor = word(self.map, self.header);
        let size = word(self.map, self.header + SIZE);
        let at = self.header + HEADER;
        self.header += taken(u64::from(size)) as u32;
        Some(FlexBlock { anchor, at, size })
    }
}

impl Flex {
    /// The blocks of the store, in the order of their addresses; none before `init`.
    pub fn blocks<'a>(&self, map: &'a AddressMap) -> FlexBlocks<'a>
        requires { IsFlex map.now self.now }
        ensures { result ≡ all_listed (flex_in map.now self.now.extent) }
    {
        let Some(extent) = self.extent else {
            return FlexBlocks {
                map,
                header: 0,
                end: 0,
            };
        };
        FlexBlocks {
            map,
            header: extent.start,
            end: extent.start + extent.used,
        }
    }
}
