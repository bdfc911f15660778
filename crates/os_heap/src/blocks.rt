//! The items of a heap in order of address, one after another.

ghost use Rattle.std.specs.Prelude.{◌≡◌};
ghost use Rattle.os_heap.specs.Store.{store_of, IsSound};
ghost use Rattle.os_heap.specs.Calls.{items_of};

use crate::heaps::{Heaps, find};
use os_heap_words::AddressMap;
use os_heap_words::blocks::{Blocks, blocks_of};

impl Heaps {
    /// The items of the heap that starts at an address, or `None` where none starts there.
    pub fn blocks<'a>(&self, map: &'a AddressMap, heap: u32) -> Option<Blocks<'a>>
        requires { IsSound (store_of map.now) }
        ensures { result ≡ items_of (store_of map.now) heap }
    {
        let region = find(map, heap)?;
        Some(blocks_of(map, heap, region.len))
    }
}
