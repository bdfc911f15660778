//! Where the items of a heap end.

ghost use Rattle.std.specs.Prelude.{◌≡◌, ◌+◌};
ghost use Rattle.os_heap_words.specs.Items.{size_of};
ghost use Rattle.os_heap_words.specs.Outcomes.{HasHeapAt, items_at};
ghost use Rattle.os_heap.specs.Room.{base_offset};
ghost use Rattle.os_heap.specs.Store.{store_of, IsSound};

use crate::heaps::{Heaps, find};
use os_heap_words::AddressMap;
use os_heap_words::words::{BASE, word};

impl Heaps {
    /// Where the items of a heap end, in bytes from its start; 0 where no heap starts there.
    pub fn base(&self, map: &AddressMap, heap: u32) -> u32
        requires { IsSound (store_of map.now) }
        ensures { result ≡ base_offset (store_of map.now) heap }
    {
        match find(map, heap) {
            Some(_) => base_of(map, heap),
            None => 0,
        }
    }
}

fn base_of(map: &AddressMap, heap: u32) -> u32
    requires { HasHeapAt map.now heap }
    ensures { result ≡ 16 + size_of (items_at map.now heap) }
{
    word(map, heap + BASE)
}
