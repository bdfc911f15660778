//! OS_Heap 1: the largest free block and all free room, found along the links.

ghost use Rattle.std.specs.Prelude.{◌≡◌, ◌<◌, ◌+◌};
ghost use Rattle.os_heap.specs.Store.{store_of, IsSound};
ghost use Rattle.os_heap.specs.Calls.{heap_description};
ghost use Rattle.os_heap.specs.Probes.{describe_probes};

use crate::heaps::{Heaps, find};
use os_heap_words::counted::{Counted, refused};
use os_heap_words::free_items::free_room;
use os_heap_words::words::{BASE, word};
use os_heap_words::{AddressMap, ErrorNumber};

impl Heaps {
    /// The largest block that can be claimed of a heap, and all that is free in it, in bytes.
    ///
    /// Each free item is looked at once, along the links; a probe is one of them.
    ///
    /// # Errors
    ///
    /// `HeapBadDesc` where no heap starts at that address.
    pub fn describe(&self, map: &AddressMap, heap: u32) -> Counted<(u32, u32)>
        requires { IsSound (store_of map.now) }
        ensures answer { result.answer ≡ heap_description (store_of map.now) heap }
        ensures probes { result.probes ≡ describe_probes (store_of map.now) heap }
    {
        let Some(region) = find(map, heap) else {
            return refused(ErrorNumber::HeapBadDesc, 0);
        };
        let free = free_room(map, heap, region.len);
        let room = region.len - word(map, heap + BASE);
        let largest = free.largest.max(room / 8 * 8);
        Counted {
            answer: Ok((largest.saturating_sub(4), free.total + room)),
            probes: free.count,
        }
    }
}
