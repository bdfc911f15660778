//! The call that claims a block.

ghost use Rattle.std.specs.Prelude.{◌≡◌};
ghost use Rattle.os_heap_words.specs.Outcome.{Gives};
ghost use Rattle.os_heap.specs.Sound.{IsSoundMap, KeepsLayout};
ghost use Rattle.os_heap.specs.Store.{store_of};
ghost use Rattle.os_heap.specs.Calls.{store_after_get};
ghost use Rattle.os_heap.specs.Probes.{get_probes};

use crate::heaps::{Heaps, find};
use os_heap_words::claim::{claim_total, total_for};
use os_heap_words::counted::{Counted, refused};
use os_heap_words::{AddressMap, ErrorNumber};

impl Heaps {
    /// Claims a block of `size` bytes in the heap that starts at `heap`, and answers the address of its first byte. The
    /// block is the front of the first free block, along the links, that has room; else it is made at the base.
    ///
    /// # Errors
    ///
    /// `HeapBadDesc` where no heap starts at `heap`; `HeapNoRoom` where neither a free block nor the room above the
    /// base suffices. Nothing is changed then.
    ///
    /// RISC OS 3 Programmer's Reference Manual, "OS_Heap", reason 2.
    pub fn get(&self, map: &mut AddressMap, heap: u32, size: u32) -> Counted<u32>
        requires state { IsSoundMap map.old }
        ensures store { Gives (store_of map.old) (store_after_get (store_of map.old) heap size) result.answer
            (store_of map.new) }
        ensures kept { KeepsLayout map.old map.new }
        ensures probes { result.probes ≡ get_probes (store_of map.old) heap size }
    {
        match find(map, heap) {
            Some(_) => claim_total(map, heap, total_for(size)),
            None => refused(ErrorNumber::HeapBadDesc, 0),
        }
    }
}
