//! OS_Heap 6: how many bytes a block holds.

ghost use Rattle.std.specs.Prelude.{◌≡◌, ◌+◌};
ghost use Rattle.os_heap.specs.Calls.{bytes_held, guests_total, block_sized};
ghost use Rattle.os_heap_words.specs.Outcomes.{HasHeapAt, items_at};
ghost use Rattle.os_heap_words.specs.lists.Counts.{begun_below};
ghost use Rattle.os_heap_words.specs.Memory.{regions};
ghost use Rattle.os_heap.specs.Store.{store_of, IsSound};
ghost use Rattle.os_heap.specs.Probes.{walk_probes};

use crate::guests::find_guest_block;
use crate::heaps::{Heaps, find};
use os_heap_words::counted::{Counted, refused};
use os_heap_words::words::word;
use os_heap_words::{AddressMap, ErrorNumber};

impl Heaps {
    /// The bytes that the block whose first byte is at `block` holds: its total, less the 4 bytes of its length word. A
    /// probe is an item that the walk to the block passes.
    ///
    /// # Errors
    ///
    /// `HeapBadDesc` where no heap starts at `heap`; `HeapNotABlock` where no block's bytes begin at `block`, or they
    /// are a module image.
    ///
    /// RISC OS 3 Programmer's Reference Manual, "OS_Heap", reason 6.
    pub fn block_size(&self, map: &AddressMap, heap: u32, block: u32) -> Counted<u32>
        requires { IsSound (store_of map.now) }
        ensures answer { result.answer ≡ block_sized (store_of map.now) heap block }
        ensures probes { result.probes ≡ walk_probes (store_of map.now) heap block }
    {
        match find(map, heap) {
            Some(_) => measure(map, heap, block),
            None => refused(ErrorNumber::HeapBadDesc, 0),
        }
    }
}

/// The bytes that a block of one heap holds.
fn measure(map: &AddressMap, heap: u32, block: u32) -> Counted<u32>
    requires { HasHeapAt map.now heap }
    ensures answer { result.answer ≡ bytes_held (guests_total (regions map.now) heap
        (items_at map.now heap) block) }
    ensures probes { result.probes ≡ begun_below block (heap + 16) (items_at map.now heap) }
{
    let walk = find_guest_block(map, heap, block);
    match walk.hit {
        Some(cursor) => Counted {
            answer: Ok(word(map, cursor.at) - 4),
            probes: walk.probes,
        },
        None => refused(ErrorNumber::HeapNotABlock, walk.probes),
    }
}
