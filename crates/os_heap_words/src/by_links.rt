//! A block's place among the free items of its heap, found along their links.

ghost use Rattle.std.specs.Prelude.{◌≡◌, ◌≢◌, ◌<◌, ◌+◌, true, is_some};
ghost use Rattle.os_heap_words.specs.lists.Counts.{free_below};
ghost use Rattle.os_heap_words.specs.lists.Lists.{live_total};
ghost use Rattle.os_heap_words.specs.lists.Walks.{IsBlock};
ghost use Rattle.os_heap_words.specs.Cursors.{HasFollowed};
ghost use Rattle.os_heap_words.specs.Outcomes.{HasHeapAt, items_at};

use crate::walk::{Cursor, last_link};
use crate::words::{follow, word};
use address_map::{AddressMap, HEAP_DESCRIPTOR};

/// The place of a block among the free items, along their links. A probe is a free item below the block.
pub fn find_by_links(map: &AddressMap, heap: u32, block: u32) -> Cursor
    requires heap { HasHeapAt map.now heap }
    requires live { is_some (live_total block (heap + 16) (items_at map.now heap)) ≡ true }
    ensures block { IsBlock heap (items_at map.now heap) block result.from result.at result.free result.gap }
    ensures probes { result.probes ≡ free_below block (heap + 16) (items_at map.now heap) }
{
    let mut cursor = Cursor {
        from: heap,
        at: heap + HEAP_DESCRIPTOR,
        free: follow(map, heap, heap),
        gap: 0,
        probes: 0,
    };
    while cursor.free != 0 && cursor.free < block {
        cursor = pass_free(map, heap, block, &cursor);
    }
    let at = block - 4;
    if cursor.at == at {
        return cursor;
    }
    Cursor {
        from: last_link(&cursor),
        at,
        free: cursor.free,
        gap: 0,
        probes: cursor.probes,
    }
}

/// The walk along the links after one more free item.
fn pass_free(map: &AddressMap, heap: u32, block: u32, cursor: &Cursor) -> Cursor
    requires heap { HasHeapAt map.now heap }
    requires walk { HasFollowed map.now heap block cursor.now }
    requires more { cursor.now.free ≢ 0 }
    requires before { cursor.now.free < block }
    ensures walk { HasFollowed map.now heap block result }
    ensures grows { cursor.now.at < result.at }
{
    let free = cursor.free;
    let total = word(map, free + 4);
    Cursor {
        from: last_link(cursor),
        at: free + total,
        free: follow(map, heap, free),
        gap: total,
        probes: cursor.probes + 1,
    }
}
