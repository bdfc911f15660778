//! A block moved to a larger one, with its bytes.

ghost use Rattle.std.specs.Prelude.{◌≡◌, ◌<◌, ◌+◌, ◌-◌, Some};
ghost use Rattle.os_heap_words.specs.Outcome.{Gives};
ghost use Rattle.os_heap.specs.Calls.{store_after_move};
ghost use Rattle.os_heap_words.specs.Cursors.{IsNewTotal};
ghost use Rattle.os_heap.specs.GuestBlocks.{MayMove};
ghost use Rattle.os_heap.specs.Probes.{move_probes};
ghost use Rattle.os_heap_words.specs.lists.Heap.{HeapList};
ghost use Rattle.os_heap_words.specs.lists.Lists.{claim_in_items};
ghost use Rattle.os_heap.specs.Sound.{IsSoundMap, KeepsRest};
ghost use Rattle.os_heap.specs.Store.{store_of, find_heap};

use crate::forget::holds_heap;
use os_heap_words::by_links::find_by_links;
use os_heap_words::claim::{claim_total, find_room};
use os_heap_words::counted::Counted;
use os_heap_words::free::give_back;
use os_heap_words::{AddressMap, ErrorNumber};

/// Moves a block to one of `needed` bytes: claims that, copies the bytes that the old block holds, and gives the old
/// block back. A block in which a heap lies is not moved.
pub(crate) fn relocate(
    map: &mut AddressMap,
    heap: u32,
    block: u32,
    total: u32,
    needed: u64,
) -> Counted<u32>
    requires state { IsSoundMap map.old }
    requires may { MayMove map.old heap block total }
    requires needed { IsNewTotal needed }
    requires larger { total < needed }
    ensures store { (h : HeapList) → find_heap heap (store_of map.old).heaps ≡ Some h
        → Gives (store_of map.old) (store_after_move (store_of map.old) h block total needed) result.answer
        (store_of map.new) }
    ensures kept { KeepsRest map.old map.new }
    ensures probes { (h : HeapList) → find_heap heap (store_of map.old).heaps ≡ Some h → result.probes
        ≡ move_probes (store_of map.old) h block total needed (claim_in_items needed (h.end - 16) h.items) }
{
    if holds_heap(map.regions(), block, total - 4) {
        let room = find_room(map, heap, needed);
        let answer = room.answer.and(Err(ErrorNumber::BlockHoldsHeap));
        return Counted {
            answer,
            probes: room.probes,
        };
    }
    let claim = claim_total(map, heap, needed);
    let Ok(new) = claim.answer else {
        return claim;
    };
    map.move_bytes(block, new, total - 4);
    let cursor = find_by_links(map, heap, block);
    give_back(map, heap, block, &cursor);
    Counted {
        answer: Ok(new),
        probes: claim.probes + cursor.probes,
    }
}
