//! OS_Heap 4: a block gets another size, in place or elsewhere.

ghost use Rattle.std.specs.Prelude.{◌≡◌, ◌≤◌, ◌<◌, ◌+◌, ◌-◌, ◌^◌, is_some, true};
ghost use Rattle.os_heap_words.specs.Outcome.{Gives};
ghost use Rattle.os_heap_words.specs.Memory.{anchor_of, regions};
ghost use Rattle.os_heap_words.specs.Records.{anchor_among};
ghost use Rattle.os_heap.specs.Calls.{store_after_resize};
ghost use Rattle.os_heap_words.specs.Cursors.{IsNewTotal};
ghost use Rattle.os_heap.specs.GuestBlocks.{ResizesInPlace, IsGuestBlock};
ghost use Rattle.os_heap_words.specs.Outcomes.{items_at};
ghost use Rattle.os_heap.specs.Probes.{resize_probes, AreInBounds};
ghost use Rattle.os_heap.specs.Sound.{IsSoundMap, KeepsRest};
ghost use Rattle.os_heap.specs.Store.{store_of, find_heap};

use crate::forget::forget_cut;
use crate::free::{give_up, holds_anchor};
use crate::guests::find_guest_block;
use crate::heaps::{Heaps, find};
use crate::relocate::relocate;
use os_heap_words::counted::{Counted, refused};
use os_heap_words::neighbour::own_total;
use os_heap_words::refit::refit;
use os_heap_words::walk::Cursor;
use os_heap_words::words::word;
use os_heap_words::{AddressMap, ErrorNumber, changed_by, round_up_8};

impl Heaps {
    /// Changes the total of the block whose first byte is at `block` by `change`, a signed word in two's complement,
    /// and answers where the block's first byte is then. The new total is rounded up to a multiple of 8; where it is 4
    /// or less, the block is freed, and the answer is 0. The block stays where it is if it shrinks, if the free item
    /// behind it has room, or if it is the last and there is room at the base; else it is moved, as by a claim, a copy
    /// of its bytes, and a release. The heaps of which bytes are freed or cut off are forgotten, and those that lie in
    /// them.
    ///
    /// A probe is an item that the walk to the block passes, a free item that the search for room looks at, or a free
    /// item below the block that is given back.
    ///
    /// # Errors
    ///
    /// `HeapBadDesc` where no heap starts at `heap`; `HeapNotABlock` where no block's bytes begin at `block`, or they
    /// are a module image; `HeapHoldsAnchor` where an anchor of the flex store lies in what is freed, cut off or moved;
    /// `HeapNoRoom` where the block would have to move and there is no room; `BlockHoldsHeap` where it would have to
    /// move and a heap lies in it. Nothing is changed then.
    ///
    /// RISC OS 3 Programmer's Reference Manual, "OS_Heap", reason 4.
    pub fn resize(&self, map: &mut AddressMap, heap: u32, block: u32, change: u32) -> Counted<u32>
        requires state { IsSoundMap map.old }
        ensures store { Gives (store_of map.old) (store_after_resize (store_of map.old) heap block change)
            result.answer
            (store_of map.new) }
        ensures kept { KeepsRest map.old map.new }
        ensures probes { result.probes ≡ resize_probes (store_of map.old) heap block change }
        ensures bounds { AreInBounds result.probes block (find_heap heap (store_of map.old).heaps) }
    {
        match find(map, heap) {
            Some(_) => resize_block(map, heap, block, change),
            None => refused(ErrorNumber::HeapBadDesc, 0),
        }
    }
}

/// Changes the total of a block, where the heap is there.
fn resize_block(map: &mut AddressMap, heap: u32, block: u32, change: u32) -> Counted<u32>
    requires state { IsSoundMap map.old }
    requires found { is_some (find_heap heap (store_of map.old).heaps) ≡ true }
    ensures store { Gives (store_of map.old) (store_after_resize (store_of map.old) heap block change)
        result.answer
        (store_of map.new) }
    ensures kept { KeepsRest map.old map.new }
    ensures probes { result.probes ≡ resize_probes (store_of map.old) heap block change }
{
    let walk = find_guest_block(map, heap, block);
    let Some(cursor) = walk.hit else {
        return refused(ErrorNumber::HeapNotABlock, walk.probes);
    };
    let total = word(map, cursor.at);
    let size = changed_by(total, change);
    if size <= 4 {
        if holds_anchor(map, heap, block, &cursor) {
            return refused(ErrorNumber::HeapHoldsAnchor, walk.probes);
        }
        give_up(map, heap, block, &cursor);
        return Counted {
            answer: Ok(0),
            probes: walk.probes,
        };
    }
    let needed = round_up_8(size);
    if cut_holds_anchor(map, block, total, needed) {
        return refused(ErrorNumber::HeapHoldsAnchor, walk.probes);
    }
    if resize_in_place(map, heap, block, &cursor, needed) {
        return Counted {
            answer: Ok(block),
            probes: walk.probes,
        };
    }
    if holds_anchor(map, heap, block, &cursor) {
        return refused(ErrorNumber::HeapHoldsAnchor, walk.probes);
    }
    let moved = relocate(map, heap, block, total, needed);
    Counted {
        answer: moved.answer,
        probes: walk.probes + moved.probes,
    }
}

/// Gives a block another total where it stands, if it can, and says whether it did. The heaps that go with what is cut
/// off are forgotten.
fn resize_in_place(
    map: &mut AddressMap,
    heap: u32,
    block: u32,
    cursor: &Cursor,
    needed: u64,
) -> bool
    requires state { IsSoundMap map.old }
    requires found { is_some (find_heap heap (store_of map.old).heaps) ≡ true }
    requires block { IsGuestBlock (regions map.old) heap (items_at map.old heap) block
        cursor.now.from cursor.now.at cursor.now.free cursor.now.gap }
    requires needed { IsNewTotal needed }
    ensures { ResizesInPlace map.old map.new heap block needed result }
{
    let total = own_total(map, heap, block, cursor);
    forget_cut(map, block, total, needed);
    refit(map, heap, block, cursor, needed)
}

/// Whether an anchor lies in what is cut off a block that gets another total: in nothing, where that is no smaller.
fn cut_holds_anchor(map: &AddressMap, block: u32, total: u32, needed: u64) -> bool
    requires block { 4 ≤ block }
    requires below { block + total < 2 ^ 32 }
    ensures { result ≡ anchor_among (anchor_of map.now) (block - 4 + needed) (total - needed) }
{
    if needed >= u64::from(total) {
        return false;
    }
    let needed = needed as u32;
    map.anchor_in(block - 4 + needed, total - needed)
}
