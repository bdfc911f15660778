//! OS_Heap 3: a block is given back, and joins the free items that touch it.

ghost use Rattle.std.specs.Prelude.{◌≡◌, Ok, true, false, is_some};
ghost use Rattle.os_heap_words.specs.Outcome.{Gives};
ghost use Rattle.os_heap_words.specs.Memory.{regions};
ghost use Rattle.os_heap_words.specs.Outcomes.{items_at};
ghost use Rattle.os_heap.specs.GuestBlocks.{IsGuestBlock, has_anchor_in};
ghost use Rattle.os_heap_words.specs.Cursors.{IsAtBlock};
ghost use Rattle.os_heap.specs.Sound.{GivesBack, IsSoundMap, KeepsRest};
ghost use Rattle.os_heap.specs.Store.{store_of, find_heap};
ghost use Rattle.os_heap.specs.Calls.{gave_back};
ghost use Rattle.os_heap.specs.Probes.{walk_probes};

use crate::forget::forget_inner;
use crate::guests::find_guest_block;
use crate::heaps::{Heaps, find};
use os_heap_words::counted::{Counted, refused};
use os_heap_words::free::give_back;
use os_heap_words::neighbour::own_total;
use os_heap_words::walk::Cursor;
use os_heap_words::{AddressMap, ErrorNumber};

/// Whether the block at the cursor holds an anchor, its length word counted with it.
pub(crate) fn holds_anchor(map: &AddressMap, heap: u32, block: u32, cursor: &Cursor) -> bool
    requires { IsAtBlock map.now heap block cursor.now }
    ensures { result ≡ has_anchor_in map.now heap block }
{
    map.anchor_in(cursor.at, own_total(map, heap, block, cursor))
}

/// Gives up a block in which no anchor lies: the heaps in it are forgotten, and it is made free room.
pub(crate) fn give_up(map: &mut AddressMap, heap: u32, block: u32, cursor: &Cursor)
    requires state { IsSoundMap map.old }
    requires found { is_some (find_heap heap (store_of map.old).heaps) ≡ true }
    requires block { IsGuestBlock (regions map.old) heap (items_at map.old heap) block
        cursor.now.from cursor.now.at cursor.now.free cursor.now.gap }
    requires unheld { has_anchor_in map.old heap block ≡ false }
    ensures store { GivesBack map.old map.new heap block }
    ensures kept { KeepsRest map.old map.new }
{
    let total = own_total(map, heap, block, cursor);
    forget_inner(map, block, total);
    give_back(map, heap, block, cursor);
}

/// Gives a block of one heap back, where no anchor is in it.
fn release(map: &mut AddressMap, heap: u32, block: u32) -> Counted<()>
    requires state { IsSoundMap map.old }
    requires found { is_some (find_heap heap (store_of map.old).heaps) ≡ true }
    ensures store { Gives (store_of map.old) (gave_back (store_of map.old) heap block) result.answer
        (store_of map.new) }
    ensures kept { KeepsRest map.old map.new }
    ensures probes { result.probes ≡ walk_probes (store_of map.old) heap block }
{
    let walk = find_guest_block(map, heap, block);
    let Some(cursor) = walk.hit else {
        return refused(ErrorNumber::HeapNotABlock, walk.probes);
    };
    if holds_anchor(map, heap, block, &cursor) {
        return refused(ErrorNumber::HeapHoldsAnchor, walk.probes);
    }
    give_up(map, heap, block, &cursor);
    Counted {
        answer: Ok(()),
        probes: walk.probes,
    }
}

impl Heaps {
    /// Gives the block whose first byte is at `block` back to the heap that starts at `heap`. Free blocks that touch it
    /// become one with it; where it ends at the base, the base sinks to its start. The heaps that lie in the block are
    /// forgotten.
    ///
    /// # Errors
    ///
    /// `HeapBadDesc` where no heap starts at `heap`; `HeapNotABlock` where no block's bytes begin at `block`, or they
    /// are a module image; `HeapHoldsAnchor` where an anchor of the flex store lies in the block. Nothing is changed
    /// then.
    ///
    /// RISC OS 3 Programmer's Reference Manual, "OS_Heap", reason 3.
    pub fn free(&self, map: &mut AddressMap, heap: u32, block: u32) -> Counted<()>
        requires state { IsSoundMap map.old }
        ensures store { Gives (store_of map.old) (gave_back (store_of map.old) heap block) result.answer
            (store_of map.new) }
        ensures kept { KeepsRest map.old map.new }
        ensures probes { result.probes ≡ walk_probes (store_of map.old) heap block }
    {
        match find(map, heap) {
            Some(_) => release(map, heap, block),
            None => refused(ErrorNumber::HeapBadDesc, 0),
        }
    }
}
