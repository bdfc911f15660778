//! A block of one heap that becomes free room.

ghost use Rattle.std.specs.Prelude.{◌+◌, Ok};
ghost use Rattle.os_heap_words.specs.lists.Lists.{items_after_release};
ghost use Rattle.os_heap_words.specs.Cursors.{IsAtBlock};
ghost use Rattle.os_heap_words.specs.Outcomes.{end_at, items_at, Releases};

use crate::marks::remark_gap;
use crate::neighbour::{free_behind, own_total};
use crate::walk::Cursor;
use crate::words::{BASE, put, put_free, put_link, word};
use address_map::{AddressMap, Item};

/// Makes a block free room. It joins the free items that touch it; at the base it is dropped, with that before it.
pub fn give_back(map: &mut AddressMap, heap: u32, block: u32, cursor: &Cursor)
    requires { IsAtBlock map.old heap block cursor.now }
    ensures { Releases map.old map.new heap (end_at map.old heap) (Ok tt)
        (items_after_release block (heap + 16) (items_at map.old heap)) }
{
    let base = heap + word(map, heap + BASE);
    let own = own_total(map, heap, block, cursor);
    let behind = cursor.at + own;
    let at = cursor.at - cursor.gap;
    let total = cursor.gap + own;
    if behind == base {
        put_link(map, heap, cursor.from, 0);
        put(map, heap + BASE, at - heap);
        remark_gap(map, cursor, &[Item::Live(own)], &[]);
        return;
    }
    if behind == cursor.free {
        let item = free_behind(map, heap, block, cursor);
        let joined = total + item.total;
        put_free(map, heap, cursor.from, at, joined, item.next);
        let olds = [Item::Live(own), Item::Free(item.total)];
        remark_gap(map, cursor, &olds, &[Item::Free(joined)]);
        return;
    }
    put_free(map, heap, cursor.from, at, total, cursor.free);
    remark_gap(map, cursor, &[Item::Live(own)], &[Item::Free(total)]);
}
