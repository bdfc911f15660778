//! One step of a slide: a free item is passed, or a block is laid at its new place.

ghost use Rattle.std.specs.Prelude.{ℕ, ◌≡◌, ◌≤◌, ◌+◌, ◌-◌, ◌%◌, ◌==◌, false, if◌then◌else◌};
ghost use Rattle.dynamic_areas.specs.Items.{link_target};
ghost use Rattle.dynamic_areas.specs.Memory.{byte_at, class_of};
ghost use Rattle.dynamic_areas.specs.Bytes.{word_at};
ghost use Rattle.dynamic_areas.specs.Item.TheVariants.{Free};
ghost use Rattle.dynamic_areas.specs.Marks.{head_class, with_item_marked};
ghost use Rattle.rma.specs.heap_slide.Steps.{IsFreeHere, IsLaid, IsRoomForBlock, IsSetDown, KeepsBytesAndLayout};

use dynamic_areas::{AddressMap, BASE, Item, follow, make, mark_item, put, put_free, word};

/// Where a slide stands.
#[derive(Clone, Copy)]
pub(crate) struct Cursor {
    /// The last free item of those that have their new places, or the heap itself.
    pub(crate) from: u32,

    /// The end of the items that have their new places.
    pub(crate) top: u32,

    /// The item that comes next.
    pub(crate) at: u32,

    /// The next free item from there on, or 0.
    pub(crate) free: u32,
}

/// Passes a free item, which is an item no more.
pub(crate) fn pass_free(map: &mut AddressMap, heap: u32, cursor: &Cursor) -> Cursor
    requires { IsFreeHere map.old heap cursor.now.at }
    ensures from { result.from ≡ cursor.now.from }
    ensures top { result.top ≡ cursor.now.top }
    ensures at { result.at ≡ cursor.now.at + word_at (byte_at map.old) (cursor.now.at + 4) }
    ensures free { result.free ≡ link_target cursor.now.at (word_at (byte_at map.old) cursor.now.at) }
    ensures marks { (a : ℕ) → class_of map.new a
        ≡ with_item_marked cursor.now.at (Free (word_at (byte_at map.old) (cursor.now.at + 4)))
        (head_class false)
        (class_of map.old) a }
    ensures kept { KeepsBytesAndLayout map.old map.new }
{
    let total = word(map, cursor.at + 4);
    let free = follow(map, heap, cursor.at);
    mark_item(map, cursor.at, Item::Free(total), false);
    Cursor {
        at: cursor.at + total,
        free,
        ..*cursor
    }
}

/// Gives a live item its new place: copies it there, and makes it the last item of those that have
/// theirs, with a free one before it where there is a gap.
pub(crate) fn lay(map: &mut AddressMap, heap: u32, cursor: &Cursor, to: u32, total: u32) -> Cursor
    requires room { IsRoomForBlock map.old heap cursor.now.from cursor.now.top to total
        (cursor.now.at + total) }
    requires high { to ≤ cursor.now.at }
    requires aligned { cursor.now.at % 4 ≡ 0 }
    ensures laid { IsLaid map.old map.new heap cursor.now.top cursor.now.at to total }
    ensures from { result.from ≡ (if to == cursor.now.top then cursor.now.from else cursor.now.top) }
    ensures top { result.top ≡ to + total }
    ensures at { result.at ≡ cursor.now.at + total }
    ensures free { result.free ≡ cursor.now.free }
{
    mark_item(map, cursor.at, Item::Live(total), false);
    map.move_bytes(cursor.at, to, total);
    set_down(map, heap, cursor, to, total);
    Cursor {
        from: if to == cursor.top {
            cursor.from
        } else {
            cursor.top
        },
        top: to + total,
        at: cursor.at + total,
        free: cursor.free,
    }
}

/// Writes the words of a block at `to`, and those of a free item before it where there is a gap, as
/// the last items of the heap.
fn set_down(map: &mut AddressMap, heap: u32, cursor: &Cursor, to: u32, total: u32)
    requires { IsRoomForBlock map.old heap cursor.now.from cursor.now.top to total (to + total) }
    ensures { IsSetDown map.old map.new heap cursor.now.top to total }
{
    let base = to + total - heap;
    if to == cursor.top {
        put(map, to, total);
        put(map, heap + BASE, base);
        make(map, to, &[Item::Live(total)]);
        return;
    }
    let gap = to - cursor.top;
    put_free(map, heap, cursor.from, cursor.top, gap, 0);
    put(map, to, total);
    put(map, heap + BASE, base);
    make(map, cursor.top, &[Item::Free(gap), Item::Live(total)]);
}
