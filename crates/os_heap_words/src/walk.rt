//! The walk over a heap's items to the block that a call names, and the free items that it passes.

ghost use Rattle.std.specs.Prelude.{ℕ, ◌≡◌, ◌≤◌, ◌<◌, ◌-◌, ◌+◌};
ghost use Rattle.address_map.specs.Bytes.{word_at};
ghost use Rattle.address_map.specs.Memory.{byte_at};
ghost use Rattle.os_heap_words.specs.lists.Counts.{begun_below};
ghost use Rattle.os_heap_words.specs.Outcomes.{HasHeapAt, items_at};
ghost use Rattle.os_heap_words.specs.lists.Walks.{last_link};
ghost use Rattle.os_heap_words.specs.Cursors.{FindsBlock, HasWalked};

use crate::words::{BASE, follow, word};
use address_map::{AddressMap, HEAP_DESCRIPTOR};

/// Where a walk from item to item stands.
#[derive(Clone, Copy)]
pub struct Cursor {
    /// The last free item before the gap, or the heap itself.
    pub from: u32,

    /// The item that comes next.
    pub at: u32,

    /// The next free item from there on, or 0.
    pub free: u32,

    /// The bytes of a free item that ends at `at`, or 0.
    pub gap: u32,
    pub probes: u32,
}

/// The block that a walk came to, and how many items it passed.
#[derive(Clone, Copy)]
pub struct Walk {
    pub hit: Option<Cursor>,
    pub probes: u32,
}

/// The last free item before the cursor, also where that ends at the cursor.
pub(crate) fn last_link(cursor: &Cursor) -> u32
    requires { cursor.now.gap ≤ cursor.now.at }
    ensures { result ≡ last_link cursor.now.from cursor.now.at cursor.now.gap }
{
    if cursor.gap == 0 {
        cursor.from
    } else {
        cursor.at - cursor.gap
    }
}

/// The walk after one more item.
fn pass(map: &AddressMap, heap: u32, block: u32, cursor: &Cursor) -> Cursor
    requires heap { HasHeapAt map.now heap }
    requires walk { HasWalked map.now heap block cursor.now }
    requires more { cursor.now.at < heap + word_at (byte_at map.now) (heap + 8) }
    requires before { cursor.now.at + 4 < block }
    ensures walk { HasWalked map.now heap block result }
    ensures grows { cursor.now.at < result.at }
{
    let at = cursor.at;
    if at == cursor.free {
        let total = word(map, at + 4);
        let free = follow(map, heap, at);
        return Cursor {
            from: cursor.from,
            at: at + total,
            free,
            gap: total,
            probes: cursor.probes + 1,
        };
    }
    let total = word(map, at);
    let from = last_link(cursor);
    Cursor {
        from,
        at: at + total,
        free: cursor.free,
        gap: 0,
        probes: cursor.probes + 1,
    }
}

/// The walk after the live items that come next, up to a free one or to `limit`. Behind a free item it stays where it is.
fn pass_lives(map: &AddressMap, heap: u32, block: u32, limit: u32, cursor: &Cursor) -> Cursor
    requires heap { HasHeapAt map.now heap }
    requires walk { HasWalked map.now heap block cursor.now }
    requires more { limit ≤ heap + word_at (byte_at map.now) (heap + 8) }
    requires before { (at : ℕ) → at < limit → at + 4 < block }
    ensures walk { HasWalked map.now heap block result }
    ensures grows { cursor.now.at ≤ result.at }
{
    if cursor.gap != 0 {
        return *cursor;
    }
    let mut at = cursor.at;
    let mut probes = cursor.probes;
    while at < limit && at != cursor.free {
        at += word(map, at);
        probes += 1;
    }
    Cursor {
        at,
        probes,
        ..*cursor
    }
}

/// A walk to the item that begins at most 4 bytes before `block`, or to the base.
fn approach(map: &AddressMap, heap: u32, block: u32) -> Cursor
    requires { HasHeapAt map.now heap }
    ensures walk { HasWalked map.now heap block result }
    ensures end { (result.at + 4 < block) → heap + word_at (byte_at map.now) (heap + 8) ≤ result.at }
{
    let base = heap + word(map, heap + BASE);
    let limit = base.min(block.saturating_sub(4));
    let free = follow(map, heap, heap);
    let mut cursor = Cursor {
        from: heap,
        at: heap + HEAP_DESCRIPTOR,
        free,
        gap: 0,
        probes: 0,
    };
    while cursor.at < limit {
        cursor = pass(map, heap, block, &cursor);
        cursor = pass_lives(map, heap, block, limit, &cursor);
    }
    cursor
}

/// The block whose bytes begin at `block`, by a walk from the first item on.
pub fn find_block(map: &AddressMap, heap: u32, block: u32) -> Walk
    requires { HasHeapAt map.now heap }
    ensures block { FindsBlock map.now heap block result.hit }
    ensures probes { result.probes ≡ begun_below block (heap + 16) (items_at map.now heap) }
{
    let base = heap + word(map, heap + BASE);
    let cursor = approach(map, heap, block);
    let probes = cursor.probes;
    if cursor.at >= base {
        return Walk { hit: None, probes };
    }
    if cursor.at + 4 > block {
        return Walk { hit: None, probes };
    }
    let probes = probes + 1;
    if cursor.at == cursor.free {
        return Walk { hit: None, probes };
    }
    let hit = Some(cursor);
    Walk { hit, probes }
}
