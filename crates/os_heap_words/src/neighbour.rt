//! The free item that begins where a block ends.

ghost use Rattle.std.specs.Prelude.{◌≡◌, ◌≤◌, ◌+◌};
ghost use Rattle.address_map.specs.Bytes.{word_at};
ghost use Rattle.address_map.specs.Items.{link_target};
ghost use Rattle.address_map.specs.Memory.{byte_at};
ghost use Rattle.os_heap_words.specs.Cursors.{IsAtBlock};
ghost use Rattle.os_heap_words.specs.Outcomes.{end_at};
ghost use Rattle.os_heap_words.specs.lists.Words.{link_at};

use crate::walk::Cursor;
use crate::words::{follow, word};
use address_map::AddressMap;

/// A free item that touches the block before it.
#[derive(Clone, Copy)]
pub(crate) struct Neighbour {
    pub(crate) total: u32,

    /// The free item after it, or 0.
    pub(crate) next: u32,
}

/// The total of the block at the cursor.
pub fn own_total(map: &AddressMap, heap: u32, block: u32, cursor: &Cursor) -> u32
    requires { IsAtBlock map.now heap block cursor.now }
    ensures word { result ≡ word_at (byte_at map.now) cursor.now.at }
    ensures inside { cursor.now.at + result ≤ heap + end_at map.now heap }
    ensures below { cursor.now.at + result ≤ 67108864 }
{
    word(map, cursor.at)
}

/// The free item behind the block at the cursor, which ends where that item begins.
pub(crate) fn free_behind(map: &AddressMap, heap: u32, block: u32, cursor: &Cursor) -> Neighbour
    requires place { IsAtBlock map.now heap block cursor.now }
    requires here { cursor.now.at + word_at (byte_at map.now) cursor.now.at ≡ cursor.now.free }
    ensures total { result.total ≡ word_at (byte_at map.now) (cursor.now.free + 4) }
    ensures next { result.next ≡ link_target cursor.now.free
        (word_at (byte_at map.now) (link_at heap cursor.now.free)) }
    ensures inside { cursor.now.free + result.total ≤ heap + end_at map.now heap }
    ensures below { cursor.now.free + result.total ≤ 67108864 }
{
    let total = word(map, cursor.free + 4);
    let next = follow(map, heap, cursor.free);
    Neighbour { total, next }
}
