//! The walk over a heap's items that slides its blocks, but for the records of images.

ghost use Rattle.std.specs.Prelude.{ℕ, List, [], ◌≡◌, ◌≢◌, ◌≤◌, ◌<◌, ◌+◌, ◌++◌, ◌^◌, length};
ghost use Rattle.dynamic_areas.specs.Bytes.{word_at};
ghost use Rattle.dynamic_areas.specs.Memory.{byte_at};
ghost use Rattle.dynamic_areas.specs.Outcomes.{HasHeapAt, items_at};
ghost use Rattle.rma.specs.heap_slide.Slide.{AreBlocks, begins, move_of, item_place_after, without_first_block};
ghost use Rattle.rma.specs.heap_slide.Steps.{IsAllSlid, IsSliding};

use crate::heap_slide::items::{Cursor, lay, pass_free};
use crate::heap_slide::moves::Moves;
use dynamic_areas::{AddressMap, BASE, BlockMove, HEAP_DESCRIPTOR, follow, put, put_link, word};

/// Slides the items of a heap, one after another upwards. The records of images stay as they are.
pub(crate) fn slide_items(map: &mut AddressMap, heap: u32, movable: &[u32]) -> Moves
    requires heap { HasHeapAt map.old heap }
    requires blocks { AreBlocks (heap + 16) (items_at map.old heap) movable.now }
    requires few { length movable.now ≤ 128 }
    ensures { IsAllSlid map.old map.new heap movable.now result.items }
{
    let base = heap + word(map, heap + BASE);
    let mut cursor = begin(map, heap);
    let mut left = movable;
    let mut moves = Moves::new();
    while cursor.at < base {
        if cursor.at == cursor.free {
            cursor = pass_free(map, heap, &cursor);
        } else {
            let total = word(map, cursor.at);
            let (to, rest) = place(&cursor, left);
            left = rest;
            add_move(&mut moves, cursor.at, to);
            cursor = lay(map, heap, &cursor, to, total);
        }
    }
    moves
}

/// Makes a heap one without items, and leaves the bytes of these as they are.
fn begin(map: &mut AddressMap, heap: u32) -> Cursor
    requires { HasHeapAt map.old heap }
    ensures { (movable : List ℕ) → AreBlocks (heap + 16) (items_at map.old heap) movable →
        length movable ≤ 128
        → IsSliding map.old map.new heap movable movable [] result.from result.top result.at result.free }
{
    let free = follow(map, heap, heap);
    let first = heap + HEAP_DESCRIPTOR;
    put_link(map, heap, heap, 0);
    put(map, heap + BASE, HEAP_DESCRIPTOR);
    Cursor {
        from: heap,
        top: first,
        at: first,
        free,
    }
}

/// Where the next live item goes, and the addresses of those that can be moved after it.
pub(crate) fn place<'a>(cursor: &Cursor, left: &'a [u32]) -> (u32, &'a [u32])
    requires { cursor.now.at + 4 < 2 ^ 32 }
    ensures to { result.0 ≡ item_place_after (begins (cursor.now.at + 4) left.now) cursor.now.top
        cursor.now.at }
    ensures rest { result.1.now ≡ without_first_block (cursor.now.at + 4) left.now }
{
    match left.split_first() {
        Some((first, rest)) if *first == cursor.at + 4 => (cursor.top, rest),
        _ => (cursor.at, left),
    }
}

/// Adds the block of an item at `at` that goes to `to`, where that is another place.
fn add_move(moves: &mut Moves, at: u32, to: u32)
    requires room { to ≢ at → length moves.old.items < 128 }
    requires low { to ≤ at }
    requires fits { at + 4 < 2 ^ 32 }
    ensures { moves.new.items ≡ moves.old.items ++ move_of at to }
{
    if to != at {
        moves.push(BlockMove {
            from: at + 4,
            to: to + 4,
        });
    }
}
