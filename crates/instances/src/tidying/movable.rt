//! Which blocks of the module area can be moved.
ghost use Rattle.instances_table.specs.MemoryMap.{module_area_start};
ghost use Rattle.std.specs.Prelude.{◌≡◌, ◌≤◌, ◌<◌, ◌+◌, ◌^◌, [], length, Option, Some, None};
ghost use Rattle.rma.specs.Items.{size_of};
ghost use Rattle.rma.specs.Memory.{anchor_of};
ghost use Rattle.rma.specs.Forgetting.{holds_heap};
ghost use Rattle.rma.specs.Store.{find_heap, store_of, IsSound};
ghost use Rattle.instances.specs.tidying.Movable.{blocks_that, can_move, is_named_once, movable_in};

use arrayvec::ArrayVec;
use instances_table::InstanceTable;
use rma::heap_slide::moves::MOST_MOVES;
use rma::{AddressMap, Blocks, HEAP_DESCRIPTOR, Heaps, Item, RMA_START};

/// The addresses of blocks that can be moved, in order.
pub(crate) type Movable = ArrayVec<u32, MOST_MOVES>;

/// The blocks of the module area that can be moved. `words` has the private words of all instances.
pub(crate) fn movable_blocks(
    map: &AddressMap,
    table: &InstanceTable,
    words: &[u32],
    return_address: u32,
) -> Movable
    requires sound { IsSound (store_of map.now) }
    requires modules { length table.now ≤ 64 }
    requires few { length words.now ≤ 64 }
    ensures { result.items
        ≡ movable_in (store_of map.now) table.now words.now return_address
        (find_heap module_area_start (store_of map.now).heaps) }
{
    match Heaps::new().blocks(map, RMA_START) {
        Some(blocks) => choose(map, table, words, return_address, blocks),
        None => Movable::new(),
    }
}

/// Those of a heap's items, the first of which stands at the first place of the module area.
fn choose(
    map: &AddressMap,
    table: &InstanceTable,
    words: &[u32],
    return_address: u32,
    blocks: Blocks,
) -> Movable
    requires below { 0x01800010 + size_of blocks ≤ 2 ^ 26 }
    requires few { length
        (blocks_that (can_move (anchor_of map.now) (holds_heap (store_of map.now).heaps) table.now words.now
        return_address) 0x01800010 blocks) ≤ 128 }
    ensures { result.items
        ≡ blocks_that (can_move (anchor_of map.now) (holds_heap (store_of map.now).heaps) table.now words.now
        return_address) 0x01800010 blocks.entry }
{
    let mut movable = Movable::new();
    let mut at = RMA_START + HEAP_DESCRIPTOR;
    let mut rest = blocks;
    while let Some(item) = rest.next() {
        if let Item::Live(total) = item {
            if can_move(map, table, words, return_address, at, total) {
                movable.push(at + 4);
            }
        }
        at += item.total();
    }
    movable
}

/// Whether the block of `total` bytes can be moved whose length word is at `at`.
fn can_move(
    map: &AddressMap,
    table: &InstanceTable,
    words: &[u32],
    return_address: u32,
    at: u32,
    total: u32,
) -> bool
    requires { at + total ≤ 2 ^ 26 }
    ensures { result ≡ can_move (anchor_of map.now) (holds_heap (store_of map.now).heaps) table.now words.now
        return_address at total }
{
    let is_tied = table.has_image_at(at + 4) || is_named_once(words, at + 4);
    let is_empty = !map.anchor_in(at, total) && !Heaps::new().holds_heap(map, at, total);
    is_tied && is_empty && !(at <= return_address && return_address < at + total)
}

/// Whether exactly one of some words names a block.
fn is_named_once(words: &[u32], block: u32) -> bool
    ensures { result ≡ is_named_once words.now block }
{
    words.iter().filter(|word| **word == block).count() == 1
}
