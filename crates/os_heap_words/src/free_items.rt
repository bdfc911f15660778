//! How much is free in a heap, counted along the links.

ghost use Rattle.std.specs.Prelude.{◌≡◌, ◌≢◌, ◌<◌, ◌+◌};
ghost use Rattle.address_map.specs.Bytes.{word_at};
ghost use Rattle.address_map.specs.Memory.{byte_at};
ghost use Rattle.os_heap_words.specs.lists.Counts.{free_count, free_total, largest_free};
ghost use Rattle.os_heap_words.specs.lists.Walks.{IsTallied};
ghost use Rattle.os_heap_words.specs.Outcomes.{IsHeapAt, items_at};

use crate::links::linked;
use crate::words::{LINK, word};
use address_map::AddressMap;

/// What a walk along the links of free items has come to: the next of these, or 0, and what it has passed.
#[derive(Clone, Copy)]
pub struct Tally {
    pub at: u32,
    pub count: u32,
    pub total: u32,
    pub largest: u32,
}

/// The free items of a heap.
pub fn free_room(map: &AddressMap, heap: u32, end: u32) -> Tally
    requires { IsHeapAt map.now heap end }
    ensures count { result.count ≡ free_count (items_at map.now heap) }
    ensures total { result.total ≡ free_total (items_at map.now heap) }
    ensures largest { result.largest ≡ largest_free (items_at map.now heap) }
{
    let mut tally = Tally {
        at: linked(heap, word(map, heap + LINK)),
        count: 0,
        total: 0,
        largest: 0,
    };
    while tally.at != 0 {
        tally = pass(map, heap, end, &tally);
    }
    tally
}

/// Passes one free item.
fn pass(map: &AddressMap, heap: u32, end: u32, tally: &Tally) -> Tally
    requires heap { IsHeapAt map.now heap end }
    requires tally { IsTallied (word_at (byte_at map.now)) heap (heap + end) (items_at map.now heap)
        tally.now.at tally.now.count tally.now.total tally.now.largest }
    requires more { tally.now.at ≢ 0 }
    ensures tally { IsTallied (word_at (byte_at map.now)) heap (heap + end) (items_at map.now heap)
        result.at result.count result.total result.largest }
    ensures count { result.count ≡ tally.now.count + 1 }
    ensures below { tally.now.count < free_count (items_at map.now heap) }
{
    let total = word(map, tally.at + 4);
    Tally {
        at: linked(tally.at, word(map, tally.at)),
        count: tally.count + 1,
        total: tally.total + total,
        largest: tally.largest.max(total),
    }
}
