//! Heaps in a block that is freed or cut: they are recorded no more.

ghost use Rattle.std.specs.Prelude.{◌≡◌, ◌≤◌, ◌+◌, ◌-◌, ◌%◌};
ghost use Rattle.os_heap_words.specs.Bytes.{Bytes};
ghost use Rattle.os_heap.specs.Forgetting.{holds_heap, lowest_lost};
ghost use Rattle.os_heap.specs.Sound.{Forgets, HasBlock, IsSoundMap};
ghost use Rattle.os_heap.specs.Store.{heaps_in, store_of};

use crate::heaps::Heaps;
use os_heap_words::marks::unmark_heads;
use os_heap_words::{AddressMap, Region};

impl Heaps {
    /// Whether a guest's heap starts among the `len` bytes from `at` on.
    #[tactic(auto, unfolding(crate::specs::Store::store_of))]
    pub fn holds_heap(&self, map: &AddressMap, at: u32, len: u32) -> bool
        ensures { result ≡ holds_heap (store_of map.now).heaps at len }
    {
        holds_heap(map.regions(), at, len)
    }
}

/// Forgets the heaps that go with the bytes from `from` on of a block: those that have one of these bytes, and those that lie in such a heap. They
/// are recorded no more, and their words are marked no more; no byte is changed.
pub(crate) fn forget(map: &mut AddressMap, block: u32, total: u32, from: u32)
    requires state { IsSoundMap map.old }
    requires block { HasBlock map.old block total }
    requires above { block ≤ from }
    requires aligned { from % 4 ≡ 0 }
    ensures { Forgets map.old map.new block total from }
{
    let held = total - 4;
    let low = lowest_lost(map.regions(), block, held, from);
    let len = (block + held).saturating_sub(low);
    if holds_heap(map.regions(), low, len) {
        unmark_heads(map, low, len);
        map.forget_heaps(low, len);
    }
}

/// Forgets the heaps in a block that is given up. Mostly there is none, which one look at the records shows.
pub(crate) fn forget_inner(map: &mut AddressMap, block: u32, total: u32)
    requires state { IsSoundMap map.old }
    requires block { HasBlock map.old block total }
    ensures { Forgets map.old map.new block total block }
{
    if holds_heap(map.regions(), block, total - 4) {
        forget(map, block, total, block);
    }
}

/// Forgets the heaps that go with what is cut off a block that gets another total: none, where that is no smaller.
pub(crate) fn forget_cut(map: &mut AddressMap, block: u32, total: u32, needed: u64)
    requires state { IsSoundMap map.old }
    requires block { HasBlock map.old block total }
    requires needed { 8 ≤ needed }
    requires aligned { needed % 8 ≡ 0 }
    ensures forgets { Forgets map.old map.new block total (block - 4 + needed) }
    ensures same { total ≤ needed → map.new ≡ map.old }
{
    if needed < u64::from(total) {
        forget(map, block, total, block - 4 + needed as u32);
    }
}

/// The least start of a heap in a block that has a byte from `from` on, or `from`.
fn lowest_lost(regions: &[Region], block: u32, len: u32, from: u32) -> u32
    ensures { (b : Bytes) → lowest_lost block len from (heaps_in b regions.now) ≡ result }
{
    let mut low = from;
    for region in regions {
        let end = u64::from(region.at) + u64::from(region.len);
        if region.starts_heap(block, len) && end > u64::from(from) {
            low = low.min(region.at);
        }
    }
    low
}

/// Whether a guest's heap starts among some bytes.
pub(crate) fn holds_heap(regions: &[Region], at: u32, len: u32) -> bool
    ensures { (b : Bytes) → holds_heap (heaps_in b regions.now) at len ≡ result }
{
    for region in regions {
        if region.starts_heap(at, len) {
            return true;
        }
    }
    false
}
