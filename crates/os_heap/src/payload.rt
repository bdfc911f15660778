//! Where a byte lies among the heaps: in the payload of a live block, elsewhere in a heap, or in
//! none.

ghost use Rattle.std.specs.Prelude.{◌≡◌, ◌≤◌, ◌+◌, ◌^◌, ◌&&◌};
ghost use Rattle.os_heap_words.specs.Bytes.{in_range};
ghost use Rattle.os_heap_words.specs.Items.{size_of, total_of};
ghost use Rattle.os_heap_words.specs.Records.{is_heap_kind};
ghost use Rattle.os_heap_words.specs.lists.Heap.{AreTotals};
ghost use Rattle.os_heap_words.specs.Outcomes.{IsHeapAt, items_at};
ghost use Rattle.os_heap.specs.Payloads.{holds_byte, is_other, payload_by, payload_from, payload_of, payload_or};
ghost use Rattle.os_heap.specs.Store.{find_heap, store_of, IsSound};

use crate::heaps::{Heaps, find};
use os_heap_words::blocks::{Blocks, blocks_of};
use os_heap_words::{AddressMap, HEAP_DESCRIPTOR, Item, Region};

/// Where a byte lies among the heaps.
#[derive(Clone, Copy)]
pub enum Payload {
    /// In no heap.
    Outside,

    /// Among the bytes that a live block holds: the address of the first of them, and how many there are.
    Inside { at: u32, len: u32 },

    /// In a heap, but in no live block, or in its length word.
    Other,
}

impl Payload {
    /// Whether it is in a heap, but in nothing that a live block holds.
    pub fn is_other(&self) -> bool
        ensures { result ≡ is_other self.now }
    {
        matches!(self, Payload::Other)
    }

    /// The same in a heap that lies round another, of which `inner` shows.
    fn or(self, inner: Payload) -> Payload
        ensures { result ≡ payload_or self inner }
    {
        match (self, inner) {
            (Payload::Other, _) => Payload::Other,
            (outer, Payload::Outside) => outer,
            (_, inner) => inner,
        }
    }
}

impl Heaps {
    /// Where the byte at an address lies among the heaps. In a live block's payload it is only where each heap that has the address has it there; the
    /// last of these is shown.
    ///
    /// RISC OS 3 Programmer's Reference Manual, "OS_Heap", the internal format.
    #[tactic(auto, unfolding(crate::specs::Store::store_of), using(crate::proofs::PayloadLemmas::rounds))]
    pub fn live_payload(&self, map: &AddressMap, address: u32) -> Payload
        requires { IsSound (store_of map.now) }
        ensures { result ≡ payload_of (store_of map.now).heaps address }
    {
        let mut found = Payload::Outside;
        let regions = map.regions();
        for region in regions {
            if is_round(region, address) {
                found = found.or(payload_at(map, region.at, region.len, address));
            }
        }
        found
    }

    /// Where the byte at an address lies in the heap that starts at `heap` alone, whatever lies in the blocks of that heap; `Outside` where none
    /// starts there.
    pub fn live_payload_in(&self, map: &AddressMap, heap: u32, address: u32) -> Payload
        requires { IsSound (store_of map.now) }
        ensures { result ≡ payload_by (find_heap heap (store_of map.now).heaps) address }
    {
        let Some(region) = find(map, heap) else {
            return Payload::Outside;
        };
        if is_round(&region, address) {
            payload_at(map, heap, region.len, address)
        } else {
            Payload::Outside
        }
    }
}

/// Whether a recorded range is that of a heap, and has an address.
fn is_round(region: &Region, address: u32) -> bool
    ensures { result ≡ (is_heap_kind region.now.kind && in_range region.now.at region.now.len address) }
{
    region.kind.is_heap() && address >= region.at && address - region.at < region.len
}

/// Where an address lies in a heap.
fn payload_at(map: &AddressMap, heap: u32, end: u32, address: u32) -> Payload
    requires { IsHeapAt map.now heap end }
    ensures { result ≡ payload_from (heap + 16) (items_at map.now heap) address }
{
    payload_among(heap + HEAP_DESCRIPTOR, blocks_of(map, heap, end), address)
}

/// Where an address lies among items, the first of which is at `start`.
fn payload_among(start: u32, blocks: Blocks, address: u32) -> Payload
    requires totals { AreTotals blocks }
    requires below { start + size_of blocks ≤ 2 ^ 26 }
    ensures { result ≡ payload_from start blocks.entry address }
{
    let mut at = start;
    let mut rest = blocks;
    while let Some(item) = rest.next() {
        if holds_byte(at, item, address) {
            return Payload::Inside {
                at: at + 4,
                len: item.total() - 4,
            };
        }
        at += item.total();
    }
    Payload::Other
}

/// Whether the item at `at` holds an address for the guest.
pub(crate) fn holds_byte(at: u32, item: Item, address: u32) -> bool
    requires { at + total_of item ≤ 2 ^ 26 }
    ensures { result ≡ holds_byte at item address }
{
    match item {
        Item::Live(total) => address >= at + 4 && address < at + total,
        Item::Free(_) => false,
    }
}
