//! The limits of a heap.

ghost use Rattle.std.specs.Prelude.{◌≡◌, ◌+◌, IsSome, IfSome};
ghost use Rattle.address_map.specs.Items.{size_of};
ghost use Rattle.store_copies.specs.Store.{IsSound, find_heap, store_of};
ghost use Rattle.trace_store_text.specs.heaps.Limits.{end_shown, heap_pages, limits_in};
ghost use Rattle.trace_store_text.specs.Sound.{AreBothSound};

use address_map::AddressMap;
use profile::memory_map::PAGE_SIZE;
use store_copies::{Heaps, PageRange};

/// Where the words of a heap's descriptor stand that show its base and its end.
const BASE: u32 = 8;

const END: u32 = 12;

/// Where a heap's items end, and where it ends, in bytes from its start.
#[derive(Clone, Copy, PartialEq, Eq)]
pub struct HeapLimits {
    pub base: u32,
    pub end: u32,
}

/// The limits of the heap that starts at an address, if one does.
pub fn limits_of(memory: &AddressMap, heap: u32) -> Option<HeapLimits>
    requires { IsSound (store_of memory.now) }
    ensures value { result ≡ limits_in (store_of memory.now) heap }
{
    let Some(_items) = Heaps::new().blocks(memory, heap) else {
        return None;
    };
    Some(HeapLimits {
        base: base_of(memory, heap),
        end: end_of(memory, heap),
    })
}

/// The pages of the heap that starts at an address, before a call or after it. Where none starts there,
/// it is the page of the address.
pub fn heap_pages(before: &AddressMap, after: &AddressMap, heap: u32) -> PageRange
    requires stores { AreBothSound before.now after.now }
    ensures { result ≡ heap_pages (store_of before.now) (store_of after.now) heap }
{
    let old = end_shown(limits_of(before, heap));
    let new = end_shown(limits_of(after, heap));
    let len = if old < new { new } else { old };
    let end = u64::from(heap) + u64::from(len);
    PageRange {
        first: heap / PAGE_SIZE,
        end: (end / u64::from(PAGE_SIZE) + 1) as u32,
    }
}

fn end_shown(limits: Option<HeapLimits>) -> u32
    ensures { result ≡ end_shown limits }
{
    match limits {
        Some(limits) => limits.end,
        None => 0,
    }
}

// The base of a heap.
fn base_of(memory: &AddressMap, heap: u32) -> u32
    requires sound { IsSound (store_of memory.now) }
    requires there { IsSome (find_heap heap (store_of memory.now).heaps) }
    ensures { IfSome (find_heap heap (store_of memory.now).heaps) (λ h. result ≡ 16 + size_of h.items) }
{
    memory.load_word(heap + BASE).unwrap_or(0)
}

// The end of a heap.
fn end_of(memory: &AddressMap, heap: u32) -> u32
    requires sound { IsSound (store_of memory.now) }
    requires there { IsSome (find_heap heap (store_of memory.now).heaps) }
    ensures { IfSome (find_heap heap (store_of memory.now).heaps) (λ h. result ≡ h.end) }
{
    memory.load_word(heap + END).unwrap_or(0)
}
