//! The heaps of a machine, and how the record of one is found.

ghost use Rattle.std.specs.Prelude.{◌≡◌, Some, None, MatchOption};
ghost use Rattle.os_heap_words.specs.Memory.{bytes_of};
ghost use Rattle.os_heap.specs.Store.{store_of, heap_in, find_heap};

use os_heap_words::{AddressMap, Region};

/// The heaps of a machine. Where they start and end stands in the record of the address map, and all else of them in the words of memory alone.
#[derive(Clone, Copy, Default)]
pub struct Heaps;

impl Heaps {
    /// The heaps of a machine at its start.
    pub fn new() -> Heaps {
        Heaps
    }
}

/// The recorded range of the heap that starts at an address.
#[tactic(auto, unfolding(crate::specs::Store::store_of))]
pub(crate) fn find(map: &AddressMap, heap: u32) -> Option<Region>
    ensures { MatchOption result (find_heap heap (store_of map.now).heaps ≡ None) (λ region.
        (region.at ≡ heap) × (find_heap heap (store_of map.now).heaps
        ≡ Some (heap_in (bytes_of map.now) region))) }
{
    let regions = map.regions();
    for region in regions {
        if region.at == heap && region.kind.is_heap() {
            return Some(*region);
        }
    }
    None
}
