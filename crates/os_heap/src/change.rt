//! OS_Heap 5: a heap gets another size, where that is allowed.

ghost use Rattle.std.specs.Prelude.{ℕ, ◌≡◌, ◌≤◌, ◌+◌, ◌%◌, true, Some, Err, MatchResult};
ghost use Rattle.os_heap_words.specs.Outcome.{Gives};
ghost use Rattle.os_heap_words.specs.Memory.{byte_at, bytes_of};
ghost use Rattle.os_heap_words.specs.Records.{is_heap_kind};
ghost use Rattle.os_heap_words.specs.lists.Words.{AreApart};
ghost use Rattle.os_heap.specs.Calls.{store_after_change, end_changed, ending, has_own_size, MayEndArea, IsAreaEnded};
ghost use Rattle.os_heap.specs.Probes.{change_probes, end_probes, growth_probes};
ghost use Rattle.os_heap.specs.Ranges.{MayEnd, overgrows};
ghost use Rattle.os_heap_words.specs.Outcomes.{IsHeapAt};
ghost use Rattle.os_heap.specs.Sound.{IsSoundMap, KeepsRangesInOrder};
ghost use Rattle.os_heap.specs.Store.{store_of, heap_in, find_heap};

use crate::heaps::{Heaps, find};
use crate::init::{MOST_HEAP, is_heap_region};
use crate::obstacles::{Tested, is_obstructed};
use os_heap_words::counted::{Counted, refused};
use os_heap_words::words::{BASE, END, put, word};
use os_heap_words::{AddressMap, ErrorNumber, Kind, RMA_START, Region, changed_by};

impl Heaps {
    /// Changes the size of a heap by `change`, a signed word in two's complement. Its items stay as they are.
    ///
    /// # Errors
    ///
    /// The first of these, and nothing is changed then: `HeapBadDesc` where no heap starts at `heap`, or it is that of
    /// the module area; `HeapBadRegion` where `change` is no multiple of 4, the new size is not within 16 to
    /// 16,777,216, or not all of the range is mapped; `HeapOverlaps` where the heap would grow out of the block of
    /// another heap that it lies in, or what it grows by meets another heap, another recorded range or an anchor; `HeapBadShrink` where the heap would end below its base.
    ///
    /// RISC OS 3 Programmer's Reference Manual, "OS_Heap", reason 5.
    pub fn change_size(&self, map: &mut AddressMap, heap: u32, change: u32) -> Counted<()>
        requires state { IsSoundMap map.old }
        ensures store { Gives (store_of map.old) (store_after_change (store_of map.old) heap change)
            result.answer
            (store_of map.new) }
        ensures kept { KeepsRangesInOrder map.old map.new }
        ensures probes { result.probes ≡ change_probes (store_of map.old) heap change }
    {
        change_end(map, heap, change)
    }

    /// Gives the module area's heap another end, where that is allowed, as its area's size changes.
    pub fn set_module_area_end(&self, map: &mut AddressMap, end: u32)
        requires state { IsSoundMap map.old }
        requires may { MayEndArea (store_of map.old) end }
        ensures store { IsAreaEnded (store_of map.old) end (store_of map.new) }
        ensures kept { KeepsRangesInOrder map.old map.new }

        // No byte but those of the word that shows the end is changed.
        ensures bytes { (a : ℕ) → AreApart a 1 0x0180000C 4 → byte_at map.new a ≡ byte_at map.old a }
    {
        if let Some(region) = find(map, RMA_START) {
            set_end(map, &region, end);
        }
    }
}

/// Whether a range of that kind is a heap whose size can change.
fn has_own_size(kind: Kind) -> bool
    ensures { result ≡ has_own_size kind }
{
    matches!(kind, Kind::Heap)
}

/// Changes the end of a heap, where nothing speaks against it.
fn change_end(map: &mut AddressMap, heap: u32, change: u32) -> Counted<()>
    requires { IsSoundMap map.old }
    ensures store { Gives (store_of map.old) (store_after_change (store_of map.old) heap change) result.answer
        (store_of map.new) }
    ensures kept { KeepsRangesInOrder map.old map.new }
    ensures probes { result.probes ≡ change_probes (store_of map.old) heap change }
{
    let Some(region) = find(map, heap) else {
        return refused(ErrorNumber::HeapBadDesc, 0);
    };
    if !has_own_size(region.kind) {
        return refused(ErrorNumber::HeapBadDesc, 0);
    }
    let end = changed_by(region.len, change);
    if change % 4 != 0 || end > u64::from(MOST_HEAP) {
        return refused(ErrorNumber::HeapBadRegion, 0);
    }
    let end = end as u32;
    let tested = may_end(map, &region, end);
    if let Ok(()) = tested.answer {
        set_end(map, &region, end);
    }
    tested
}

/// Whether a heap may have another end.
fn may_end(map: &AddressMap, region: &Region, end: u32) -> Counted<()>
    requires heap { IsHeapAt map.now region.now.at region.now.len }
    requires sound { IsSoundMap map.now }
    ensures answer { MatchResult result.answer (λ _. MayEnd (store_of map.now)
        (heap_in (bytes_of map.now) region.now) end)
        (λ e. (change : ℕ) → change % 4 ≡ 0
        → end_changed (store_of map.now) (heap_in (bytes_of map.now) region.now) change end ≡ Err e) }
    ensures probes { result.probes ≡ end_probes (store_of map.now)
        (heap_in (bytes_of map.now) region.now) end }
{
    if !is_heap_region(map, region.at, end) {
        return refused(ErrorNumber::HeapBadRegion, 0);
    }
    let tested = overgrows(map, region, end);
    if tested.yes {
        return refused(ErrorNumber::HeapOverlaps, tested.probes);
    }
    if end < word(map, region.at + BASE) {
        return refused(ErrorNumber::HeapBadShrink, tested.probes);
    }
    Counted {
        answer: Ok(()),
        probes: tested.probes,
    }
}

/// Whether a heap may not grow up to another end.
fn overgrows(map: &AddressMap, region: &Region, end: u32) -> Tested
    requires heap { IsHeapAt map.now region.now.at region.now.len }
    requires sound { IsSoundMap map.now }
    ensures yes { result.yes ≡ overgrows (store_of map.now) (heap_in (bytes_of map.now) region.now) end }
    ensures probes { result.probes ≡ growth_probes (store_of map.now)
        (heap_in (bytes_of map.now) region.now) end }
{
    if region.len >= end {
        return Tested {
            yes: false,
            probes: 0,
        };
    }
    is_obstructed(
        map,
        region.at,
        end,
        region.at + region.len,
        end - region.len,
    )
}

/// Writes the end of a heap, and records its range anew.
fn set_end(map: &mut AddressMap, region: &Region, end: u32)
    requires kind { is_heap_kind region.now.kind ≡ true }
    requires found { find_heap region.now.at (store_of map.old).heaps
        ≡ Some (heap_in (bytes_of map.old) region.now) }
    requires may { MayEnd (store_of map.old) (heap_in (bytes_of map.old) region.now) end }
    requires state { IsSoundMap map.old }
    ensures store { store_of map.new ≡ ending (store_of map.old) (heap_in (bytes_of map.old) region.now) end }
    ensures kept { KeepsRangesInOrder map.old map.new }
    ensures bytes { (a : ℕ) → AreApart a 1 (region.now.at + 12) 4 → byte_at map.new a ≡ byte_at map.old a }
{
    put(map, region.at + END, end);
    map.set_len(region.kind, region.at, end);
}
