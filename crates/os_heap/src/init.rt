//! OS_Heap 0: a heap is made, where that is allowed.

ghost use Rattle.std.specs.Prelude.{ℕ, [], true, ◌≡◌, ◌≤◌, ◌%◌, length, IsTrue, MatchResult, Err};
ghost use Rattle.os_heap_words.specs.Outcome.{Gives};
ghost use Rattle.os_heap_words.specs.Bytes.{Bytes, AreMapped};
ghost use Rattle.os_heap_words.specs.Kept.{KeepsMarks};
ghost use Rattle.os_heap_words.specs.Memory.{byte_at, is_mapped, bytes_of};
ghost use Rattle.os_heap_words.specs.Records.{is_heap_kind};
ghost use Rattle.os_heap_words.specs.Kind.TheVariants.{Heap, Rma};
ghost use Rattle.os_heap.specs.Order.{AddsRecord, KeepsOrder};
ghost use Rattle.os_heap.specs.Probes.{init_probes};
ghost use Rattle.os_heap.specs.Ranges.{MayBegin, is_heap_region};
ghost use Rattle.os_heap_words.specs.lists.Heap.{with_heap};
ghost use Rattle.os_heap.specs.Sound.{IsSoundMap, KeepsOtherRanges};
ghost use Rattle.os_heap.specs.Store.{store_of, heaps_in, guest_count};
ghost use Rattle.os_heap.specs.Calls.{store_after_init, store_with_new_heap};

use crate::heaps::Heaps;
use crate::obstacles::is_obstructed;
use os_heap_words::counted::{Counted, refused};
use os_heap_words::marks::mark_descriptor;
use os_heap_words::words::{BASE, END, LINK};
use os_heap_words::{AddressMap, ErrorNumber, HEAP_DESCRIPTOR, HEAP_NAME, Kind, Region};

/// The most bytes of a heap.
pub(crate) const MOST_HEAP: u32 = 16_777_216;

/// The most heaps that guests make, besides the module area.
const MOST_HEAPS: usize = 64;

impl Heaps {
    /// Makes a heap of `size` bytes at an address, without items. It takes up its bytes from then on.
    ///
    /// # Errors
    ///
    /// The first of these, and nothing is changed then: `HeapBadRegion` where the address or the size is no multiple of
    /// 4, the size is not within 16 to 16,777,216, or not all of the range is mapped; `HeapOverlaps` where it meets a
    /// heap and does not lie wholly in what one of its live blocks holds, or meets another recorded range or an anchor;
    /// `HeapTableFull` where there are 64 heaps besides that of the module area.
    pub fn init(&self, map: &mut AddressMap, heap: u32, size: u32) -> Counted<()>
        requires state { IsSoundMap map.old }
        ensures store { Gives (store_of map.old) (store_after_init (store_of map.old) heap size) result.answer
            (store_of map.new) }
        ensures kept { KeepsOtherRanges map.old map.new }
        ensures order { MatchResult result.answer
            (λ _. AddsRecord map.old map.new Heap heap) (λ _. KeepsOrder map.old map.new) }
        ensures probes { result.probes ≡ init_probes (store_of map.old) heap size }
    {
        begin(map, heap, size)
    }

    /// Makes the heap of the module area, without items, as `init` makes one that it does not refuse.
    pub fn init_module_area(&self, map: &mut AddressMap, area: u32, size: u32)
        requires may { MayBegin Rma (store_of map.old) area size }
        requires state { IsSoundMap map.old }
        ensures store { store_of map.new ≡ store_with_new_heap Rma (store_of map.old) area size }
        ensures kept { KeepsOtherRanges map.old map.new }
        ensures order { AddsRecord map.old map.new Rma area }
    {
        make(map, Kind::Rma, area, size);
    }
}

/// Makes a heap, where nothing speaks against it.
fn begin(map: &mut AddressMap, heap: u32, size: u32) -> Counted<()>
    requires { IsSoundMap map.old }
    ensures store { Gives (store_of map.old) (store_after_init (store_of map.old) heap size) result.answer
        (store_of map.new) }
    ensures kept { KeepsOtherRanges map.old map.new }
    ensures order { MatchResult result.answer
        (λ _. AddsRecord map.old map.new Heap heap) (λ _. KeepsOrder map.old map.new) }
    ensures probes { result.probes ≡ init_probes (store_of map.old) heap size }
{
    let tested = may_begin(map, heap, size);
    if let Ok(()) = tested.answer {
        make(map, Kind::Heap, heap, size);
    }
    tested
}

/// Writes the descriptor of a heap without items, and records its range.
fn make(map: &mut AddressMap, kind: Kind, heap: u32, size: u32)
    requires kind { is_heap_kind kind ≡ true }
    requires may { MayBegin kind (store_of map.old) heap size }
    requires state { IsSoundMap map.old }
    ensures store { store_of map.new ≡ store_with_new_heap kind (store_of map.old) heap size }
    ensures kept { KeepsOtherRanges map.old map.new }
    ensures order { AddsRecord map.old map.new kind heap }
{
    write_descriptor(map, heap, size);
    mark_descriptor(map, heap);
    map.own(kind, heap, size);
}

/// Writes the words of a heap without items: its name, no link, the base behind these words, and the end.
fn write_descriptor(map: &mut AddressMap, heap: u32, size: u32)
    requires aligned { heap % 4 ≡ 0 }
    requires room { 16 ≤ size }
    requires mapped { AreMapped (is_mapped map.old) heap size }
    ensures bytes { (a : ℕ) → byte_at map.new a ≡ with_heap (byte_at map.old) heap size [] a }
    ensures kept { KeepsMarks map.old map.new }
{
    map.put_word(heap, HEAP_NAME);
    map.put_word(heap + LINK, 0);
    map.put_word(heap + BASE, HEAP_DESCRIPTOR);
    map.put_word(heap + END, size);
}

/// Whether a heap may be made of a range.
fn may_begin(map: &AddressMap, heap: u32, size: u32) -> Counted<()>
    requires { IsSoundMap map.now }
    ensures answer { MatchResult result.answer (λ _. MayBegin Heap (store_of map.now) heap size)
        (λ e. store_after_init (store_of map.now) heap size ≡ Err e) }
    ensures probes { result.probes ≡ init_probes (store_of map.now) heap size }
{
    if !is_heap_region(map, heap, size) {
        return refused(ErrorNumber::HeapBadRegion, 0);
    }
    let tested = is_obstructed(map, heap, size, heap, size);
    if tested.yes {
        return refused(ErrorNumber::HeapOverlaps, tested.probes);
    }
    if count_guests(map.regions()) >= MOST_HEAPS {
        return refused(ErrorNumber::HeapTableFull, tested.probes);
    }
    Counted {
        answer: Ok(()),
        probes: tested.probes,
    }
}

/// Whether a range is one that a heap may have: of whole words, with a size in the limits, and mapped.
pub(crate) fn is_heap_region(map: &AddressMap, heap: u32, size: u32) -> bool
    ensures { result ≡ is_heap_region (bytes_of map.now) heap size }
{
    if heap % 4 != 0 || size % 4 != 0 {
        return false;
    }
    if size < HEAP_DESCRIPTOR || size > MOST_HEAP {
        return false;
    }
    map.maps(heap, size)
}

/// How many heaps guests have made.
fn count_guests(regions: &[Region]) -> usize
    ensures { (b : Bytes) → guest_count (heaps_in b regions.now) ≡ result }
{
    let mut count = 0;
    for region in regions {
        if matches!(region.kind, Kind::Heap) {
            count += 1;
        }
    }
    count
}
