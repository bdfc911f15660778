//! What is in the way of a new or grown heap: other records, anchors, and heaps that it doesn't
//! wholly lie in.

ghost use Rattle.std.specs.Prelude.{ℕ, ◌≡◌, ◌≤◌, ◌<◌, ◌+◌, ◌^◌, ◌&&◌, nat_lt, true, Some, MatchResult};
ghost use Rattle.std.specs.List.{list_any};
ghost use Rattle.std.specs.Option.{option_map};
ghost use Rattle.os_heap_words.specs.Bytes.{Bytes, in_range};
ghost use Rattle.os_heap_words.specs.Items.{size_of};
ghost use Rattle.os_heap_words.specs.Records.{is_heap_kind};
ghost use Rattle.os_heap_words.specs.lists.Heap.{AreTotals};
ghost use Rattle.os_heap.specs.Bars.{IsInnermost, bars_record};
ghost use Rattle.os_heap.specs.Nesting.{holds_range, is_round, later_heap};
ghost use Rattle.os_heap_words.specs.Outcomes.{IsHeapAt, items_at};
ghost use Rattle.os_heap.specs.Probes.{region_probes, walked_to};
ghost use Rattle.os_heap.specs.Ranges.{is_obstructed};
ghost use Rattle.os_heap.specs.Sound.{IsSoundMap};
ghost use Rattle.os_heap.specs.Store.{heap_in, store_of};

use crate::payload::holds_byte;
use os_heap_words::blocks::{Blocks, blocks_of};
use os_heap_words::{AddressMap, HEAP_DESCRIPTOR, Region, do_meet};

/// What a test of a range answers, and how many items it looked at.
#[derive(Clone, Copy)]
pub(crate) struct Tested {
    pub(crate) yes: bool,
    pub(crate) probes: u32,
}

/// Whether something is in the way of a heap that is to have the `len` bytes from `at` on, those `more` from `new` on for the first time. Where
/// nothing else is, the innermost heap round it is walked, up to the block that has the first byte.
pub(crate) fn is_obstructed(map: &AddressMap, at: u32, len: u32, new: u32, more: u32) -> Tested
    requires sound { IsSoundMap map.now }
    requires some { 0 < len }
    ensures yes { result.yes ≡ is_obstructed at len new more (store_of map.now) }
    ensures probes { result.probes ≡ region_probes (store_of map.now) at len new more }
{
    let Ok(round) = innermost(map.regions(), at, len, new, more) else {
        return Tested {
            yes: true,
            probes: 0,
        };
    };
    if map.anchor_in(new, more) {
        return Tested {
            yes: true,
            probes: 0,
        };
    }
    let Some(outer) = round else {
        return Tested {
            yes: false,
            probes: 0,
        };
    };
    let held = holds_range(map, outer.at, outer.len, at, len);
    Tested {
        yes: !held.yes,
        probes: held.probes,
    }
}

/// Whether a recorded range is that of a heap which starts before an address, and has its byte.
fn has_before(region: &Region, at: u32) -> bool
    ensures { result ≡ (is_heap_kind region.now.kind && (nat_lt region.now.at at
        && in_range region.now.at region.now.len at)) }
{
    region.kind.is_heap() && region.at < at && at - region.at < region.len
}

/// Whether a recorded range can't be beside a heap's range, or, as that of a heap round it, ends in it.
fn bars(region: &Region, at: u32, len: u32, new: u32, more: u32) -> bool
    ensures { result ≡ bars_record at len new more region.now }
{
    if has_before(region, at) {
        return region.len - (at - region.at) < len;
    }
    do_meet(new, more, region.at, region.len)
}

/// Whether a recorded range is that of a heap round a range.
fn is_round(region: &Region, at: u32, len: u32) -> bool
    ensures { (b : Bytes) → (is_heap_kind region.now.kind && is_round at len (heap_in b region.now))
        ≡ result }
{
    region.kind.is_heap()
        && region.at < at
        && u64::from(at) + u64::from(len) <= u64::from(region.at) + u64::from(region.len)
}

/// Of the heaps round a range the one that starts last, unless one of the recorded ranges bars it.
fn innermost(
    regions: &[Region],
    at: u32,
    len: u32,
    new: u32,
    more: u32,
) -> Result<Option<Region>, ()>
    ensures { MatchResult result
        (λ last. IsInnermost at len new more regions.now last)
        (λ _. list_any (bars_record at len new more) regions.now ≡ true) }
{
    let mut last = None;
    for region in regions {
        if bars(region, at, len, new, more) {
            return Err(());
        }
        if is_round(region, at, len) {
            last = Some(later(last, region));
        }
    }
    Ok(last)
}

/// Of two records the one that starts last.
fn later(last: Option<Region>, region: &Region) -> Region
    ensures { (b : Bytes) → later_heap (option_map (heap_in b) last) (Some (heap_in b region.now))
        ≡ Some (heap_in b result) }
{
    match last {
        Some(other) if other.at >= region.at => other,
        _ => *region,
    }
}

/// Whether one live block of a heap holds all of a range.
fn holds_range(map: &AddressMap, heap: u32, end: u32, at: u32, len: u32) -> Tested
    requires heap { IsHeapAt map.now heap end }
    requires some { 0 < len }
    ensures yes { result.yes ≡ holds_range (heap + 16) (items_at map.now heap) at len }
    ensures probes { result.probes ≡ walked_to at (heap + 16) (items_at map.now heap) }
{
    range_among(heap + HEAP_DESCRIPTOR, blocks_of(map, heap, end), at, len)
}

/// The same of items, the first of which is at `start`: the one that has the first byte decides.
fn range_among(start: u32, blocks: Blocks, at: u32, len: u32) -> Tested
    requires totals { AreTotals blocks }
    requires below { start + size_of blocks ≤ 2 ^ 26 }
    requires some { 0 < len }
    ensures yes { result.yes ≡ holds_range start blocks.entry at len }
    ensures probes { result.probes ≡ walked_to at start blocks.entry }
{
    let mut here = start;
    let mut probes = 0;
    let mut rest = blocks;
    while let Some(item) = rest.next() {
        probes += 1;
        if holds_byte(here, item, at) {
            let left = here + item.total() - at;
            return Tested {
                yes: len <= left,
                probes,
            };
        }
        here += item.total();
    }
    Tested { yes: false, probes }
}
