//! OS_Heap 2: a block is claimed, in the first free item that has room or at the base.

ghost use Rattle.std.specs.Prelude.{◌≡◌, ◌≤◌, ◌-◌, ◌+◌, Ok, Some, None, MatchOption, nat_le, true};
ghost use Rattle.address_map.specs.Items.{is_total, size_of};
ghost use Rattle.os_heap_words.specs.lists.Lists.{total_for, first_fit, claim_in_items, or_at_base};
ghost use Rattle.os_heap_words.specs.lists.Counts.{looked_at};
ghost use Rattle.os_heap_words.specs.Cursors.{IsNewTotal};
ghost use Rattle.os_heap_words.specs.Outcomes.{HasHeapAt, end_at, items_at, Claims, room_of};
ghost use Rattle.os_heap_words.specs.lists.Walks.{IsFit};

use crate::counted::{Counted, refused};
use crate::marks::{make, remark};
use crate::sums::round_up_8;
use crate::words::{BASE, END, follow, put, put_free, put_link, word};
use address_map::{AddressMap, ErrorNumber, Item};

/// A free item, and the one before it along the links, or the heap itself.
#[derive(Clone, Copy)]
struct Fit {
    from: u32,
    at: u32,
    total: u32,
}

/// What a search came to, and how many free items it looked at.
#[derive(Clone, Copy)]
struct Search {
    fit: Option<Fit>,
    probes: u32,
}

/// The total of a block for `size` bytes: its length word too, a multiple of 8.
pub fn total_for(size: u32) -> u64
    ensures { result ≡ total_for size }
{
    round_up_8(u64::from(size) + 4)
}

/// The first free item, along the links, that has `needed` bytes.
fn find_fit(map: &AddressMap, heap: u32, needed: u64) -> Search
    requires { HasHeapAt map.now heap }
    ensures fit { MatchOption result.fit (first_fit needed (items_at map.now heap) ≡ None)
        (λ fit. IsFit heap (items_at map.now heap) needed fit.from fit.at fit.total) }
    ensures probes { result.probes ≡ looked_at needed (items_at map.now heap) }
{
    let mut probes = 0;
    let mut from = heap;
    let mut at = follow(map, heap, heap);
    while at != 0 {
        let total = word(map, at + 4);
        probes += 1;
        if u64::from(total) >= needed {
            let fit = Some(Fit { from, at, total });
            return Search { fit, probes };
        }
        from = at;
        at = follow(map, heap, at);
    }
    Search { fit: None, probes }
}

/// Makes a block of `needed` bytes at the front of a free item. What is left of it stays free.
fn take(map: &mut AddressMap, heap: u32, fit: &Fit, needed: u32) -> u32
    requires heap { HasHeapAt map.old heap }
    requires total { is_total needed ≡ true }
    requires fit { IsFit heap (items_at map.old heap) needed fit.now.from fit.now.at fit.now.total }
    ensures { Claims map.old map.new heap (end_at map.old heap) (Ok result)
        (first_fit needed (items_at map.old heap)) }
{
    let next = follow(map, heap, fit.at);
    let left = fit.total - needed;
    if left == 0 {
        put_link(map, heap, fit.from, next);
        put(map, fit.at, needed);
        remark(map, fit.at, &[Item::Free(fit.total)], &[Item::Live(needed)]);
        return fit.at + 4;
    }
    put_free(map, heap, fit.from, fit.at + needed, left, next);
    put(map, fit.at, needed);
    let news = [Item::Live(needed), Item::Free(left)];
    remark(map, fit.at, &[Item::Free(fit.total)], &news);
    fit.at + 4
}

/// Makes a block of `needed` bytes behind all items, where the heap has room.
fn append(map: &mut AddressMap, heap: u32, needed: u64) -> Result<u32, ErrorNumber>
    requires heap { HasHeapAt map.old heap }
    requires needed { IsNewTotal needed }
    ensures { Claims map.old map.new heap (end_at map.old heap) result
        (or_at_base needed (end_at map.old heap - 16) (items_at map.old heap) None) }
{
    let base = word(map, heap + BASE);
    let end = word(map, heap + END);
    if u64::from(base) + needed > u64::from(end) {
        return Err(ErrorNumber::HeapNoRoom);
    }
    let total = needed as u32;
    put(map, heap + base, total);
    put(map, heap + BASE, base + total);
    make(map, heap + base, &[Item::Live(total)]);
    Ok(heap + base + 4)
}

/// Whether a heap has `needed` bytes between its base and its end.
fn fits_at_base(map: &AddressMap, heap: u32, needed: u64) -> bool
    requires heap { HasHeapAt map.now heap }
    requires needed { IsNewTotal needed }
    ensures { result ≡ nat_le (size_of (items_at map.now heap) + needed) (end_at map.now heap - 16) }
{
    u64::from(word(map, heap + BASE)) + needed <= u64::from(word(map, heap + END))
}

/// Whether a claim of `needed` bytes would find room, and how many free items the search for it looks at. Nothing is
/// changed.
#[tactic(auto, unfolding(crate::specs::lists::Lists::claim_in_items))]
pub fn find_room(map: &AddressMap, heap: u32, needed: u64) -> Counted<()>
    requires heap { HasHeapAt map.now heap }
    requires needed { IsNewTotal needed }
    ensures answer { result.answer ≡ room_of (claim_in_items needed (end_at map.now heap - 16)
        (items_at map.now heap)) }
    ensures probes { result.probes ≡ looked_at needed (items_at map.now heap) }
{
    let search = find_fit(map, heap, needed);
    if search.fit.is_none() && !fits_at_base(map, heap, needed) {
        return refused(ErrorNumber::HeapNoRoom, search.probes);
    }
    Counted {
        answer: Ok(()),
        probes: search.probes,
    }
}

/// Claims a block of `needed` bytes in one heap, its length word among them.
#[tactic(auto, unfolding(crate::specs::lists::Lists::claim_in_items))]
pub fn claim_total(map: &mut AddressMap, heap: u32, needed: u64) -> Counted<u32>
    requires heap { HasHeapAt map.old heap }
    requires needed { IsNewTotal needed }
    ensures claim { Claims map.old map.new heap (end_at map.old heap) result.answer
        (claim_in_items needed (end_at map.old heap - 16) (items_at map.old heap)) }
    ensures probes { result.probes ≡ looked_at needed (items_at map.old heap) }
{
    let search = find_fit(map, heap, needed);
    let probes = search.probes;
    match search.fit {
        Some(fit) => {
            let answer = Ok(take(map, heap, &fit, needed as u32));
            Counted { answer, probes }
        }
        None => {
            let answer = append(map, heap, needed);
            Counted { answer, probes }
        }
    }
}
