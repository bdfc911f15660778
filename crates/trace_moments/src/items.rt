//! All items of a heap that differ, and blocks that slid.

ghost use Rattle.std.specs.Prelude.{ℕ, ◌≡◌, ◌<◌, ◌^◌, ◌++◌, IfOk, OnOk};
ghost use Rattle.os_heap.specs.Store.{store_of};
ghost use Rattle.trace_store_text.specs.items.Changes.{is_same_item, item_change_at, item_changes, item_shown};
ghost use Rattle.trace_store_text.specs.items.Laws.{with_item_changes};
ghost use Rattle.trace_store_text.specs.items.Places.{item_there, placed_items};
ghost use Rattle.trace_store_text.specs.Sound.{AreBothSound};

use address_map::{AddressMap, Item};
use std::alloc::{AllocError, Global};
use trace_store_text::items::walk::lower_place;
use trace_store_text::items::{ItemChange, ItemWalk};

/// The items of the heap that starts at an address that are gone or new, by their addresses; where
/// one is gone and another is new in its place, that which is gone comes first.
///
/// # Errors
///
/// Memory ran out.
pub fn all_changed_items(
    alloc: Global,
    before: &AddressMap,
    after: &AddressMap,
    heap: u32,
) -> Result<Vec<ItemChange>, AllocError>
    requires stores { AreBothSound before.now after.now }
    ensures reported { IfOk result (λ reported. reported.items
        ≡ item_changes (store_of before.now) (store_of after.now) heap) }
    ensures replays { IfOk result (λ reported. (a : ℕ) → a < 2 ^ 26
        → item_there (placed_items (store_of after.now) heap) a
        ≡ with_item_changes reported.items (item_there (placed_items (store_of before.now) heap)) a) }
{
    let mut olds = ItemWalk::of(before, heap);
    let mut news = ItemWalk::of(after, heap);
    let mut changes = Vec::new(alloc);
    while let Some(at) = lower_place(olds.place(), news.place()) {
        let old = olds.take_at(at);
        let new = news.take_at(at);
        add_at(&mut changes, at, old, new)?;
    }
    Ok(changes)
}

// What differs at one address.
fn add_at(
    changes: &mut Vec<ItemChange>,
    at: u32,
    old: Option<Item>,
    new: Option<Item>,
) -> Result<(), AllocError>
    ensures { OnOk result (changes.new.items ≡ changes.old.items ++ item_change_at at old new) }
{
    if is_same(old, new) {
        return Ok(());
    }
    add_item(changes, at, old, false)?;
    add_item(changes, at, new, true)
}

// An item, if there is one, that is gone or new.
fn add_item(
    changes: &mut Vec<ItemChange>,
    at: u32,
    item: Option<Item>,
    is_new: bool,
) -> Result<(), AllocError>
    ensures { OnOk result (changes.new.items ≡ changes.old.items ++ item_shown at item is_new) }
{
    if let Some(item) = item {
        changes.push(ItemChange { at, item, is_new })?;
    }
    Ok(())
}

// Whether at an address the same stands in both.
fn is_same(old: Option<Item>, new: Option<Item>) -> bool
    ensures { result ≡ is_same_item old new }
{
    match (old, new) {
        (Some(Item::Live(old)), Some(Item::Live(new))) => old == new,
        (Some(Item::Free(old)), Some(Item::Free(new))) => old == new,
        (None, None) => true,
        _ => false,
    }
}

/// A block of a heap that is the same one at another address, or with another length; both with all
/// their bytes, at the addresses of their first words.
#[derive(Clone, Copy)]
pub struct SameBlock {
    pub from: u32,
    pub old_total: u32,
    pub to: u32,
    pub new_total: u32,
}

/// The blocks that have slid: where a heap has the same blocks in the same order, of the same lengths,
/// those that stand elsewhere. None where blocks were made, taken away or resized.
///
/// # Errors
///
/// Memory ran out.
pub fn slid_blocks(
    alloc: Global,
    before: &AddressMap,
    after: &AddressMap,
    heap: u32,
) -> Result<Vec<SameBlock>, AllocError>
    requires stores { AreBothSound before.now after.now }
{
    let mut olds = ItemWalk::of(before, heap);
    let mut news = ItemWalk::of(after, heap);
    let mut slid = Vec::new(alloc);
    for _blocks in 0..u32::MAX {
        match (next_live(&mut olds), next_live(&mut news)) {
            (Some((from, old)), Some((to, new))) if old == new => {
                if from != to {
                    slid.push(SameBlock {
                        from,
                        old_total: old,
                        to,
                        new_total: new,
                    })?;
                }
            }
            (None, None) => return Ok(slid),
            _ => return Ok(Vec::new(alloc)),
        }
    }
    Ok(slid)
}

// The next block that is live: its address and its length.
fn next_live(walk: &mut ItemWalk) -> Option<(u32, u32)> {
    for _items in 0..u32::MAX {
        let at = walk.place()?;
        if let Item::Live(total) = walk.take_at(at)? {
            return Some((at, total));
        }
    }
    None
}

/// The block that a call resized, among the items that differ: gone at one address, and new at the
/// other.
pub fn resized_block(changes: &[ItemChange], from: u32, to: u32) -> Option<SameBlock> {
    let old_total = live_at(changes, from, false)?;
    let new_total = live_at(changes, to, true)?;
    Some(SameBlock {
        from,
        old_total,
        to,
        new_total,
    })
}

// The length of the block that is gone from an address, or new there.
fn live_at(changes: &[ItemChange], at: u32, is_new: bool) -> Option<u32> {
    for change in changes {
        if change.at == at && change.is_new == is_new {
            if let Item::Live(total) = change.item {
                return Some(total);
            }
        }
    }
    None
}
