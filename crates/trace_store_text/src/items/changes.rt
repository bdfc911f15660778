//! The items that differ.

ghost use Rattle.std.specs.Prelude.{◌≡◌, ◌<◌, ◌≤◌, ◌^◌, ◌+◌, ◌∷◌, ◌++◌, [], List};
ghost use Rattle.store_copies.specs.Store.{store_of};
ghost use Rattle.trace_store_text.specs.items.Changes.{IsItemSummary, is_same_item, item_change_at, item_changes, item_shown};
ghost use Rattle.trace_store_text.specs.Sound.{AreBothSound};

use crate::items::walk::{ItemWalk, lower_place};
use address_map::{AddressMap, Item};
use arrayvec::ArrayVec;

/// How many of the items that differ are kept.
pub const MOST_ITEMS: usize = 64;

/// An item that is gone or new: its address, and what it is.
#[derive(Clone, Copy)]
pub struct ItemChange {
    pub at: u32,
    pub item: Item,
    pub is_new: bool,
}

impl Default for ItemChange {
    fn default() -> ItemChange {
        ItemChange {
            at: 0,
            item: Item::Free(0),
            is_new: false,
        }
    }
}

/// The items that differ, by address: the first 64 of them, and how many there are.
#[derive(Drop)]
pub struct ItemChanges {
    pub first: ArrayVec<ItemChange, MOST_ITEMS>,
    pub count: u32,
}

/// The items of the heap that starts at an address that are gone or new, by their addresses; where
/// one is gone and another is new in its place, that which is gone comes first.
pub fn changed_items(before: &AddressMap, after: &AddressMap, heap: u32) -> ItemChanges
    requires stores { AreBothSound before.now after.now }
    ensures { IsItemSummary result (item_changes (store_of before.now) (store_of after.now) heap) }
{
    let mut olds = ItemWalk::of(before, heap);
    let mut news = ItemWalk::of(after, heap);
    let mut changes = ItemChanges::none();
    while let Some(at) = lower_place(olds.place(), news.place()) {
        let old = olds.take_at(at);
        let new = news.take_at(at);
        changes.add_at(at, old, new);
    }
    changes
}

impl ItemChanges {
    fn none() -> ItemChanges
        ensures { IsItemSummary result [] }
    {
        ItemChanges {
            first: ArrayVec::new(),
            count: 0,
        }
    }

    // What differs at one address.
    fn add_at(&mut self, at: u32, old: Option<Item>, new: Option<Item>)
        requires { self.old.count < 2 ^ 28 }
        ensures { (all : List ItemChange) → IsItemSummary self.old all
            → IsItemSummary self.new (all ++ item_change_at at old new) }
    {
        if is_same(old, new) {
            return;
        }
        self.add_item(at, old, false);
        self.add_item(at, new, true);
    }

    // An item, if there is one, that is gone or new.
    fn add_item(&mut self, at: u32, item: Option<Item>, is_new: bool)
        requires { self.old.count < 2 ^ 29 }
        ensures summary { (all : List ItemChange) → IsItemSummary self.old all
            → IsItemSummary self.new (all ++ item_shown at item is_new) }
        ensures count { self.new.count ≤ self.old.count + 1 }
    {
        if let Some(item) = item {
            self.add(ItemChange { at, item, is_new });
        }
    }

    fn add(&mut self, change: ItemChange)
        requires { self.old.count < 2 ^ 29 }
        ensures summary { (all : List ItemChange) → IsItemSummary self.old all
            → IsItemSummary self.new (all ++ change ∷ []) }
        ensures count { self.new.count ≡ self.old.count + 1 }
    {
        if self.first.len() < MOST_ITEMS {
            self.first.push(change);
        }
        self.count += 1;
    }
}

// Whether at an address the same stands in both.
fn is_same(old: Option<Item>, new: Option<Item>) -> bool
    ensures { result ≡ is_same_item old new }
{
    match (old, new) {
        (Some(Item::Live(old)), Some(Item::Live(new))) => old == new,
        (Some(Item::Free(old)), Some(Item::Free(new))) => old == new,
        (None, None) => true,
        _ => false,
    }
}
