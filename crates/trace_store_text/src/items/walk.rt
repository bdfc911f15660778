//! The items of a heap, one after another, each with its address.

ghost use Rattle.std.specs.Prelude.{◌≡◌, ◌≤◌, ◌+◌, ◌^◌, [], unwrap_or};
ghost use Rattle.address_map.specs.Items.{size_of};
ghost use Rattle.store_copies.specs.Store.{IsSound, store_of};
ghost use Rattle.store_copies.specs.Heap.{AreTotals};
ghost use Rattle.trace_store_text.specs.items.Places.{first_item, lower_place, rest_of};

use address_map::{AddressMap, Item};
use profile::memory_map::HEAP_DESCRIPTOR;
use std::marker::Model;
use store_copies::{Blocks, Heaps};

/// The items of a heap that are left of a walk over them, and where the first of these stands.
#[derive(Drop)]
pub struct ItemWalk<'a> {
    blocks: Option<Blocks<'a>>,
    next: Option<Item>,
    at: u32,
}

impl<'a> Model for ItemWalk<'a> {
    ghost use Rattle.std.specs.Prelude.{[], unwrap_or};
    ghost use Rattle.trace_store_text.specs.items.Places.{IsWalk, PlacedItems, items_with_next};

    ghost Value = { PlacedItems };

    ghost view = { λ w. record { at = w.at; items = items_with_next w.next (unwrap_or w.blocks []) } };

    ghost invariant = { λ w. IsWalk w.at w.next (unwrap_or w.blocks []) };
}

impl<'a> ItemWalk<'a> {
    ghost use Rattle.trace_store_text.specs.items.Places.{items_after_taking, item_taken, place_next, placed_items};

    /// All items of the heap that starts at an address, and none where none starts there.
    pub fn of(memory: &'a AddressMap, heap: u32) -> ItemWalk<'a>
        requires { IsSound (store_of memory.now) }
        ensures { result ≡ placed_items (store_of memory.now) heap }
    {
        let Some(blocks) = Heaps::new().blocks(memory, heap) else {
            return ItemWalk {
                blocks: None,
                next: None,
                at: 0,
            };
        };
        let mut blocks = Some(blocks);
        let next = next_of(&mut blocks);
        ItemWalk {
            blocks,
            next,
            at: heap + HEAP_DESCRIPTOR,
        }
    }

    /// Where the next item stands, if one is left.
    pub fn place(&self) -> Option<u32>
        ensures place { result ≡ place_next self.now }
        ensures totals { AreTotals self.now.items }
        ensures below { self.now.at + size_of self.now.items ≤ 2 ^ 26 }
    {
        match self.next {
            Some(_) => Some(self.at),
            None => None,
        }
    }

    /// Takes the next item, if it stands at an address.
    pub fn take_at(&mut self, at: u32) -> Option<Item>
        ensures item { result ≡ item_taken at self.old }
        ensures rest { self.new ≡ items_after_taking at self.old }
    {
        let item = self.next?;
        if self.at != at {
            return None;
        }
        self.at += item.total();
        self.next = next_of(&mut self.blocks);
        Some(item)
    }
}

// The next of some items, which is taken from them.
fn next_of(blocks: &mut Option<Blocks>) -> Option<Item>
    ensures first { result ≡ first_item (unwrap_or blocks.old []) }
    ensures rest { unwrap_or blocks.new [] ≡ rest_of (unwrap_or blocks.old []) }
{
    match blocks {
        Some(blocks) => blocks.next(),
        None => None,
    }
}

/// The lower of two places, or that which is there.
pub fn lower_place(one: Option<u32>, other: Option<u32>) -> Option<u32>
    ensures { result ≡ lower_place one other }
{
    match (one, other) {
        (Some(one), Some(other)) => Some(one.min(other)),
        (Some(one), None) => Some(one),
        (None, other) => other,
    }
}
