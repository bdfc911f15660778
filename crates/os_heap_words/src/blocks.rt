//! The items of one heap, one after another.

ghost use Rattle.std.specs.Prelude.{◌≡◌, ◌+◌, ◌≤◌, List};
ghost use Rattle.std.specs.Iterator.{YieldsFirst, item_count};
ghost use Rattle.address_map.specs.declared.item.Item.{Item};
ghost use Rattle.address_map.specs.Memory.{bytes_of};
ghost use Rattle.os_heap_words.specs.lists.Walks.{rest_from, IsRestOfHeap};
ghost use Rattle.os_heap_words.specs.Outcomes.{IsHeapAt, items_at};

use crate::links::linked;
use crate::words::{BASE, LINK, word};
use address_map::{AddressMap, HEAP_DESCRIPTOR, Item};
use std::marker::Model;

/// The items of a heap, live and free, in the order of their addresses.
#[derive(Drop)]
pub struct Blocks<'a> {
    map: &'a AddressMap,
    at: u32,
    free: u32,
    base: u32,
}

impl<'a> Model for Blocks<'a> {
    ghost Value = { List Item };

    ghost view = { λ b. rest_from (bytes_of b.map.now) b.at b.free b.base };

    ghost invariant = { λ b. IsRestOfHeap (bytes_of b.map.now) b.at b.free b.base };
}

impl<'a> Iterator for Blocks<'a> {
    type Item = Item;

    ghost next_gives = { YieldsFirst (λ s. s) };

    ghost remaining = { item_count (λ s. s) };

    fn next(&mut self) -> Option<Item> {
        if self.at >= self.base {
            return None;
        }
        if self.at == self.free {
            let total = word(self.map, self.at + 4);
            self.free = linked(self.at, word(self.map, self.at));
            self.at += total;
            return Some(Item::Free(total));
        }
        let total = word(self.map, self.at);
        self.at += total;
        Some(Item::Live(total))
    }
}

/// The items of a heap that memory spells.
pub fn blocks_of<'a>(map: &'a AddressMap, heap: u32, end: u32) -> Blocks<'a>
    requires { IsHeapAt map.now heap end }
    ensures { result ≡ items_at map.now heap }
{
    Blocks {
        map,
        at: heap + HEAP_DESCRIPTOR,
        free: linked(heap, word(map, heap + LINK)),
        base: heap + word(map, heap + BASE),
    }
}
