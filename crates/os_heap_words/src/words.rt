//! The words of a heap in memory: its descriptor, links and lengths, read and written.

ghost use Rattle.std.specs.Prelude.{◌≡◌, ◌<◌, ◌+◌, ◌-◌, ◌%◌, ◌^◌, true};
ghost use Rattle.address_map.specs.Bytes.{word_at};
ghost use Rattle.address_map.specs.Items.{link_target};
ghost use Rattle.address_map.specs.Memory.{byte_at, is_mapped};
ghost use Rattle.os_heap_words.specs.Kept.{KeepsMarks};
ghost use Rattle.os_heap_words.specs.lists.Words.{link_at, AreApart, IsWordWritten, IsFreed};

use crate::links::linked;
use address_map::AddressMap;

/// Where the words of a heap's descriptor stand, counted from its start: behind its name the distance to the first free item, the base, and the end.
pub const LINK: u32 = 4;

pub const BASE: u32 = 8;

pub const END: u32 = 12;

/// The word at an address.
pub fn word(map: &AddressMap, at: u32) -> u32
    requires aligned { at % 4 ≡ 0 }
    requires mapped { is_mapped map.now at ≡ true }
    ensures { result ≡ word_at (byte_at map.now) at }
{
    map.load_word(at).unwrap()
}

/// Writes a word of a heap.
pub fn put(map: &mut AddressMap, at: u32, word: u32)
    requires aligned { at % 4 ≡ 0 }
    requires mapped { is_mapped map.old at ≡ true }
    ensures word { IsWordWritten (byte_at map.old) (byte_at map.new) at word }
    ensures kept { KeepsMarks map.old map.new }
{
    map.put_word(at, word);
}

/// Where the link of the free item at `from` stands, or that of the heap itself.
pub(crate) fn link_at(heap: u32, from: u32) -> u32
    requires { from + 4 < 2 ^ 32 }
    ensures { result ≡ link_at heap from }
{
    if from == heap { heap + LINK } else { from }
}

/// The free item that the link at `from` leads to, or 0.
pub fn follow(map: &AddressMap, heap: u32, from: u32) -> u32
    requires below { from + 4 < 2 ^ 32 }
    requires aligned { link_at heap from % 4 ≡ 0 }
    requires mapped { is_mapped map.now (link_at heap from) ≡ true }
    requires fits { link_target from (word_at (byte_at map.now) (link_at heap from)) < 2 ^ 32 }
    ensures { result ≡ link_target from (word_at (byte_at map.now) (link_at heap from)) }
{
    linked(from, word(map, link_at(heap, from)))
}

/// Makes the link at `from` lead to a free item, or nowhere, where that is 0.
pub fn put_link(map: &mut AddressMap, heap: u32, from: u32, next: u32)
    requires below { from + 4 < 2 ^ 32 }
    requires aligned { link_at heap from % 4 ≡ 0 }
    requires mapped { is_mapped map.old (link_at heap from) ≡ true }
    ensures word { IsWordWritten (byte_at map.old) (byte_at map.new) (link_at heap from) (next - from) }
    ensures kept { KeepsMarks map.old map.new }
{
    put(map, link_at(heap, from), next.saturating_sub(from));
}

/// Writes a free item: the link that leads to it, its own link, and its total.
pub fn put_free(map: &mut AddressMap, heap: u32, from: u32, at: u32, total: u32, next: u32)
    requires below { from + 4 < 2 ^ 32 }
    requires link_aligned { link_at heap from % 4 ≡ 0 }
    requires link_mapped { is_mapped map.old (link_at heap from) ≡ true }
    requires aligned { at % 4 ≡ 0 }
    requires fits { at + 4 < 2 ^ 32 }
    requires mapped { is_mapped map.old at ≡ true }
    requires total_mapped { is_mapped map.old (at + 4) ≡ true }
    requires apart { AreApart (link_at heap from) 4 at 8 }
    ensures words { IsFreed (byte_at map.old) (byte_at map.new) heap from at total next }
    ensures kept { KeepsMarks map.old map.new }
{
    put_link(map, heap, from, at);
    put(map, at, next.saturating_sub(at));
    put(map, at + 4, total);
}
