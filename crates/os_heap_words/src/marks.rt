//! Marks on the words that a heap's list spells, which no store instruction may write then.

ghost use Rattle.std.specs.Prelude.{ℕ, [], ◌∷◌, ◌++◌, ◌≡◌, ◌≤◌, ◌<◌, ◌+◌, ◌-◌, ◌%◌, ◌^◌, ◌&&◌, true, if◌then◌else◌};
ghost use Rattle.address_map.specs.Bytes.{AreMapped, in_range, word_start};
ghost use Rattle.address_map.specs.Classes.{is_heap_class};
ghost use Rattle.address_map.specs.Memory.{is_mapped, class_of};
ghost use Rattle.address_map.specs.Records.{with_class};
ghost use Rattle.address_map.specs.declared.class.Class.TheVariants.{Heap};
ghost use Rattle.os_heap_words.specs.Kept.{KeepsBytes};
ghost use Rattle.os_heap_words.specs.lists.Lists.{left_free};
ghost use Rattle.os_heap_words.specs.lists.Marks.{head_class, Remarks, with_item_marked, with_items_marked};
ghost use Rattle.os_heap_words.specs.Marks.{RemarksItems, SetsClasses, with_no_heads};
ghost use Rattle.os_heap_words.specs.Outcomes.{CanStand};

use crate::walk::Cursor;
use crate::words::{BASE, END, LINK};
use address_map::{AddressMap, Class, Item, Kind};

/// The bytes of a word.
const WORD: u32 = 4;

/// Marks a word as a head, which only store calls may write from then on, or takes its mark away.
fn mark(map: &mut AddressMap, at: u32, is_head: bool)
    requires aligned { at % 4 ≡ 0 }
    requires mapped { is_mapped map.old at ≡ true }
    ensures { SetsClasses map.old map.new (with_class (class_of map.old) at (head_class is_head)) }
{
    if is_head {
        map.own(Kind::HeadWord, at, WORD);
    } else {
        map.disown(Kind::HeadWord, at);
    }
}

/// Marks the words of an item, or takes their marks away.
pub fn mark_item(map: &mut AddressMap, at: u32, item: Item, is_head: bool)
    requires { CanStand map.old at (item ∷ []) }
    ensures marks { (a : ℕ) → class_of map.new a ≡ with_item_marked at item (head_class is_head)
        (class_of map.old) a }
    ensures kept { KeepsBytes map.old map.new }
{
    mark(map, at, is_head);
    if let Item::Free(_) = item {
        mark(map, at + WORD, is_head);
    }
}

/// Marks the words of items that lie one behind the other, or takes their marks away.
fn mark_items(map: &mut AddressMap, at: u32, items: &[Item], is_head: bool)
    requires { CanStand map.old at items.now }
    ensures { SetsClasses map.old map.new (with_items_marked at items.now (head_class is_head)
        (class_of map.old)) }
{
    let mut place = at;
    for item in items {
        mark_item(map, place, *item, is_head);
        place += item.total();
    }
}

/// Marks the words of items that are made where there were none.
pub fn make(map: &mut AddressMap, at: u32, news: &[Item])
    requires { CanStand map.old at news.now }
    ensures marks { Remarks (class_of map.old) (class_of map.new) at [] news.now }
    ensures kept { KeepsBytes map.old map.new }
{
    mark_items(map, at, news, true);
}

/// Takes the marks of items away, and marks those that are made in their place.
pub(crate) fn remark(map: &mut AddressMap, at: u32, olds: &[Item], news: &[Item])
    requires olds { CanStand map.old at olds.now }
    requires news { CanStand map.old at news.now }
    ensures { RemarksItems map.old map.new at olds.now news.now }
{
    mark_items(map, at, olds, false);
    mark_items(map, at, news, true);
}

/// The same with a free item before the cursor, if there is one, which is given up with the items from the cursor on.
/// The new ones begin where it began.
pub(crate) fn remark_gap(map: &mut AddressMap, cursor: &Cursor, olds: &[Item], news: &[Item])
    requires low { cursor.now.gap ≤ cursor.now.at }
    requires gap { CanStand map.old (cursor.now.at - cursor.now.gap) (left_free cursor.now.gap) }
    requires olds { CanStand map.old cursor.now.at olds.now }
    requires news { CanStand map.old (cursor.now.at - cursor.now.gap) news.now }
    ensures { let from = cursor.now.at - cursor.now.gap in
        RemarksItems map.old map.new from (left_free cursor.now.gap ++ olds.now) news.now }
{
    let from = cursor.at - cursor.gap;
    give_up_gap(map, from, cursor.gap);
    mark_items(map, cursor.at, olds, false);
    mark_items(map, from, news, true);
}

/// Takes the marks of a free item away, or of nothing, where it would have no bytes.
fn give_up_gap(map: &mut AddressMap, at: u32, gap: u32)
    requires { CanStand map.old at (left_free gap) }
    ensures { RemarksItems map.old map.new at (left_free gap) [] }
{
    if gap != 0 {
        mark_items(map, at, &[Item::Free(gap)], false);
    }
}

/// Takes the marks of heaps off the words among some bytes. The marks of anchors stay.
pub fn unmark_heads(map: &mut AddressMap, at: u32, len: u32)
    requires aligned { at % 4 ≡ 0 }
    requires whole { len % 4 ≡ 0 }
    requires mapped { AreMapped (is_mapped map.old) at len }
    requires end { at + len ≤ 67108864 }
    ensures { SetsClasses map.old map.new (with_no_heads at len (class_of map.old)) }
{
    let end = at + len;
    let mut place = at;
    while place < end {
        unmark_head(map, place);
        place += WORD;
    }
}

/// Takes the mark of a heap off a word, if it has that.
fn unmark_head(map: &mut AddressMap, at: u32)
    requires aligned { at % 4 ≡ 0 }
    requires mapped { is_mapped map.old at ≡ true }
    ensures { SetsClasses map.old map.new (with_no_heads at 4 (class_of map.old)) }
{
    if is_heap_class(map.class(at)) {
        mark(map, at, false);
    }
}

/// Whether a class is that of a heap's words.
fn is_heap_class(class: Class) -> bool
    ensures { result ≡ is_heap_class class }
{
    matches!(class, Class::Heap)
}

/// Marks the four words of a heap's descriptor.
pub fn mark_descriptor(map: &mut AddressMap, heap: u32)
    requires aligned { heap % 4 ≡ 0 }
    requires mapped { AreMapped (is_mapped map.old) heap 16 }
    ensures { SetsClasses map.old map.new (λ a. if in_range heap 16 (word_start a) then Heap
        else class_of map.old a) }
{
    mark(map, heap, true);
    mark(map, heap + LINK, true);
    mark(map, heap + BASE, true);
    mark(map, heap + END, true);
}
