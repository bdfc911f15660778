//! A block given another total where it stands: cut, grown, or moved with the base.

ghost use Rattle.std.specs.Prelude.{◌≡◌, ◌≢◌, ◌≤◌, ◌<◌, ◌+◌, true};
ghost use Rattle.address_map.specs.Bytes.{word_at};
ghost use Rattle.address_map.specs.Items.{is_total};
ghost use Rattle.address_map.specs.Memory.{byte_at};
ghost use Rattle.os_heap_words.specs.Cursors.{IsAtBlock, IsNewTotal, RefitsBlock};
ghost use Rattle.os_heap_words.specs.Kept.{KeepsMarks};
ghost use Rattle.os_heap_words.specs.Outcomes.{end_at};
ghost use Rattle.os_heap_words.specs.lists.Words.{IsDivided};
ghost use Rattle.os_heap_words.specs.lists.Walks.{last_link};

use crate::marks::remark;
use crate::neighbour::{free_behind, own_total};
use crate::walk::{Cursor, last_link};
use crate::words::{BASE, END, put, put_free, put_link, word};
use address_map::{AddressMap, Item};

/// Gives a block another total where it stands, if it can, and says whether it did.
pub fn refit(map: &mut AddressMap, heap: u32, block: u32, cursor: &Cursor, needed: u64) -> bool
    requires place { IsAtBlock map.old heap block cursor.now }
    requires needed { IsNewTotal needed }
    ensures { RefitsBlock map.old map.new heap block needed result }
{
    let total = own_total(map, heap, block, cursor);
    if needed == u64::from(total) {
        return true;
    }
    if cursor.at + total == heap + word(map, heap + BASE) {
        return refit_last(map, heap, block, cursor, needed);
    }
    if needed > u64::from(total) {
        return grow(map, heap, block, cursor, needed);
    }
    cut(map, heap, block, cursor, needed as u32);
    true
}

/// Gives the block that ends at the base another total, where the heap has room for that. The base moves with the
/// block's end.
fn refit_last(map: &mut AddressMap, heap: u32, block: u32, cursor: &Cursor, needed: u64) -> bool
    requires place { IsAtBlock map.old heap block cursor.now }
    requires needed { IsNewTotal needed }
    requires last { cursor.now.at + word_at (byte_at map.old) cursor.now.at
        ≡ heap + word_at (byte_at map.old) (heap + 8) }
    ensures { RefitsBlock map.old map.new heap block needed result }
{
    let end = heap + word(map, heap + END);
    if u64::from(cursor.at) + needed > u64::from(end) {
        return false;
    }
    let total = needed as u32;
    put(map, cursor.at, total);
    put(map, heap + BASE, cursor.at + total - heap);
    true
}

/// Cuts bytes off a block that is not the last. They are free then, and join what is free behind them.
fn cut(map: &mut AddressMap, heap: u32, block: u32, cursor: &Cursor, needed: u32)
    requires place { IsAtBlock map.old heap block cursor.now }
    requires total { is_total needed ≡ true }
    requires inside { cursor.now.at + word_at (byte_at map.old) cursor.now.at
        ≢ heap + word_at (byte_at map.old) (heap + 8) }
    requires smaller { needed < word_at (byte_at map.old) cursor.now.at }
    ensures { RefitsBlock map.old map.new heap block needed true }
{
    let total = own_total(map, heap, block, cursor);
    let behind = cursor.at + total;
    let left = total - needed;
    if behind == cursor.free {
        let item = free_behind(map, heap, block, cursor);
        let joined = left + item.total;
        divide(map, heap, cursor, needed, joined, item.next);
        let olds = [Item::Live(total), Item::Free(item.total)];
        let news = [Item::Live(needed), Item::Free(joined)];
        remark(map, cursor.at, &olds, &news);
        return;
    }
    divide(map, heap, cursor, needed, left, cursor.free);
    let news = [Item::Live(needed), Item::Free(left)];
    remark(map, cursor.at, &[Item::Live(total)], &news);
}

/// Gives a block that is not the last more bytes where it stands: those of the free item behind it.
fn grow(map: &mut AddressMap, heap: u32, block: u32, cursor: &Cursor, needed: u64) -> bool
    requires place { IsAtBlock map.old heap block cursor.now }
    requires total { is_total needed ≡ true }
    requires inside { cursor.now.at + word_at (byte_at map.old) cursor.now.at
        ≢ heap + word_at (byte_at map.old) (heap + 8) }
    requires larger { word_at (byte_at map.old) cursor.now.at < needed }
    ensures { RefitsBlock map.old map.new heap block needed result }
{
    let total = own_total(map, heap, block, cursor);
    let behind = cursor.at + total;
    if behind != cursor.free {
        return false;
    }
    let item = free_behind(map, heap, block, cursor);
    let room = total + item.total;
    if needed > u64::from(room) {
        return false;
    }
    let grown = needed as u32;
    let left = room - grown;
    let olds = [Item::Live(total), Item::Free(item.total)];
    if left == 0 {
        let from = last_link(cursor);
        put_link(map, heap, from, item.next);
        put(map, cursor.at, grown);
        remark(map, cursor.at, &olds, &[Item::Live(grown)]);
        return true;
    }
    divide(map, heap, cursor, grown, left, item.next);
    let news = [Item::Live(grown), Item::Free(left)];
    remark(map, cursor.at, &olds, &news);
    true
}

/// Gives a block another total, and makes what is behind its new end a free item.
fn divide(map: &mut AddressMap, heap: u32, cursor: &Cursor, total: u32, left: u32, next: u32)
    requires place { IsAtBlock map.old heap (cursor.now.at + 4) cursor.now }
    requires total { is_total total ≡ true }
    requires room { cursor.now.at + total + 8 ≤ heap + end_at map.old heap }
    ensures words { IsDivided (byte_at map.old) (byte_at map.new) heap
        (last_link cursor.now.from cursor.now.at cursor.now.gap) cursor.now.at total left next }
    ensures kept { KeepsMarks map.old map.new }
{
    let from = last_link(cursor);
    put_free(map, heap, from, cursor.at + total, left, next);
    put(map, cursor.at, total);
}
