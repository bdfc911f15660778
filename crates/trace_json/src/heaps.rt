//! Heaps in records.

ghost use Rattle.os_heap.specs.Store.{IsSound, store_of};
ghost use Rattle.trace_text.specs.Sound.{AreBothSound};

use address_map::{AddressMap, Item, Region};
use std::alloc::{AllocError, Global};
use trace_effects::record_text::{Bracket, RecordText};
use trace_moments::{
    ItemWalk, SameBlock, all_changed_items, limits_of, resized_block, slid_blocks,
};
use trace_text::{HeapLimits, ItemChange};

/// Which blocks a step left in another place or with another length.
#[derive(Clone, Copy)]
pub(crate) enum BlockFate {
    /// Those that slid, where all blocks of a heap are the same.
    Slid,
    /// The one that was resized, by the addresses of its first word before and after.
    Resized(u32, u32),
    /// It isn't known: many steps were taken.
    Unknown,
}

/// Writes all heaps.
pub(crate) fn push_all_heaps(text: &mut RecordText, memory: &AddressMap) -> Result<(), AllocError>
    requires { IsSound (store_of memory.now) }
{
    text.open_field(b"heaps", Bracket::List)?;
    for region in memory.regions() {
        if region.kind.is_heap() {
            push_whole(text, memory, region.at)?;
        }
    }
    text.close(Bracket::List)
}

fn push_whole(text: &mut RecordText, memory: &AddressMap, heap: u32) -> Result<(), AllocError>
    requires { IsSound (store_of memory.now) }
{
    let Some(limits) = limits_of(memory, heap) else {
        return Ok(());
    };
    text.open(Bracket::Object)?;
    text.number_field(b"heap", u64::from(heap))?;
    push_limits(text, limits)?;
    text.open_field(b"items", Bracket::List)?;
    let mut walk = ItemWalk::of(memory, heap);
    for _items in 0..u32::MAX {
        let Some(at) = walk.place() else {
            break;
        };
        let Some(item) = walk.take_at(at) else {
            break;
        };
        push_item(text, b"+", at, item)?;
    }
    text.close(Bracket::List)?;
    text.close(Bracket::Object)
}

fn push_limits(text: &mut RecordText, limits: HeapLimits) -> Result<(), AllocError> {
    text.number_field(b"base", u64::from(limits.base))?;
    text.number_field(b"end", u64::from(limits.end))
}

fn push_item(text: &mut RecordText, sign: &[u8], at: u32, item: Item) -> Result<(), AllocError> {
    text.open(Bracket::List)?;
    text.string(sign)?;
    match item {
        Item::Live(_) => text.string(b"live")?,
        Item::Free(_) => text.string(b"free")?,
    }
    text.number(u64::from(at))?;
    text.number(u64::from(item.total()))?;
    text.close(Bracket::List)
}

/// Writes what differs of the heaps, into a text that is empty where nothing does.
pub(crate) fn push_changed_heaps(
    alloc: Global,
    text: &mut RecordText,
    before: &AddressMap,
    after: &AddressMap,
    fate: BlockFate,
) -> Result<(), AllocError>
    requires stores { AreBothSound before.now after.now }
{
    if !do_heaps_differ(alloc, before, after)? {
        return Ok(());
    }
    text.open_field(b"heaps", Bracket::List)?;
    for region in before.regions() {
        push_if_gone(text, region, after)?;
    }
    for region in after.regions() {
        if region.kind.is_heap() {
            push_kept_heap(alloc, text, before, after, region.at, fate)?;
        }
    }
    text.close(Bracket::List)
}

// Whether a heap is gone or made, or differs.
fn do_heaps_differ(
    alloc: Global,
    before: &AddressMap,
    after: &AddressMap,
) -> Result<bool, AllocError>
    requires stores { AreBothSound before.now after.now }
{
    for region in before.regions() {
        if region.kind.is_heap() && limits_of(after, region.at).is_none() {
            return Ok(true);
        }
    }
    for region in after.regions() {
        if region.kind.is_heap() && has_heap_changed(alloc, before, after, region.at)? {
            return Ok(true);
        }
    }
    Ok(false)
}

fn has_heap_changed(
    alloc: Global,
    before: &AddressMap,
    after: &AddressMap,
    heap: u32,
) -> Result<bool, AllocError>
    requires stores { AreBothSound before.now after.now }
{
    if limits_of(before, heap) != limits_of(after, heap) {
        return Ok(true);
    }
    if !all_changed_items(alloc, before, after, heap)?.is_empty() {
        return Ok(true);
    }
    Ok(!slid_blocks(alloc, before, after, heap)?.is_empty())
}

fn push_if_gone(
    text: &mut RecordText,
    region: &Region,
    after: &AddressMap,
) -> Result<(), AllocError>
    requires { IsSound (store_of after.now) }
{
    if !region.kind.is_heap() || limits_of(after, region.at).is_some() {
        return Ok(());
    }
    text.open(Bracket::Object)?;
    text.number_field(b"heap", u64::from(region.at))?;
    text.truth_field(b"gone")?;
    text.close(Bracket::Object)
}

fn push_kept_heap(
    alloc: Global,
    text: &mut RecordText,
    before: &AddressMap,
    after: &AddressMap,
    heap: u32,
    fate: BlockFate,
) -> Result<(), AllocError>
    requires stores { AreBothSound before.now after.now }
{
    if !has_heap_changed(alloc, before, after, heap)? {
        return Ok(());
    }
    text.open(Bracket::Object)?;
    text.number_field(b"heap", u64::from(heap))?;
    push_new_limits(text, limits_of(before, heap), limits_of(after, heap))?;
    push_changed_items(alloc, text, before, after, heap, fate)?;
    text.close(Bracket::Object)
}

fn push_new_limits(
    text: &mut RecordText,
    old: Option<HeapLimits>,
    new: Option<HeapLimits>,
) -> Result<(), AllocError> {
    match (old, new) {
        (None, Some(new)) => {
            text.truth_field(b"made")?;
            push_limits(text, new)
        }
        (Some(old), Some(new)) => {
            if old.base != new.base {
                text.number_field(b"base", u64::from(new.base))?;
            }
            if old.end != new.end {
                text.number_field(b"end", u64::from(new.end))?;
            }
            Ok(())
        }
        (_, None) => Ok(()),
    }
}

fn push_changed_items(
    alloc: Global,
    text: &mut RecordText,
    before: &AddressMap,
    after: &AddressMap,
    heap: u32,
    fate: BlockFate,
) -> Result<(), AllocError>
    requires stores { AreBothSound before.now after.now }
{
    let changes = all_changed_items(alloc, before, after, heap)?;
    let same = match fate {
        BlockFate::Slid => slid_blocks(alloc, before, after, heap)?,
        BlockFate::Resized(from, to) => one_block(
            alloc,
            resized_block(changes.as_slice(), from, to),
        )?,
        BlockFate::Unknown => Vec::new(alloc),
    };
    if changes.is_empty() && same.is_empty() {
        return Ok(());
    }
    text.open_field(b"items", Bracket::List)?;
    for change in &changes {
        if !is_of_same(same.as_slice(), change) {
            push_item(text, sign_of(change.is_new), change.at, change.item)?;
        }
    }
    for block in &same {
        push_same(text, *block)?;
    }
    text.close(Bracket::List)
}

fn one_block(alloc: Global, block: Option<SameBlock>) -> Result<Vec<SameBlock>, AllocError> {
    let mut all = Vec::new(alloc);
    if let Some(block) = block {
        all.push(block)?;
    }
    Ok(all)
}

fn sign_of(is_new: bool) -> &'static [u8] {
    if is_new { b"+" } else { b"-" }
}

// Whether an item that is gone or new is a block that is the same one elsewhere.
fn is_of_same(same: &[SameBlock], change: &ItemChange) -> bool {
    match change.item {
        Item::Live(_) if change.is_new => same.iter().any(|block| block.to == change.at),
        Item::Live(_) => same.iter().any(|block| block.from == change.at),
        Item::Free(_) => false,
    }
}

fn push_same(text: &mut RecordText, block: SameBlock) -> Result<(), AllocError> {
    text.open(Bracket::List)?;
    text.string(b"=")?;
    text.string(b"live")?;
    text.number(u64::from(block.from))?;
    text.number(u64::from(block.old_total))?;
    text.number(u64::from(block.to))?;
    text.number(u64::from(block.new_total))?;
    text.close(Bracket::List)
}
