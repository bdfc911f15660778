//! The blocks of the flex store that differ, and where the store is, if that differs.

ghost use Rattle.std.specs.Prelude.{◌≡◌, ◌↔◌, IfOk, IsTrue, false, option_map, unwrap_or};
ghost use Rattle.flex_store.specs.State.{IsFlex};
ghost use Rattle.trace_store_text.specs.flex.Changes.{is_same_block};
ghost use Rattle.trace_moments.specs.Difference.{IsDifference};
ghost use Rattle.trace_moments.specs.Flex.{AreFlexChanges, blocks_by_anchor, flex_range_of};

use address_map::AddressMap;
use flex_store::{Flex, FlexBlock};
use std::alloc::{AllocError, Global};
use trace_store_text::flex::{find_block, is_same_block};

/// Where the flex store starts and ends, and how many of its bytes its blocks take up.
#[derive(Clone, Copy)]
pub struct FlexRange {
    pub start: u32,
    pub end: u32,
    pub used: u32,
}

/// The block of an anchor, as it was and as it is: one of them where it is new or gone.
#[derive(Clone, Copy)]
pub struct FlexChange {
    pub anchor: u32,
    pub was: Option<FlexBlock>,
    pub is: Option<FlexBlock>,
}

/// Where a flex store is, if there is one.
pub fn flex_range_of(flex: &Flex) -> Option<FlexRange>
    ensures { result ≡ flex_range_of flex.now }
{
    match flex.range() {
        Some((start, end, used)) => Some(FlexRange { start, end, used }),
        None => None,
    }
}

/// Where the flex store is, if that isn't where it was.
pub fn changed_range(old: &Flex, new: &Flex) -> Option<Option<FlexRange>>
    ensures { IsDifference (flex_range_of old.now) (flex_range_of new.now) result }
{
    let after = flex_range_of(new);
    if is_same_range(flex_range_of(old), after) {
        None
    } else {
        Some(after)
    }
}

fn is_same_range(old: Option<FlexRange>, new: Option<FlexRange>) -> bool
    ensures { IsTrue result ↔ (old ≡ new) }
{
    match (old, new) {
        (Some(old), Some(new)) => old.start == new.start
            && old.end == new.end
            && old.used == new.used,
        (None, None) => true,
        _ => false,
    }
}

/// The blocks of the flex store that differ: first those whose anchors have none any more, then those
/// that are new, or stand elsewhere, or have another size, in the order of their addresses.
///
/// # Errors
///
/// Memory ran out.
pub fn changed_blocks(
    alloc: Global,
    before: &AddressMap,
    old: &Flex,
    after: &AddressMap,
    new: &Flex,
) -> Result<Vec<FlexChange>, AllocError>
    requires old { IsFlex before.now old.now }
    requires new { IsFlex after.now new.now }
    ensures { IfOk result (λ changes. AreFlexChanges (blocks_by_anchor before.now old.now)
        (blocks_by_anchor after.now new.now) changes.items) }
{
    let mut changes = Vec::new(alloc);
    let mut olds = old.blocks(before);
    while let Some(gone) = olds.next() {
        if find_block(new.blocks(after), gone.anchor).is_none() {
            changes.push(FlexChange {
                anchor: gone.anchor,
                was: Some(gone),
                is: None,
            })?;
        }
    }
    let mut news = new.blocks(after);
    while let Some(block) = news.next() {
        let was = find_block(old.blocks(before), block.anchor);
        if !is_same(was, block) {
            changes.push(FlexChange {
                anchor: block.anchor,
                was,
                is: Some(block),
            })?;
        }
    }
    Ok(changes)
}

// Whether what was is a block as it is, at the same address and of the same size.
fn is_same(was: Option<FlexBlock>, block: FlexBlock) -> bool
    ensures { result ≡ unwrap_or (option_map (λ was. is_same_block was block) was) false }
{
    match was {
        Some(was) => is_same_block(&was, &block),
        None => false,
    }
}
