//! The flex calls on one block: claimed, measured, cut, grown, changed in its midst, released.

ghost use Rattle.std.specs.Prelude.{◌≡◌, ◌≤◌, ◌<◌, ◌+◌, ◌%◌, ◌==◌, ◌&&◌, not, ◌∷◌, [], false, None, Some, MatchOption};
ghost use Rattle.std.specs.List.{list_any};
ghost use Rattle.profile.specs.Outcome.{Gives};
ghost use Rattle.os_heap.specs.Records.{is_heap_kind};
ghost use Rattle.os_heap.specs.Store.{is_flex_store, store_of};
ghost use Rattle.os_heap.specs.Bytes.{shares_address, word_at};
ghost use Rattle.os_heap.specs.Classes.{is_anchor, is_heap_class};
ghost use Rattle.os_heap.specs.Memory.{byte_at, class_of};
ghost use Rattle.flex_store.specs.Blocks.{cut_of, find_block, has_anchor, more_of, new_block};
ghost use Rattle.flex_store.specs.Calls.{flex_after_alloc, flex_after_extend, is_anchor_place, may_stand, mid_extended, flex_after_release, flex_block_size, spliced_at};
ghost use Rattle.flex_store.specs.Changes.{Fits};
ghost use Rattle.flex_store.specs.Kept.{IsFlexMap};
ghost use Rattle.flex_store.specs.Relaid.{first_at};
ghost use Rattle.flex_store.specs.Places.{IsHeaderOf};
ghost use Rattle.flex_store.specs.Splices.{IsSplice};
ghost use Rattle.flex_store.specs.State.{blocks_of, held_in, flex_store_in, IsNewAnchor, IsStoreAt, KeepsBesidesFlex};

use crate::flex::Extent;
use crate::slide::{append, remove, replace};
use crate::splice::Splice;
use crate::walk::{HEADER, SIZE, is_in_contents, taken, word};
use os_heap::{AddressMap, Heaps, Kind};
use os_heap_words::{Class, Region};
use profile::ErrorNumber;

/// The size of an anchor's block.
pub(crate) fn block_size(map: &AddressMap, extent: &Extent, anchor: u32) -> Result<u32, ErrorNumber>
    requires { IsStoreAt map.now extent.now }
    ensures { result ≡ flex_block_size (held_in map.now extent.now) anchor }
{
    let Some(header) = find_header(map, extent, anchor) else {
        return Err(ErrorNumber::FlexBadAnchor);
    };
    Ok(word(map, header + SIZE))
}

/// Cuts a block, or appends zeros to it.
#[tactic(auto, unfolding(crate::specs::Calls::flex_after_extend))]
pub(crate) fn extend_block(
    map: &mut AddressMap,
    extent: &mut Extent,
    anchor: u32,
    size: u32,
) -> Result<bool, ErrorNumber>
    requires { IsStoreAt map.old extent.old }
    ensures state { Gives (held_in map.old extent.old) (flex_after_extend
        (held_in map.old extent.old) anchor size) result
        (held_in map.new extent.new) }
    ensures keeps { KeepsBesidesFlex map.old extent.old map.new extent.new }
{
    let Some(header) = find_header(map, extent, anchor) else {
        return Err(ErrorNumber::FlexBadAnchor);
    };
    let old = word(map, header + SIZE);
    if size == old {
        return Ok(true);
    }
    let splice = Splice {
        at: old,
        cut: old.saturating_sub(size),
        more: size.saturating_sub(old),
    };
    splice_block(map, extent, anchor, header, &splice)
}

/// Puts zeros into a block, or takes bytes out of it.
#[tactic(auto, unfolding(crate::specs::Calls::mid_extended))]
pub(crate) fn mid_extend_block(
    map: &mut AddressMap,
    extent: &mut Extent,
    anchor: u32,
    at: u32,
    by: u32,
) -> Result<bool, ErrorNumber>
    requires { IsStoreAt map.old extent.old }
    ensures state { Gives (held_in map.old extent.old) (mid_extended
        (held_in map.old extent.old) anchor at by) result
        (held_in map.new extent.new) }
    ensures keeps { KeepsBesidesFlex map.old extent.old map.new extent.new }
{
    let cut = cut_of(by);
    if cut > at {
        return Err(ErrorNumber::FlexBadRange);
    }
    let Some(header) = find_header(map, extent, anchor) else {
        return Err(ErrorNumber::FlexBadAnchor);
    };
    if at > word(map, header + SIZE) {
        return Err(ErrorNumber::FlexBadRange);
    }
    if by == 0 {
        return Ok(true);
    }
    let splice = Splice {
        at,
        cut,
        more: more_of(by),
    };
    splice_block(map, extent, anchor, header, &splice)
}

/// How many bytes a change by a signed word takes away.
fn cut_of(by: u32) -> u32
    ensures { result ≡ cut_of by }
{
    if by >= 0x8000_0000 {
        u32::MAX - by + 1
    } else {
        0
    }
}

/// How many bytes a change by a signed word adds.
fn more_of(by: u32) -> u32
    ensures { result ≡ more_of by }
{
    if by >= 0x8000_0000 { 0 } else { by }
}

/// Takes a block away, and makes its anchor 0.
#[tactic(auto, unfolding(crate::specs::Calls::flex_after_release))]
pub(crate) fn release_block(
    map: &mut AddressMap,
    extent: &mut Extent,
    anchor: u32,
) -> Result<(), ErrorNumber>
    requires { IsStoreAt map.old extent.old }
    ensures state { Gives (held_in map.old extent.old)
        (flex_after_release (held_in map.old extent.old) anchor) result
        (held_in map.new extent.new) }
    ensures keeps { KeepsBesidesFlex map.old extent.old map.new extent.new }
{
    let Some(header) = find_header(map, extent, anchor) else {
        return Err(ErrorNumber::FlexBadAnchor);
    };
    let size = word(map, header + SIZE);
    if map.anchor_in(header + HEADER, size) {
        return Err(ErrorNumber::FlexHoldsAnchor);
    }
    map.put_word(anchor, 0);
    remove(map, header, extent.start + extent.used);
    extent.used -= taken(u64::from(size)) as u32;
    Ok(())
}

/// Whether a word is the anchor of a block.
fn is_live(map: &AddressMap, anchor: u32) -> bool
    ensures { result ≡ (anchor % 4 == 0 && is_anchor (class_of map.now anchor)) }
{
    anchor % 4 == 0 && matches!(map.class(anchor), Class::Anchor)
}

/// Where the header of an anchor's block is.
fn find_header(map: &AddressMap, extent: &Extent, anchor: u32) -> Option<u32>
    requires { IsStoreAt map.now extent.now }
    ensures { MatchOption result (find_block anchor (blocks_of map.now extent.now) ≡ None)
        (λ at. IsHeaderOf extent.now.start anchor (blocks_of map.now extent.now) at) }
{
    if !is_live(map, anchor) {
        return None;
    }
    Some(word(map, anchor) - HEADER)
}

/// Changes a block's bytes, where that breaks no anchor and the store has room for it then.
fn splice_block(
    map: &mut AddressMap,
    extent: &mut Extent,
    anchor: u32,
    header: u32,
    splice: &Splice,
) -> Result<bool, ErrorNumber>
    requires store { IsStoreAt map.old extent.old }
    requires place { IsHeaderOf extent.old.start anchor (blocks_of map.old extent.old) header }
    requires splice { IsSplice splice.now (word_at (byte_at map.old) (header + 4)) }
    requires some { 0 < splice.now.cut + splice.now.more }
    ensures state { Gives (held_in map.old extent.old) (spliced_at (held_in map.old extent.old)
        (flex_store_in map.old extent.old)
        anchor (first_at map.old header) splice.now.at splice.now.cut splice.now.more) result
        (held_in map.new extent.new) }
    ensures keeps { KeepsBesidesFlex map.old extent.old map.new extent.new }
{
    let size = word(map, header + SIZE);
    if splice.breaks_anchor(map, header + HEADER, size) {
        return Err(ErrorNumber::FlexHoldsAnchor);
    }
    let others = u64::from(extent.used) - taken(u64::from(size));
    let used = others + taken(splice.size_after(size));
    if u64::from(extent.start) + used > u64::from(extent.end) {
        return Ok(false);
    }
    replace(map, header, splice, extent.start + extent.used);
    extent.used = used as u32;
    Ok(true)
}

/// Makes a block, where its anchor may stand, and no block has it.
pub(crate) fn alloc_block(
    map: &mut AddressMap,
    extent: &mut Extent,
    anchor: u32,
    size: u32,
) -> Result<bool, ErrorNumber>
    requires state { IsFlexMap map.old (Some extent.old) }
    ensures state { Gives (held_in map.old extent.old)
        (flex_after_alloc (store_of map.old) (held_in map.old extent.old) anchor size) result
        (held_in map.new extent.new) }
    ensures keeps { KeepsBesidesFlex map.old extent.old map.new extent.new }
{
    if !may_hold(map, extent, anchor) {
        return Err(ErrorNumber::FlexBadAnchor);
    }
    if is_live(map, anchor) {
        return Err(ErrorNumber::FlexAnchorInUse);
    }
    Ok(append_block(map, extent, anchor, size))
}

/// Whether the word at an address may become an anchor.
fn may_hold(map: &AddressMap, extent: &Extent, anchor: u32) -> bool
    requires { IsFlexMap map.now (Some extent.now) }
    ensures { result ≡ (is_anchor_place (store_of map.now) anchor
        && may_stand (flex_store_in map.now extent.now) anchor) }
{
    if anchor % 4 != 0 {
        return false;
    }
    if !map.maps(anchor, 1) {
        return false;
    }
    if meets_other(map.regions(), anchor) {
        return false;
    }
    let place = Heaps::new().live_payload(map, anchor);
    if place.is_other() {
        return false;
    }
    if !is_met(anchor, extent.start, extent.end - extent.start) {
        return true;
    }
    is_in_contents(map, extent.start, extent.start + extent.used, anchor)
}

/// Whether a word meets a recorded range that is neither a heap nor the flex store.
fn meets_other(regions: &[Region], at: u32) -> bool
    ensures { result ≡ list_any (λ r. not (is_heap_kind r.kind)
        && (not (is_flex_store r.kind) && shares_address at 4 r.at r.len)) regions.now }
{
    for region in regions {
        if is_in_other(region, at) {
            return true;
        }
    }
    false
}

/// Whether a word meets a range, and this is neither a heap nor the flex store.
fn is_in_other(region: &Region, at: u32) -> bool
    ensures { result ≡ (not (is_heap_kind region.now.kind)
        && (not (is_flex_store region.now.kind) && shares_address at 4 region.now.at region.now.len)) }
{
    !region.kind.is_heap()
        && !matches!(region.kind, Kind::FlexStore)
        && is_met(at, region.at, region.len)
}

/// Whether a word meets a range.
fn is_met(at: u32, start: u32, len: u32) -> bool
    ensures { result ≡ shares_address at 4 start len }
{
    let end = u64::from(start) + u64::from(len);
    len > 0 && u64::from(at) < end && u64::from(start) < u64::from(at) + 4
}

/// Makes a block of `size` zeros after all others, where the store has room for it.
fn append_block(map: &mut AddressMap, extent: &mut Extent, anchor: u32, size: u32) -> bool
    requires store { IsStoreAt map.old extent.old }
    requires place { IsNewAnchor map.old extent.old anchor }
    requires free { has_anchor (blocks_of map.old extent.old) anchor ≡ false }
    requires head { is_heap_class (class_of map.old anchor) ≡ false }
    ensures { Fits map.old extent.old (blocks_of map.old extent.old) (new_block anchor size ∷ [])
        result map.new extent.new }
{
    let used = u64::from(extent.used) + taken(u64::from(size));
    if u64::from(extent.start) + used > u64::from(extent.end) {
        return false;
    }
    let header = extent.start + extent.used;
    append(map, header, anchor, size);
    extent.used = used as u32;
    true
}
