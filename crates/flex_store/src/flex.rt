//! The flex store of a machine: where it lies, and the calls on it.

ghost use Rattle.std.specs.Prelude.{◌≡◌, ◌<◌, ◌++◌, ◌∷◌, [], true, false, Some, None, MatchOption, MatchResult, length};
ghost use Rattle.profile.specs.Outcome.{Gives};
ghost use Rattle.os_heap.specs.Store.{store_of};
ghost use Rattle.os_heap.specs.Memory.{is_mapped, regions};
ghost use Rattle.flex_store.specs.Calls.{flex_after_alloc, flex_after_init, flex_after_extend, flex_record, is_flex_range, mid_extended, flex_after_release, flex_block_size};
ghost use Rattle.flex_store.specs.Kept.{IsFlexMap, KeepsLayoutAndHeaps, KeepsMarksAndHeaps};
ghost use Rattle.flex_store.specs.State.{state_of_flex, IsFlex};

use crate::block::{alloc_block, block_size, extend_block, mid_extend_block, release_block};
use os_heap::{AddressMap, Kind};
use profile::ErrorNumber;

/// The range of the flex store, in addresses, and how many bytes of it its blocks take up.
#[derive(Clone, Copy)]
pub(crate) struct Extent {
    pub(crate) start: u32,
    pub(crate) end: u32,
    pub(crate) used: u32,
}

/// The flex store of a machine, none before `init`. Its blocks stand in memory alone, each after
/// its header.
#[derive(Clone, Copy, Default)]
pub struct Flex {
    pub(crate) extent: Option<Extent>,
}

impl Flex {
    /// No flex store, as a machine has at its start.
    pub fn new() -> Flex
        ensures { result.extent ≡ None }
    {
        Flex { extent: None }
    }

    /// Where the store starts and ends, and how many bytes its blocks take up, in bytes; `None`
    /// before `init`.
    pub fn range(&self) -> Option<(u32, u32, u32)>
        ensures { MatchOption result (self.now.extent ≡ None)
            (λ r. self.now.extent ≡ Some (record { start = r.0; end = r.1; used = r.2 })) }
    {
        let extent = self.extent?;
        Some((extent.start, extent.end, extent.used))
    }

    /// The size of an anchor's block, in bytes, without those that fill it up to whole words.
    ///
    /// # Errors
    ///
    /// `FlexNotReady` before `init`; `FlexBadAnchor` where no block has the anchor.
    ///
    /// Acorn C manual, "flex", flex_size.
    #[tactic(auto, unfolding(crate::specs::State::state_of_flex))]
    pub fn size(&self, map: &AddressMap, anchor: u32) -> Result<u32, ErrorNumber>
        requires { IsFlex map.now self.now }
        ensures { result ≡ flex_block_size (state_of_flex map.now self.now) anchor }
    {
        let Some(extent) = self.extent else {
            return Err(ErrorNumber::FlexNotReady);
        };
        block_size(map, &extent, anchor)
    }

    /// Makes the flex store of a range, without blocks.
    ///
    /// # Errors
    ///
    /// The first of these, and nothing is changed then: `FlexAlready` where there is a store;
    /// `FlexBadRange` where the addresses are no multiples of 4, the start is not below the end, or
    /// not all of the range is mapped or it meets a recorded range.
    ///
    /// Acorn C manual, "flex", flex_init; that the caller names the range is this project's own.
    #[tactic(auto, unfolding(crate::specs::State::state_of_flex, crate::specs::Calls::flex_after_init))]
    pub fn init(&mut self, map: &mut AddressMap, start: u32, end: u32) -> Result<(), ErrorNumber>
        requires state { IsFlexMap map.old self.old.extent }
        requires few { length (store_of map.old).others < 68 }
        ensures state { Gives (state_of_flex map.old self.old)
            (flex_after_init (store_of map.old) (state_of_flex map.old self.old) start end) result
            (state_of_flex map.new self.new) }
        ensures regions { MatchResult result
            (λ _. regions map.new ≡ regions map.old ++ flex_record start end ∷ [])
            (λ _. regions map.new ≡ regions map.old) }
        ensures kept { KeepsMarksAndHeaps map.old map.new self.new.extent }
    {
        if self.extent.is_some() {
            return Err(ErrorNumber::FlexAlready);
        }
        if !is_flex_range(map, start, end) {
            return Err(ErrorNumber::FlexBadRange);
        }
        map.own(Kind::FlexStore, start, end - start);
        self.extent = Some(Extent {
            start,
            end,
            used: 0,
        });
        Ok(())
    }

    /// Makes a block of `size` zeros after all others, and writes the address of its bytes to the
    /// anchor. The answer is false, and nothing is changed, where the store has no room for it.
    ///
    /// # Errors
    ///
    /// The first of these, and nothing is changed then: `FlexNotReady` before `init`;
    /// `FlexBadAnchor` where the anchor is no multiple of 4, not mapped, in the store but not among
    /// the bytes of one block, in a system page or in a module image, or inside a heap but not
    /// among the bytes that a live block holds; `FlexAnchorInUse` where a block has it.
    ///
    /// Acorn C manual, "flex", flex_alloc.
    #[tactic(auto, unfolding(crate::specs::State::state_of_flex, crate::specs::Calls::flex_after_alloc), using(crate::proofs::Keeping::keeping))]
    pub fn alloc(
        &mut self,
        map: &mut AddressMap,
        anchor: u32,
        size: u32,
    ) -> Result<bool, ErrorNumber>
        requires state { IsFlexMap map.old self.old.extent }
        ensures state { Gives (state_of_flex map.old self.old)
            (flex_after_alloc (store_of map.old) (state_of_flex map.old self.old) anchor size) result
            (state_of_flex map.new self.new) }
        ensures kept { KeepsLayoutAndHeaps map.old map.new self.new.extent }
    {
        let Some(mut extent) = self.extent else {
            return Err(ErrorNumber::FlexNotReady);
        };
        let answer = alloc_block(map, &mut extent, anchor, size);
        self.extent = Some(extent);
        answer
    }

    /// Takes an anchor's block away, and makes its anchor 0. The blocks after it slide down, their
    /// anchors follow, and anchors that lie in them slide with them.
    ///
    /// # Errors
    ///
    /// `FlexNotReady` before `init`; `FlexBadAnchor` where no block has the anchor;
    /// `FlexHoldsAnchor` where one of its bytes is an anchor's. Nothing is changed then.
    ///
    /// Acorn C manual, "flex", flex_free.
    #[tactic(auto, unfolding(crate::specs::State::state_of_flex, crate::specs::Calls::flex_after_release), using(crate::proofs::Keeping::keeping))]
    pub fn release(&mut self, map: &mut AddressMap, anchor: u32) -> Result<(), ErrorNumber>
        requires state { IsFlexMap map.old self.old.extent }
        ensures state { Gives (state_of_flex map.old self.old)
            (flex_after_release (state_of_flex map.old self.old) anchor) result
            (state_of_flex map.new self.new) }
        ensures kept { KeepsLayoutAndHeaps map.old map.new self.new.extent }
    {
        let Some(mut extent) = self.extent else {
            return Err(ErrorNumber::FlexNotReady);
        };
        let answer = release_block(map, &mut extent, anchor);
        self.extent = Some(extent);
        answer
    }

    /// Gives an anchor's block another size: bytes at its end go, or zeros come there. The answer
    /// is false, and nothing is changed, where the store has no room for it. A block whose size
    /// stays is as it was, with the bytes that fill it up to whole words.
    ///
    /// # Errors
    ///
    /// `FlexNotReady` before `init`; `FlexBadAnchor` where no block has the anchor;
    /// `FlexHoldsAnchor` where a byte that is to go is an anchor's, whether there is room or not.
    /// Nothing is changed then.
    ///
    /// Acorn C manual, "flex", flex_extend.
    #[tactic(auto, unfolding(crate::specs::State::state_of_flex, crate::specs::Calls::flex_after_extend), using(crate::proofs::Keeping::keeping))]
    pub fn extend(
        &mut self,
        map: &mut AddressMap,
        anchor: u32,
        size: u32,
    ) -> Result<bool, ErrorNumber>
        requires state { IsFlexMap map.old self.old.extent }
        ensures state { Gives (state_of_flex map.old self.old)
            (flex_after_extend (state_of_flex map.old self.old) anchor size) result
            (state_of_flex map.new self.new) }
        ensures kept { KeepsLayoutAndHeaps map.old map.new self.new.extent }
    {
        let Some(mut extent) = self.extent else {
            return Err(ErrorNumber::FlexNotReady);
        };
        let answer = extend_block(map, &mut extent, anchor, size);
        self.extent = Some(extent);
        answer
    }

    /// Puts `by` zeros into an anchor's block before its byte `at`, or takes as many bytes before
    /// that one away where `by`, a signed word in two's complement, is below 0. The answer is
    /// false, and nothing is changed, where the store has no room for it; a `by` of 0 changes
    /// nothing.
    ///
    /// # Errors
    ///
    /// The first of these, and nothing is changed then: `FlexNotReady` before `init`;
    /// `FlexBadRange` where more bytes would go than stand before `at`; `FlexBadAnchor` where no
    /// block has the anchor; `FlexBadRange` where `at` is past the block's size; `FlexHoldsAnchor`
    /// where a byte that is to go is an anchor's, where zeros would come inside one, or where one
    /// would move by other than whole words, whether there is room or not.
    ///
    /// Acorn C manual, "flex", flex_midextend.
    #[tactic(auto, unfolding(crate::specs::State::state_of_flex, crate::specs::Calls::mid_extended), using(crate::proofs::Keeping::keeping))]
    pub fn mid_extend(
        &mut self,
        map: &mut AddressMap,
        anchor: u32,
        at: u32,
        by: u32,
    ) -> Result<bool, ErrorNumber>
        requires state { IsFlexMap map.old self.old.extent }
        ensures state { Gives (state_of_flex map.old self.old)
            (mid_extended (state_of_flex map.old self.old) anchor at by) result
            (state_of_flex map.new self.new) }
        ensures kept { KeepsLayoutAndHeaps map.old map.new self.new.extent }
    {
        let Some(mut extent) = self.extent else {
            return Err(ErrorNumber::FlexNotReady);
        };
        let answer = mid_extend_block(map, &mut extent, anchor, at, by);
        self.extent = Some(extent);
        answer
    }
}

/// Whether the flex store may be made of a range: of whole words, mapped, and meeting no heap and
/// no other recorded range.
#[tactic(auto, unfolding(crate::specs::Calls::is_flex_range))]
fn is_flex_range(map: &AddressMap, start: u32, end: u32) -> bool
    ensures { result ≡ is_flex_range (store_of map.now) start end }
{
    if start % 4 != 0 || end % 4 != 0 || start >= end {
        return false;
    }
    let len = end - start;
    if !map.maps(start, len) {
        return false;
    }
    !map.meets_record(start, len)
}
