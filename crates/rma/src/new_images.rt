//! New module images in the module area, made of given bytes or copied from memory.

ghost use Rattle.std.specs.Prelude.{◌≡◌, ◌-◌, ◌%◌, ◌≤◌, ◌<◌, ◌++◌, ◌∷◌, [], false, true, length, IfOk, MatchResult};
ghost use Rattle.dynamic_areas.specs.MemoryMap.{module_area_maximum, module_area_start};
ghost use Rattle.dynamic_areas.specs.Outcome.{Gives};
ghost use Rattle.dynamic_areas.specs.Bytes.{in_range, AreMapped};
ghost use Rattle.dynamic_areas.specs.Memory.{is_mapped};
ghost use Rattle.dynamic_areas.specs.OsHeapWordsLists.{total_for};
ghost use Rattle.dynamic_areas.specs.Calls.{store_after_copy};
ghost use Rattle.dynamic_areas.specs.Forgetting.{holds_heap};
ghost use Rattle.dynamic_areas.specs.Kind.TheVariants.{Image};
ghost use Rattle.dynamic_areas.specs.Order.{AddsRecord, KeepsOrder};
ghost use Rattle.dynamic_areas.specs.Store.{store_of, IsSound, has_image};
ghost use Rattle.dynamic_areas.specs.Ground.{area_store_of};
ghost use Rattle.rma.specs.flex_frame.Keeping.{is_in_record, RangeHasNoAnchor};
ghost use Rattle.rma.specs.NewImages.{store_with_image_bytes, image_copied, image_made, image_record, IsLiveBlock};
ghost use Rattle.dynamic_areas.specs.Kept.{IsAreaMap};
ghost use Rattle.rma.specs.Kept.{KeepsAreas, KeepsBlock};

use crate::area::Rma;
use dynamic_areas::{AddressMap, Areas, ErrorNumber, RMA_MAXIMUM};

impl Rma {
    /// Makes a module image of these bytes: claims a block, as `claim` does, puts the bytes there,
    /// and records the block as an image. The answer is the address of the first byte.
    ///
    /// # Errors
    ///
    /// As `claim`. Nothing is changed then.
    ///
    /// RISC OS 3 Programmer's Reference Manual, "OS_Module", reason 1.
    #[tactic(auto, unfolding(crate::specs::NewImages::image_made))]
    pub fn make_image(
        &self,
        map: &mut AddressMap,
        areas: &mut Areas,
        image: &[u8],
    ) -> Result<u32, ErrorNumber>
        requires state { IsAreaMap map.old areas.old }
        requires room { length (store_of map.old).others < 68 }
        ensures made { Gives (area_store_of map.old areas.old)
            (image_made (area_store_of map.old areas.old) image.now) result
            (area_store_of map.new areas.new) }
        ensures kept { KeepsAreas map.old map.new areas.old areas.new }
        ensures whole { IfOk result (λ block. block % 4 ≡ 0) }
        ensures inside { IfOk result (λ block. in_range module_area_start module_area_maximum block ≡ true) }
        ensures alone { IfOk result (λ block. is_in_record (store_of map.old).others block ≡ false) }
        ensures others { IfOk result (λ block. has_image block (store_of map.old).others ≡ false
            → (store_of map.new).others ≡ (store_of map.old).others ++ image_record block (length image.now)
            ∷ []) }
        ensures order { MatchResult result
            (λ block. has_image block (store_of map.old).others ≡ false →
            AddsRecord map.old map.new Image block)
            (λ _. KeepsOrder map.old map.new) }
        ensures fits { IfOk result (λ block. length image.now ≤ 4194304) }
    {
        if image.len() > RMA_MAXIMUM as usize {
            return Err(ErrorNumber::RmaNoRoom);
        }
        let block = self.claim(map, areas, image.len() as u32)?;
        fill(map, block, image);
        self.record_image(map, block);
        Ok(block)
    }

    /// Makes a module image of the `len` bytes from an address on, all mapped and none of them in
    /// free room of the module area, as `make_image` makes one of bytes that are given.
    ///
    /// # Errors
    ///
    /// As `claim`. Nothing is changed then.
    ///
    /// RISC OS 3 Programmer's Reference Manual, "OS_Module", reason 11.
    #[tactic(auto, unfolding(crate::specs::NewImages::image_copied))]
    pub fn copy_image(
        &self,
        map: &mut AddressMap,
        areas: &mut Areas,
        from: u32,
        len: u32,
    ) -> Result<u32, ErrorNumber>
        requires state { IsAreaMap map.old areas.old }
        requires room { length (store_of map.old).others < 68 }
        requires source { AreMapped (is_mapped map.old) from len }
        ensures made { Gives (area_store_of map.old areas.old)
            (image_copied (area_store_of map.old areas.old) from len) result
            (area_store_of map.new areas.new) }
        ensures kept { KeepsAreas map.old map.new areas.old areas.new }
        ensures whole { IfOk result (λ block. block % 4 ≡ 0) }
        ensures inside { IfOk result (λ block. in_range module_area_start module_area_maximum block ≡ true) }
        ensures alone { IfOk result (λ block. is_in_record (store_of map.old).others block ≡ false) }
        ensures others { IfOk result (λ block. has_image block (store_of map.old).others ≡ false
            → (store_of map.new).others ≡ (store_of map.old).others ++ image_record block len ∷ []) }
        ensures order { MatchResult result
            (λ block. has_image block (store_of map.old).others ≡ false →
            AddsRecord map.old map.new Image block)
            (λ _. KeepsOrder map.old map.new) }
    {
        let block = self.claim(map, areas, len)?;
        fill_from(map, block, from, len);
        self.record_image(map, block);
        Ok(block)
    }
}

/// Puts bytes into a live block.
fn fill(map: &mut AddressMap, block: u32, bytes: &[u8])
    requires sound { IsSound (store_of map.old) }
    requires live { IsLiveBlock (store_of map.old) block (total_for (length bytes.now)) }
    requires unheaped { holds_heap (store_of map.old).heaps block (total_for (length bytes.now) - 4) ≡ false }
    requires unanchored { RangeHasNoAnchor (store_of map.old) block (total_for (length bytes.now) - 4) }
    ensures store { store_of map.new ≡ store_with_image_bytes (store_of map.old) block bytes.now }
    ensures kept { KeepsBlock map.old map.new block (total_for (length bytes.now) - 4) }
{
    map.put_bytes(block, bytes);
}

/// Copies bytes of memory into a live block.
fn fill_from(map: &mut AddressMap, block: u32, from: u32, len: u32)
    requires sound { IsSound (store_of map.old) }
    requires live { IsLiveBlock (store_of map.old) block (total_for len) }
    requires unheaped { holds_heap (store_of map.old).heaps block (total_for len - 4) ≡ false }
    requires unanchored { RangeHasNoAnchor (store_of map.old) block (total_for len - 4) }
    requires source { AreMapped (is_mapped map.old) from len }
    ensures store { store_of map.new ≡ store_after_copy (store_of map.old) from block len }
    ensures kept { KeepsBlock map.old map.new block (total_for len - 4) }
{
    map.move_bytes(from, block, len);
}
