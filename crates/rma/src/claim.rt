//! OS_Module 6: a block is claimed, and the area grows where no room is left.

ghost use Rattle.std.specs.Prelude.{◌≡◌, ◌+◌, ◌-◌, false, true, IfOk};
ghost use Rattle.dynamic_areas.specs.MemoryMap.{module_area_maximum, module_area_start};
ghost use Rattle.dynamic_areas.specs.Outcome.{Gives};
ghost use Rattle.dynamic_areas.specs.Bytes.{in_range};
ghost use Rattle.dynamic_areas.specs.OsHeapWordsLists.{total_for};
ghost use Rattle.dynamic_areas.specs.Calls.{store_after_get};
ghost use Rattle.dynamic_areas.specs.Forgetting.{holds_heap};
ghost use Rattle.dynamic_areas.specs.Store.{store_of};
ghost use Rattle.dynamic_areas.specs.Ground.{area_store_of};
ghost use Rattle.rma.specs.flex_frame.Keeping.{is_in_record, RangeHasNoAnchor};
ghost use Rattle.rma.specs.Calls.{in_grown_area, rma_base, rma_claimed};
ghost use Rattle.rma.specs.NewImages.{IsLiveBlock};
ghost use Rattle.dynamic_areas.specs.Kept.{IsAreaMap};
ghost use Rattle.rma.specs.Kept.{KeepsRecords};

use crate::area::Rma;
use crate::errors::{is_no_room, rma_error};
use crate::growth::grow_to;
use dynamic_areas::{AddressMap, Areas, ErrorNumber, Heaps, RMA_START, total_for};

impl Rma {
    /// Claims a block of `size` bytes, and answers the address of its first byte: in free room of
    /// the module area, or at the end of its last block, for which the area grows by the fewest
    /// pages that suffice.
    ///
    /// # Errors
    ///
    /// `RmaNoRoom` where nothing fits, and the pool or the maximum does not allow that growth.
    /// Nothing is changed then.
    ///
    /// RISC OS 3 Programmer's Reference Manual, "OS_Module", reason 6.
    pub fn claim(
        &self,
        map: &mut AddressMap,
        areas: &mut Areas,
        size: u32,
    ) -> Result<u32, ErrorNumber>
        requires state { IsAreaMap map.old areas.old }
        ensures claimed { Gives (area_store_of map.old areas.old)
            (rma_claimed (area_store_of map.old areas.old) size) result
            (area_store_of map.new areas.new) }
        ensures kept { KeepsRecords map.old map.new areas.old areas.new }
        ensures live { IfOk result (λ block. IsLiveBlock (store_of map.new) block (total_for size)) }
        ensures unheaped { IfOk result (λ block. holds_heap (store_of map.new).heaps block
            (total_for size - 4) ≡ false) }
        ensures inside { IfOk result (λ block. in_range module_area_start module_area_maximum block ≡ true) }
        ensures alone { IfOk result (λ block. is_in_record (store_of map.old).others block ≡ false) }
        ensures unanchored { IfOk result (λ block. RangeHasNoAnchor (store_of map.new) block
            (total_for size - 4)) }
    {
        match Heaps::new().get(map, RMA_START, size).answer {
            Ok(block) => Ok(block),
            Err(error) if is_no_room(error) => claim_grown(map, areas, size),
            Err(error) => Err(rma_error(error)),
        }
    }
}

/// Claims a block where no room is left, once the area is grown.
fn claim_grown(map: &mut AddressMap, areas: &mut Areas, size: u32) -> Result<u32, ErrorNumber>
    requires state { IsAreaMap map.old areas.old }
    ensures claimed { Gives (area_store_of map.old areas.old)
        (in_grown_area (area_store_of map.old areas.old) (rma_base (store_of map.old) + total_for size)
        (λ s. store_after_get s module_area_start size)) result (area_store_of map.new areas.new) }
    ensures kept { KeepsRecords map.old map.new areas.old areas.new }
    ensures live { IfOk result (λ block. IsLiveBlock (store_of map.new) block (total_for size)) }
    ensures unheaped { IfOk result (λ block. holds_heap (store_of map.new).heaps block (total_for size - 4)
        ≡ false) }
    ensures inside { IfOk result (λ block. in_range module_area_start module_area_maximum block ≡ true) }
    ensures alone { IfOk result (λ block. is_in_record (store_of map.old).others block ≡ false) }
    ensures unanchored { IfOk result (λ block. RangeHasNoAnchor (store_of map.new) block
        (total_for size - 4)) }
{
    let heaps = Heaps::new();
    let end = u64::from(heaps.base(map, RMA_START)) + total_for(size);
    grow_to(map, areas, end)?;
    match heaps.get(map, RMA_START, size).answer {
        Ok(block) => Ok(block),
        Err(error) => Err(rma_error(error)),
    }
}
