//! OS_Module 13: a block gets another size, and the area grows where that is needed.

ghost use Rattle.dynamic_areas.specs.MemoryMap.{module_area_start};
ghost use Rattle.std.specs.Prelude.{◌≡◌, ◌<◌, ◌+◌, ◌^◌, true, is_ok, if◌then◌else◌};
ghost use Rattle.dynamic_areas.specs.Outcome.{Gives};
ghost use Rattle.dynamic_areas.specs.ErrorNumber.TheVariants.{RmaBlockHoldsHeap, RmaNoRoom};
ghost use Rattle.dynamic_areas.specs.Calls.{block_sized, store_after_resize};
ghost use Rattle.dynamic_areas.specs.Store.{store_of, IsSound};
ghost use Rattle.dynamic_areas.specs.Ground.{area_store_of, IsAreaStore};
ghost use Rattle.rma.specs.Calls.{block_holds, end_if_moved, end_in_place, grown_in_place, grown_to, in_grown_area, is_full, rma_base, rma_extended, total_changed};
ghost use Rattle.dynamic_areas.specs.Kept.{IsAreaMap};
ghost use Rattle.rma.specs.Kept.{KeepsRecords, LosesInnerHeaps};

use crate::area::Rma;
use crate::errors::{is_no_room, rma_error};
use crate::growth::{can_grow_to, grow_to};
use dynamic_areas::{AddressMap, Areas, ErrorNumber, Heaps, RMA_START, changed_by, round_up_8};

impl Rma {
    /// Changes the size of a block by `change` bytes, a signed word in two's complement, and
    /// answers the address of its first byte then; or 0 where no byte is left, and the block is
    /// given back. The block stays where it is if there is room; for the last block the area grows,
    /// if it can. Else it moves to a block that is claimed as `claim` does, and takes its bytes
    /// along. The heaps of which bytes are freed or cut off are forgotten, and those that lie in
    /// them.
    ///
    /// # Errors
    ///
    /// The first of these, and nothing is changed then: `RmaNotABlock` where no block's bytes begin
    /// at `block`, or they are a module image; `RmaHoldsAnchor` where an anchor of the flex store
    /// lies in what is freed, cut off or moved; `RmaNoRoom` where it must move, and nothing fits,
    /// and the pool or the maximum does not allow the growth that would do; `RmaBlockHoldsHeap`
    /// where it must move, and a heap lies in it.
    ///
    /// RISC OS 3 Programmer's Reference Manual, "OS_Module", reason 13.
    pub fn extend(
        &self,
        map: &mut AddressMap,
        areas: &mut Areas,
        block: u32,
        change: u32,
    ) -> Result<u32, ErrorNumber>
        requires state { IsAreaMap map.old areas.old }
        ensures extended { Gives (area_store_of map.old areas.old)
            (rma_extended (area_store_of map.old areas.old) block change) result
            (area_store_of map.new areas.new) }
        ensures kept { LosesInnerHeaps map.old map.new areas.old areas.new }
    {
        grow_in_place(map, areas, block, change);
        match Heaps::new().resize(map, RMA_START, block, change).answer {
            Ok(new) => Ok(new),
            Err(error) if is_no_room(error) => move_grown(map, areas, block, change),
            Err(error) => Err(rma_error(error)),
        }
    }
}

/// Grows the area for a change of its last block, where that needs it and can have it.
fn grow_in_place(map: &mut AddressMap, areas: &mut Areas, block: u32, change: u32)
    requires state { IsAreaMap map.old areas.old }
    ensures grown { area_store_of map.new areas.new ≡ grown_in_place (area_store_of map.old areas.old) block
        change }
    ensures kept { KeepsRecords map.old map.new areas.old areas.new }
{
    let end = end_in_place(map, block, change);
    let _ = grow_to(map, areas, end);
}

/// Moves a block that found no room, once the area is grown. One in which a heap lies is not moved,
/// and the area does not grow for it.
fn move_grown(
    map: &mut AddressMap,
    areas: &mut Areas,
    block: u32,
    change: u32,
) -> Result<u32, ErrorNumber>
    requires state { IsAreaMap map.old areas.old }
    requires full { is_full (store_after_resize (store_of map.old) module_area_start block change) ≡ true }
    requires tried { grown_in_place (area_store_of map.old areas.old) block change ≡ area_store_of map.old
        areas.old }
    ensures moved { Gives (area_store_of map.old areas.old)
        (in_grown_area (area_store_of map.old areas.old)
        (end_if_moved (rma_base (store_of map.old)) change
        (block_sized (store_of map.old) module_area_start block))
        (λ s. store_after_resize s module_area_start block change)) result (area_store_of map.new areas.new) }
    ensures kept { LosesInnerHeaps map.old map.new areas.old areas.new }
{
    let end = end_if_moved(map, block, change);
    if holds_heap(map, block) {
        return Err(why_unmoved(map, areas, end));
    }
    grow_to(map, areas, end)?;
    match Heaps::new().resize(map, RMA_START, block, change).answer {
        Ok(new) => Ok(new),
        Err(error) => Err(rma_error(error)),
    }
}

/// Whether a heap lies in a block of the module area.
fn holds_heap(map: &AddressMap, block: u32) -> bool
    requires { IsSound (store_of map.now) }
    ensures { result ≡ block_holds (store_of map.now) block
        (block_sized (store_of map.now) module_area_start block) }
{
    let heaps = Heaps::new();
    match heaps.block_size(map, RMA_START, block).answer {
        Ok(size) => heaps.holds_heap(map, block, size),
        Err(_) => false,
    }
}

/// Why a block in which a heap lies is not moved: because of that heap, where the area could grow
/// for it.
fn why_unmoved(map: &AddressMap, areas: &Areas, end: u64) -> ErrorNumber
    requires { IsAreaStore (area_store_of map.now areas.now) }
    ensures { result
        ≡ (if is_ok (grown_to (area_store_of map.now areas.now) end) then RmaBlockHoldsHeap else RmaNoRoom) }
{
    if can_grow_to(map, areas, end) {
        ErrorNumber::RmaBlockHoldsHeap
    } else {
        ErrorNumber::RmaNoRoom
    }
}

/// Where the heap would have to end for a change of its last block; 0 where the block is another,
/// or none.
fn end_in_place(map: &AddressMap, block: u32, change: u32) -> u64
    requires { IsSound (store_of map.now) }
    ensures { result ≡ end_in_place (rma_base (store_of map.now)) block change
        (block_sized (store_of map.now) module_area_start block) }
{
    let base = Heaps::new().base(map, RMA_START);
    match Heaps::new().block_size(map, RMA_START, block).answer {
        Ok(size) if block + size == RMA_START + base => {
            u64::from(base) + total_changed(size, change) - u64::from(size + 4)
        }
        _ => 0,
    }
}

/// Where the heap would have to end for a changed block at its base; 0 where there is none.
fn end_if_moved(map: &AddressMap, block: u32, change: u32) -> u64
    requires { IsSound (store_of map.now) }
    ensures { result ≡ end_if_moved (rma_base (store_of map.now)) change
        (block_sized (store_of map.now) module_area_start block) }
{
    let base = Heaps::new().base(map, RMA_START);
    match Heaps::new().block_size(map, RMA_START, block).answer {
        Ok(size) => u64::from(base) + total_changed(size, change),
        Err(_) => 0,
    }
}

/// The total of a block that holds `size` bytes, after a change.
fn total_changed(size: u32, change: u32) -> u64
    requires { size + 4 < 2 ^ 32 }
    ensures { result ≡ total_changed size change }
{
    round_up_8(changed_by(size + 4, change))
}
