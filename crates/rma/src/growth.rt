//! The module area grown so that its heap reaches to an address, if it can.

ghost use Rattle.std.specs.Prelude.{◌≡◌, ◌*◌, is_ok};
ghost use Rattle.dynamic_areas.specs.Outcome.{Leaves};
ghost use Rattle.dynamic_areas.specs.Areas.{find_area};
ghost use Rattle.dynamic_areas.specs.Changing.{pages_had};
ghost use Rattle.dynamic_areas.specs.Ground.{area_store_of, IsAreaStore};
ghost use Rattle.dynamic_areas.specs.Rooms.{IsAreaTable};
ghost use Rattle.rma.specs.Calls.{grown_to};
ghost use Rattle.dynamic_areas.specs.Kept.{IsAreaMap};
ghost use Rattle.rma.specs.Kept.{KeepsRecords};

use dynamic_areas::{AddressMap, Areas, ErrorNumber, MODULE_AREA, PAGE_SIZE, RMA_MAXIMUM};

/// Grows the module area so that its heap reaches to `end`, in bytes from its start: by the fewest
/// pages that suffice, and not at all where it does already.
///
/// # Errors
///
/// `RmaNoRoom` where the pool or the maximum does not allow so much. Nothing is changed then.
pub(crate) fn grow_to(map: &mut AddressMap, areas: &mut Areas, end: u64) -> Result<(), ErrorNumber>
    requires state { IsAreaMap map.old areas.old }
    ensures grown { Leaves (area_store_of map.old areas.old)
        (grown_to (area_store_of map.old areas.old) end) result
        (area_store_of map.new areas.new) }
    ensures kept { KeepsRecords map.old map.new areas.old areas.new }
{
    if !can_grow_to(map, areas, end) {
        return Err(ErrorNumber::RmaNoRoom);
    }
    let size = u64::from(area_size(areas));
    if end > size {
        areas.change(map, MODULE_AREA, (end - size) as u32);
    }
    Ok(())
}

/// Whether the module area can grow so that its heap reaches to `end`, or has that size.
pub(crate) fn can_grow_to(map: &AddressMap, areas: &Areas, end: u64) -> bool
    requires { IsAreaStore (area_store_of map.now areas.now) }
    ensures { result ≡ is_ok (grown_to (area_store_of map.now areas.now) end) }
{
    let size = area_size(areas);
    if end <= u64::from(size) {
        return true;
    }
    if end > u64::from(RMA_MAXIMUM) {
        return false;
    }
    let measured = areas.measure(map, MODULE_AREA, end as u32 - size);
    measured.error.is_none()
}

/// The size of the module area, in bytes.
pub(crate) fn area_size(areas: &Areas) -> u32
    requires { IsAreaTable areas.now.areas }
    ensures { result ≡ 4096 * pages_had (find_area 1 areas.now.areas) }
{
    match areas.info(MODULE_AREA) {
        Ok(area) => PAGE_SIZE * area.pages,
        Err(_) => 0,
    }
}
