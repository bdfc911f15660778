//! What takes instances away, and what they held.

ghost use Rattle.std.specs.Prelude.{◌≡◌, ◌<◌};
ghost use Rattle.rma.specs.Areas.{AreaTable};
ghost use Rattle.rma.specs.Ground.{IsAreaStore, area_store_of};
ghost use Rattle.instances.specs.module_state.ModuleState.{image_gone, private_freed, module_state_after_remove, module_state_of};
ghost use Rattle.instances.specs.module_state.Kept.{IsSystemMap, StaysSoundWith, DropsRecords, DropsHeaps};

use crate::module_state::{private_value, put_private};
use instances_table::{Image, InstanceTable, is_in_module_area};
use rma::{AddressMap, Rma};

/// Removes the instance of a slot: the block that its private word names is given back, the word is
/// 0 then, and the instance is gone; with the last one of a module its image goes.
///
/// RISC OS 3 Programmer's Reference Manual, "OS_Module", reason 4.
pub fn remove(map: &mut AddressMap, table: &mut InstanceTable, slot: u32)
    requires below { slot < 64 }
    requires state { IsSystemMap map.old }
    ensures module_state { (l : AreaTable) → module_state_of map.new l table.new ≡ module_state_after_remove
        (module_state_of map.old l table.old) slot }
    ensures kept { DropsRecords map.old map.new (StaysSoundWith map.old map.new table.old table.new) }
{
    free_private(map, slot);
    let image = table.last_image(slot);
    table.remove(slot);
    if let Some(image) = image {
        drop_image(map, image);
    }
}

/// Gives the block back that the private word of a slot names, with the heaps that lie in it, and
/// makes the word 0. What is not a block of the module area, is a module's image, or holds an
/// anchor of the flex store, stays as it is.
///
/// RISC OS 3 Programmer's Reference Manual, "Modules", "Finalisation entry point".
pub fn free_private(map: &mut AddressMap, slot: u32)
    requires below { slot < 64 }
    requires state { IsSystemMap map.old }
    ensures area_store { (l : AreaTable) → area_store_of map.new l ≡ private_freed (area_store_of map.old l)
        slot }
    ensures kept { DropsHeaps map.old map.new }
{
    let block = private_value(map, slot);
    // What can't be given back isn't the instance's, and the removal goes on.
    let _ = Rma::new().free(map, block);
    put_private(map, slot, 0);
}

/// Takes an image's record away, and gives its block back where it has one.
pub(crate) fn drop_image(map: &mut AddressMap, image: Image)
    requires state { IsSystemMap map.old }
    ensures area_store { (l : AreaTable) → area_store_of map.new l ≡ image_gone (area_store_of map.old l)
        image }
    ensures kept { DropsRecords map.old map.new ((l : AreaTable)
        → IsAreaStore (area_store_of map.old l) → IsAreaStore (area_store_of map.new l)) }
{
    if is_in_module_area(image.at) {
        Rma::new().free_image(map, image.at);
    } else {
        Rma::new().drop_image(map, image.at);
    }
}
