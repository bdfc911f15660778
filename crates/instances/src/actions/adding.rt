//! What adds a module or an instance, or gives a new module's image up.

ghost use Rattle.std.specs.Prelude.{List, ◌≡◌, [], ◌∷◌, true};
ghost use Rattle.rma.specs.Areas.{AreaTable};
ghost use Rattle.rma.specs.Ground.{area_store_of};
ghost use Rattle.instances_table.specs.Changes.{is_new};
ghost use Rattle.instances_table.specs.Modules.{Module};
ghost use Rattle.instances.specs.module_state.Sound.{HasSystemPages, IsModuleState};
ghost use Rattle.instances.specs.module_state.ModuleState.{image_gone, with_private, module_state_of};
ghost use Rattle.instances.specs.actions.Actions.{image_given, with_another, with_new};
ghost use Rattle.instances.specs.actions.Asked.{CanInstantiate};
ghost use Rattle.instances.specs.module_state.Kept.{IsSystemMap, StaysSoundWith, KeepsPages, DropsRecords};

use crate::actions::removal::drop_image;
use crate::module_state::put_private;
use arrayvec::ArrayVec;
use instances_table::plans::{Given, Header};
use instances_table::{Image, InstanceTable};
use rma::AddressMap;

/// Adds the new module, the youngest, with its first instance in a slot, whose private word is 0.
///
/// RISC OS 3 Programmer's Reference Manual, "OS_Module", reasons 1, 10 and 11.
pub fn insert(map: &mut AddressMap, table: &mut InstanceTable, given: &Given, slot: u32)
    requires new { is_new given.now.header.title.items slot table.old ≡ true }
    requires system { HasSystemPages map.old }
    ensures area_store { (l : AreaTable) → area_store_of map.new l ≡ with_private (area_store_of map.old l)
        slot 0 }
    ensures modules { table.new ≡ with_new given.now slot table.old }
    ensures kept { KeepsPages map.old map.new ((l : AreaTable)
        → IsModuleState (module_state_of map.old l table.old) (image_given given.now ∷ [])
        → IsModuleState (module_state_of map.new l table.new) []) }
{
    put_private(map, slot, 0);
    table.insert(copied(&given.header), image_given(given), slot);
}

/// Adds an instance of a module that is there, the youngest, in a slot; its private word is 0.
///
/// RISC OS 3 Programmer's Reference Manual, "OS_Module", reason 14.
pub fn instantiate(map: &mut AddressMap, table: &mut InstanceTable, given: &Given, slot: u32)
    requires can { CanInstantiate given.now table.old slot }
    requires system { HasSystemPages map.old }
    ensures area_store { (l : AreaTable) → area_store_of map.new l ≡ with_private (area_store_of map.old l)
        slot 0 }
    ensures modules { table.new ≡ with_another given.now slot table.old }
    ensures kept { KeepsPages map.old map.new (StaysSoundWith map.old map.new table.old table.new) }
{
    put_private(map, slot, 0);
    table.add_to(given.header.title.as_slice(), given.name.as_slice(), slot);
}

/// Gives the new module's image up: its record goes, and its block where it has one.
///
/// RISC OS 3 Programmer's Reference Manual, "OS_Module", reasons 1, 10 and 11.
pub fn give_up(map: &mut AddressMap, given: &Given)
    requires state { IsSystemMap map.old }
    ensures area_store { (l : AreaTable) → area_store_of map.new l ≡ image_gone (area_store_of map.old l)
        (image_given given.now) }
    ensures kept { DropsRecords map.old map.new ((l : AreaTable) (modules : List Module)
        → IsModuleState (module_state_of map.old l modules) (image_given given.now ∷ [])
        → IsModuleState (module_state_of map.new l modules) []) }
{
    drop_image(map, image_given(given));
}

fn image_given(given: &Given) -> Image
    ensures { result ≡ image_given given.now }
{
    Image {
        at: given.image,
        len: given.len,
    }
}

fn copied(header: &Header) -> Header
    ensures { result ≡ header.now }
{
    let mut title = ArrayVec::new();
    title
        .try_extend_from_slice(header.title.as_slice())
        .unwrap();
    Header {
        title,
        start: header.start,
        initialise: header.initialise,
        finalise: header.finalise,
        chunk: header.chunk,
        handler: header.handler,
    }
}
