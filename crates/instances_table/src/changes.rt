//! What changes the modules, wherever their names stand.

ghost use Rattle.std.specs.Prelude.{◌≡◌, ◌<◌, length, slice_index_or};
ghost use Rattle.instances_table.specs.declared.loaded.Loaded.{Loaded};
ghost use Rattle.instances_table.specs.Modules.{changed_at};
ghost use Rattle.instances_table.specs.Changes.{without_instance, with_instance, with_preferred, with_image_at};
ghost use Rattle.instances_table.specs.Table.{Names, modules_of, name_of_slot};

use crate::loaded::{Loaded, MOST_INSTANCES, number_of_slot};
use arrayvec::ArrayVec;

/// Gives the module of a number one instance more, the youngest.
pub(crate) fn push_slot(modules: &mut ArrayVec<Loaded, MOST_INSTANCES>, number: usize, slot: u32)
    requires number { number < length modules.old.items }
    requires room { (d : Loaded) → length (slice_index_or modules.old.items number d).slots.items < 64 }
    ensures { (names : Names)
        → modules_of names modules.new.items
        ≡ changed_at number (with_instance (name_of_slot names slot) slot)
        (modules_of names modules.old.items) }
{
    modules[number].slots.push(slot);
}

/// Makes the instance of a slot the preferred one of the module of a number, if there is one.
pub(crate) fn set_preferred(
    modules: &mut ArrayVec<Loaded, MOST_INSTANCES>,
    number: usize,
    slot: u32,
)
    ensures { (names : Names)
        → modules_of names modules.new.items
        ≡ changed_at number (with_preferred slot) (modules_of names modules.old.items) }
{
    if number < modules.len() {
        modules[number].preferred = slot;
    }
}

/// Gives the image of the module of a number another address, if there is one.
pub(crate) fn set_image(modules: &mut ArrayVec<Loaded, MOST_INSTANCES>, number: usize, at: u32)
    ensures { (names : Names)
        → modules_of names modules.new.items
        ≡ changed_at number (with_image_at at) (modules_of names modules.old.items) }
{
    if number < modules.len() {
        modules[number].image.at = at;
    }
}

/// Takes the instance of a slot out of its module, and the module with its last one.
pub(crate) fn remove_instance(modules: &mut ArrayVec<Loaded, MOST_INSTANCES>, slot: u32)
    ensures { (names : Names)
        → modules_of names modules.new.items ≡ without_instance slot (modules_of names modules.old.items) }
{
    if let Some(number) = number_of_slot(modules.as_slice(), slot) {
        let mut loaded = modules.remove(number);
        loaded.drop_slot(slot);
        if !loaded.slots.is_empty() {
            modules.insert(number, loaded);
        }
    }
}
