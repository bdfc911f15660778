//! The images of modules.

ghost use Rattle.std.specs.Prelude.{◌≡◌, ◌==◌, ◌&&◌};
ghost use Rattle.std.specs.List.{list_any};
ghost use Rattle.instances_table.specs.Images.{last_image};
ghost use Rattle.instances_table.specs.Lookup.{has_image_at};
ghost use Rattle.instances_table.specs.ModuleArea.{is_in_module_area};
ghost use Rattle.instances_table.specs.Table.{Names, modules_of};

use crate::loaded::{Loaded, MOST_INSTANCES, loaded_at, number_of_slot};
use crate::parts::Image;
use crate::table::InstanceTable;
use profile::images::module_header::{RMA_MAXIMUM, RMA_START};

impl InstanceTable {
    /// The image that goes with the instance of a slot, if there is one: its module's, where it has
    /// no other instance.
    ///
    /// RISC OS 3 Programmer's Reference Manual, "OS_Module", reason 4.
    pub fn last_image(&self, slot: u32) -> Option<Image>
        ensures { result ≡ last_image slot self.now }
    {
        image_of_last(self.modules.as_slice(), slot)
    }

    /// Whether the image of a module stands at an address in the module area.
    pub fn has_image_at(&self, at: u32) -> bool
        ensures { result ≡ has_image_at at self.now }
    {
        has_image_at(self.modules.as_slice(), at)
    }
}

fn image_of_last(modules: &[Loaded], slot: u32) -> Option<Image>
    ensures { (names : Names) → result ≡ last_image slot (modules_of names modules.now) }
{
    let number = number_of_slot(modules, slot)?;
    let loaded = loaded_at(modules, number)?;
    if loaded.slots.len() > 1 {
        return None;
    }
    Some(loaded.image)
}

fn has_image_at(modules: &[Loaded], at: u32) -> bool
    ensures { result ≡ list_any (λ l. is_in_module_area l.image.at && l.image.at == at) modules.now }
{
    modules.iter().any(|loaded| is_in_module_area(loaded.image.at) && loaded.image.at == at)
}

/// Whether an address is one of the module area: an image that begins there is a block of it, and
/// any other was inserted in place.
pub fn is_in_module_area(at: u32) -> bool
    ensures { result ≡ is_in_module_area at }
{
    (RMA_START..RMA_START + RMA_MAXIMUM).contains(&at)
}
