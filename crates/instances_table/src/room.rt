//! Where new instances find room.
ghost use Rattle.std.specs.Prelude.{◌≡◌, ◌≤◌, ◌<◌, false, IfOk, IfSome, length};
ghost use Rattle.instances_table.specs.Modules.{AreModules, slots_of};
ghost use Rattle.instances_table.specs.Changes.{free_slot_for, instance_room, is_slot_held, modules_of_title, titled_otherwise, IsRoomFor};

use crate::loaded::{MOST_INSTANCES, is_held_beside, slots_of_title};
use crate::names::{FullName, is_instance_name, name_of};
use crate::parts::NewInstance;
use crate::table::InstanceTable;
use arrayvec::ArrayVec;
use profile::images::module_header::ErrorNumber;

impl InstanceTable {
    /// Where a new instance of a module, `Title%Name`, is to go: it takes the lowest free slot.
    ///
    /// # Errors
    ///
    /// The first of these: `BadString` where the full name has no `%`, or the name after it isn't
    /// formed like a title; `ModuleNotFound` where there is no module of the title;
    /// `InstanceExists` where the module has an instance of the name; `InstanceTableFull` where no
    /// slot is free.
    ///
    /// RISC OS 3 Programmer's Reference Manual, "OS_Module", reason 14.
    pub fn room_for(&self, full: &[u8]) -> Result<NewInstance, ErrorNumber>
        ensures value { result ≡ instance_room self.now full.now }
        ensures room { IfOk result (λ new. IsRoomFor new self.now) }
    {
        let full = FullName::of(full);
        let name = full.name.ok_or(ErrorNumber::BadString)?;
        if !is_instance_name(name) {
            return Err(ErrorNumber::BadString);
        }
        let number = self
            .number_of_title(full.title)
            .ok_or(ErrorNumber::ModuleNotFound)?;
        if self.is_named(number, name) {
            return Err(ErrorNumber::InstanceExists);
        }
        let slot = self.free_slot().ok_or(ErrorNumber::InstanceTableFull)?;
        Ok(NewInstance {
            number: number as u32,
            name: name_of(name),
            slot,
        })
    }

    /// The slots of the instances of the module of a title, oldest first; none where there is no
    /// such module.
    pub fn slots_of_title(&self, title: &[u8]) -> ArrayVec<u32, MOST_INSTANCES>
        ensures value { result.items ≡ slots_of (modules_of_title title.now self.now) }
        ensures table { AreModules self.now }
    {
        slots_of_title(self.modules.as_slice(), title)
    }

    /// The lowest slot for the first instance of a new module of a title, if there is one. The
    /// slots of an older module of the title count as free.
    pub fn free_slot_for(&self, title: &[u8]) -> Option<u32>
        ensures value { result ≡ free_slot_for title.now self.now }
        ensures below { IfSome result (λ slot. slot < 64) }
        ensures free { IfSome result (λ slot. is_slot_held slot (titled_otherwise title.now self.now)
            ≡ false) }
        ensures few { length self.now ≤ 64 }
    {
        let _ = &self.modules;
        for slot in 0..64 {
            if !self.is_held_beside(title, slot) {
                return Some(slot);
            }
        }
        None
    }

    /// Whether an instance of a module of another title has a slot.
    fn is_held_beside(&self, title: &[u8], slot: u32) -> bool
        ensures { result ≡ is_slot_held slot (titled_otherwise title.now self.now) }
    {
        is_held_beside(self.modules.as_slice(), title, slot)
    }
}
