//! What changes the table.
ghost use Rattle.std.specs.Prelude.{◌≡◌, ◌<◌, ◌≤◌, [], ◌∷◌, ◌++◌, true, false, length, slice_get, IfSome};
ghost use Rattle.std.specs.List.{list_any};
ghost use Rattle.profile.specs.Outcome.{Gives, Leaves};
ghost use Rattle.instances_table.specs.Modules.{has_title, changed_at};
ghost use Rattle.instances_table.specs.Changes.{is_slot_held, free_slot, module_has_slot, is_named, is_new, with_module, new_module, with_instance, modules_after_instantiate, modules_with_names, modules_after_rename, with_preferred, preferring, without_instance, with_image_at};

use crate::changes::{push_slot, remove_instance, set_image, set_preferred};
use crate::loaded::{has_title, is_held, is_named, loaded_at, new_module};
use crate::names::{FullName, is_instance_name, name_of};
use crate::parts::Image;
use crate::table::InstanceTable;
use profile::images::module_header::{ErrorNumber, Header};

impl InstanceTable {
    /// Whether an instance has a slot.
    pub(crate) fn is_held(&self, slot: u32) -> bool
        ensures { result ≡ is_slot_held slot self.now }
    {
        is_held(self.modules.as_slice(), slot)
    }

    /// The lowest slot that no instance has, if there is one.
    pub fn free_slot(&self) -> Option<u32>
        ensures value { result ≡ free_slot self.now }
        ensures below { IfSome result (λ slot. slot < 64) }
        ensures free { IfSome result (λ slot. is_slot_held slot self.now ≡ false) }
    {
        for slot in 0..64 {
            if !self.is_held(slot) {
                return Some(slot);
            }
        }
        None
    }

    /// Puts a new module in, the youngest, with its first instance, `Base`, which is preferred.
    /// Nothing is done, and the answer is no, where a module of its title is there, or where the
    /// slot isn't free.
    pub fn insert(&mut self, header: Header, image: Image, slot: u32) -> bool
        ensures table { self.new ≡ with_module self.old header image slot }
        ensures value { result ≡ is_new header.title.items slot self.old }
    {
        let is_new = self.is_new(header.title.as_slice(), slot);
        if is_new {
            self.push_module(header, image, slot);
        }
        is_new
    }

    fn is_new(&self, title: &[u8], slot: u32) -> bool
        ensures { result ≡ is_new title.now slot self.now }
    {
        slot < 64 && !self.is_held(slot) && !self.has_title(title)
    }

    fn has_title(&self, title: &[u8]) -> bool
        ensures { result ≡ list_any (has_title title.now) self.now }
    {
        has_title(self.modules.as_slice(), title)
    }

    fn push_module(&mut self, header: Header, image: Image, slot: u32)
        requires { is_new header.title.items slot self.old ≡ true }
        ensures { self.new ≡ self.old ++ new_module header image slot ∷ [] }
    {
        self.names[slot as usize] = name_of(b"Base");
        self.modules.push(new_module(header, image, slot));
    }

    /// Makes a new instance of a module, `Title%Name`, the youngest. It takes the lowest free slot,
    /// which is the answer.
    ///
    /// # Errors
    ///
    /// The first of these, and nothing is changed then: `BadString` where the full name has no `%`,
    /// or the name after it isn't formed like a title; `ModuleNotFound` where there is no module of
    /// the title; `InstanceExists` where the module has an instance of the name;
    /// `InstanceTableFull` where no slot is free.
    ///
    /// RISC OS 3 Programmer's Reference Manual, "OS_Module", reason 14.
    pub fn instantiate(&mut self, full: &[u8]) -> Result<u32, ErrorNumber>
        ensures { Gives self.old (modules_after_instantiate self.old full.now) result self.new }
    {
        let new = self.room_for(full)?;
        self.add_instance(new.number as usize, new.name.as_slice(), new.slot);
        Ok(new.slot)
    }

    /// Whether the module of a number has an instance of a name.
    pub(crate) fn is_named(&self, number: usize, name: &[u8]) -> bool
        ensures { result ≡ is_named name.now (slice_get self.now number) }
    {
        match loaded_at(self.modules.as_slice(), number) {
            Some(loaded) => is_named(&self.names, loaded.slots.as_slice(), name),
            None => false,
        }
    }

    pub(crate) fn add_instance(&mut self, number: usize, name: &[u8], slot: u32)
        requires number { number < length self.old }
        requires below { slot < 64 }
        requires free { is_slot_held slot self.old ≡ false }
        requires formed { length name.now ≤ 31 }
        requires unnamed { is_named name.now (slice_get self.old number) ≡ false }
        ensures { self.new ≡ changed_at number (with_instance name.now slot) self.old }
    {
        self.names[slot as usize] = name_of(name);
        push_slot(&mut self.modules, number, slot);
    }

    /// Gives an instance, `Title%Name`, another name.
    ///
    /// # Errors
    ///
    /// The first of these, and nothing is changed then: `BadString` where the full name has no `%`,
    /// or the new name isn't formed like a title; `ModuleNotFound` where there is no such instance;
    /// `InstanceExists` where an instance of the module has the new name, this one included.
    ///
    /// RISC OS 3 Programmer's Reference Manual, "OS_Module", reason 15.
    pub fn rename(&mut self, full: &[u8], new: &[u8]) -> Result<(), ErrorNumber>
        ensures { Leaves self.old (modules_after_rename self.old full.now new.now) result self.new }
    {
        let full = FullName::of(full);
        if full.name.is_none() || !is_instance_name(new) {
            return Err(ErrorNumber::BadString);
        }
        let place = self.place_meant(full.title, full.name)?;
        let slot = self.slot_of(place).ok_or(ErrorNumber::ModuleNotFound)?;
        if self.is_named(place.number as usize, new) {
            return Err(ErrorNumber::InstanceExists);
        }
        self.put_name(place.number, slot, new);
        Ok(())
    }

    fn put_name(&mut self, number: u32, slot: u32, name: &[u8])
        requires below { slot < 64 }
        requires held { module_has_slot slot (slice_get self.old number) ≡ true }
        requires formed { length name.now ≤ 31 }
        requires unnamed { is_named name.now (slice_get self.old number) ≡ false }
        ensures { self.new ≡ modules_with_names slot name.now self.old }
    {
        self.names[slot as usize] = name_of(name);
    }

    /// Makes an instance, `Title%Name`, the preferred one of its module.
    ///
    /// # Errors
    ///
    /// The first of these, and nothing is changed then: `BadString` where the full name has no `%`;
    /// `ModuleNotFound` where there is no such instance.
    ///
    /// RISC OS 3 Programmer's Reference Manual, "OS_Module", reason 16.
    pub fn prefer(&mut self, full: &[u8]) -> Result<(), ErrorNumber>
        ensures { Leaves self.old (preferring self.old full.now) result self.new }
    {
        let full = FullName::of(full);
        if full.name.is_none() {
            return Err(ErrorNumber::BadString);
        }
        let place = self.place_meant(full.title, full.name)?;
        let slot = self.slot_of(place).ok_or(ErrorNumber::ModuleNotFound)?;
        self.set_preferred(place.number, slot);
        Ok(())
    }

    fn set_preferred(&mut self, number: u32, slot: u32)
        requires held { module_has_slot slot (slice_get self.old number) ≡ true }
        ensures { self.new ≡ changed_at number (with_preferred slot) self.old }
    {
        set_preferred(&mut self.modules, number as usize, slot);
    }

    /// Takes the instance of a slot out, if there is one. If it was preferred, the oldest one left
    /// becomes so; with its last instance a module goes.
    pub fn remove(&mut self, slot: u32)
        ensures { self.new ≡ without_instance slot self.old }
    {
        remove_instance(&mut self.modules, slot);
    }

    /// Gives the image of the module of a number another address, if there is one.
    pub fn moved(&mut self, number: u32, at: u32)
        ensures { self.new ≡ changed_at number (with_image_at at) self.old }
    {
        set_image(&mut self.modules, number as usize, at);
    }
}
