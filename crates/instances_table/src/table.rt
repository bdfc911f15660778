//! The table, and what it shows.

ghost use Rattle.std.specs.Prelude.{◌≡◌, ◌≤◌, ◌<◌, [], length, map, true, option_map, slice_get, slice_index, EachIndex, IfSome};
ghost use Rattle.std.specs.List.{position};
ghost use Rattle.std.specs.Option.{option_copied};
ghost use Rattle.instances_table.specs.Modules.{AreModules, Module, has_instance, slots_of};
ghost use Rattle.instances_table.specs.Changes.{module_has_slot};
ghost use Rattle.instances_table.specs.Lookup.{handler_of, number_of_title, number_of_call, place_meant, looked_up, information, instance_in, slot_in, slot_within, place_of_slot, shown_of_module, shown_of_place};

use crate::loaded::{
    Loaded, MOST_INSTANCES, all_slots, loaded_at, name_at, number_of_call, number_of_slot,
    number_of_title, place_of_slot,
};
use crate::names::{FullName, name_of};
use crate::parts::{Handler, Information, InstanceInfo, ModuleInfo, Name, Place};
use arrayvec::ArrayVec;
use profile::images::module_header::{ErrorNumber, Header};
use std::array;
use std::marker::Model;

/// The modules of a machine, oldest first, each with its instances, oldest first: at most 64
/// instances of all modules together, each with a slot of its own, from 0 to 63. Modules and
/// instances are numbered by their places, from 0.
///
/// RISC OS 3 Programmer's Reference Manual, "Modules".
#[derive(Drop)]
pub struct InstanceTable {
    pub(crate) names: [Name; MOST_INSTANCES],
    pub(crate) modules: ArrayVec<Loaded, MOST_INSTANCES>,
}

impl Model for InstanceTable {
    ghost use Rattle.std.specs.Prelude.{List};
    ghost use Rattle.instances_table.specs.Modules.{Module, AreModules};
    ghost use Rattle.instances_table.specs.Table.{modules_of};

    ghost Value = { List Module };

    ghost view = { λ t. modules_of t.names t.modules.items };

    ghost invariant = { λ t. AreModules (modules_of t.names t.modules.items) };
}

impl InstanceTable {
    /// The table without a module.
    pub fn new() -> InstanceTable
        ensures { result ≡ [] }
    {
        InstanceTable {
            names: array::from_fn(|_| Name::new()),
            modules: ArrayVec::new(),
        }
    }

    /// What holds of every table.
    pub fn known(&self)
        ensures { AreModules self.now }
    {
        let _ = &self.names;
    }

    /// The module at an index, if there is one.
    pub fn module(&self, number: u32) -> Option<ModuleInfo>
        ensures { result ≡ option_map shown_of_module (slice_get self.now number) }
    {
        let loaded = self.modules.as_slice().get(number as usize)?;
        Some(loaded.reported())
    }

    /// The header of the module at an index, if there is one.
    pub fn header(&self, number: u32) -> Option<&Header>
        ensures { option_copied result ≡ option_map (λ (m : Module). m.header) (slice_get self.now number) }
    {
        let loaded = self.modules.as_slice().get(number as usize)?;
        Some(&loaded.header)
    }

    /// The slot of the preferred instance of the module of a number, if there is one.
    pub fn preferred(&self, number: u32) -> Option<u32>
        ensures { result ≡ option_map (λ (m : Module). m.preferred) (slice_get self.now number) }
    {
        let loaded = self.modules.as_slice().get(number as usize)?;
        Some(loaded.preferred)
    }

    /// The module of a title, whatever the case of its letters.
    pub fn of_title(&self, title: &[u8]) -> Option<u32>
        ensures { result ≡ number_of_title title.now self.now }
    {
        let number = number_of_title(self.modules.as_slice(), title)?;
        Some(number as u32)
    }

    /// The oldest module whose chunk has a SWI of that number, if one has.
    pub fn with_chunk(&self, call: u32) -> Option<u32>
        ensures { result ≡ number_of_call call self.now }
    {
        let number = number_of_call(self.modules.as_slice(), call)?;
        Some(number as u32)
    }

    /// Where a SWI of that number is handled: by the oldest module whose chunk has it.
    ///
    /// RISC OS 3 Programmer's Reference Manual, "Modules", "SWI handler code".
    pub fn handler_of(&self, call: u32) -> Option<Handler>
        ensures value { result ≡ handler_of call self.now }
        ensures below { IfSome result (λ h. h.slot < 64) }
    {
        let _ = &self.names;
        self.find_handler(call)
    }

    fn find_handler(&self, call: u32) -> Option<Handler>
        ensures { result ≡ handler_of call self.now }
    {
        let number = self.with_chunk(call)?;
        let loaded = self.modules.as_slice().get(number as usize)?;
        Some(loaded.handled())
    }

    /// The instance that a name means: `Title%Name`, or the preferred one of `Title`, whatever the
    /// case of the letters.
    ///
    /// # Errors
    ///
    /// `ModuleNotFound` where there is none.
    ///
    /// RISC OS 3 Programmer's Reference Manual, "OS_Module", reason 18.
    pub fn lookup(&self, full: &[u8]) -> Result<Place, ErrorNumber>
        ensures { result ≡ looked_up self.now full.now }
    {
        let full = FullName::of(full);
        self.place_meant(full.title, full.name)
    }

    /// The instance of a title and a name, or the preferred one.
    pub(crate) fn place_meant(
        &self,
        title: &[u8],
        name: Option<&[u8]>,
    ) -> Result<Place, ErrorNumber>
        ensures { result ≡ place_meant
            (record { title = title.now; name = option_map (λ n. n.now) name.entry }) self.now }
    {
        let number = self
            .number_of_title(title)
            .ok_or(ErrorNumber::ModuleNotFound)?;
        let instance = self
            .instance_meant(number, name)
            .ok_or(ErrorNumber::ModuleNotFound)?;
        Ok(Place {
            number: number as u32,
            instance: instance as u32,
        })
    }

    /// Where in the module of a number the instance of a name is, or the preferred one.
    fn instance_meant(&self, number: usize, name: Option<&[u8]>) -> Option<usize>
        ensures value { result ≡ instance_in (option_map (λ n. n.now) name.entry)
            (slice_get self.now number) }
        ensures within { IfSome result (λ i. i < 64) }
    {
        let loaded = self.modules.as_slice().get(number)?;
        loaded.place_meant(&self.names, name)
    }

    /// What OS_Module 12 reports an instance, the value of its private word aside. The place after
    /// an instance is the next one of the module, or instance 0 of the next module's number, there
    /// or not.
    ///
    /// # Errors
    ///
    /// `ModuleNotFound` where there is no such module or instance.
    ///
    /// RISC OS 3 Programmer's Reference Manual, "OS_Module", reason 12.
    #[tactic(auto, using(crate::proofs::ViewLemmas::view_steps), unfolding(crate::specs::Lookup::information))]
    pub fn info(&self, number: u32, instance: u32) -> Result<Information, ErrorNumber>
        ensures { result ≡ information self.now number instance }
    {
        let loaded = self
            .modules
            .as_slice()
            .get(number as usize)
            .ok_or(ErrorNumber::ModuleNotFound)?;
        let slot = loaded
            .slots
            .as_slice()
            .get(instance as usize)
            .ok_or(ErrorNumber::ModuleNotFound)?;
        let next = if (instance as usize) + 1 < loaded.slots.len() {
            Place {
                number,
                instance: instance + 1,
            }
        } else {
            Place {
                number: number + 1,
                instance: 0,
            }
        };
        Ok(Information {
            next,
            image: loaded.image.at,
            slot: *slot,
        })
    }

    /// An instance, by its module's index and its own among that module's, if there is one.
    pub fn instance(&self, number: u32, instance: u32) -> Option<InstanceInfo>
        ensures value { result ≡ shown_of_place instance (slice_get self.now number) }
        ensures below { IfSome result (λ i. i.slot < 64) }
    {
        let _ = &self.names;
        self.reported(number, instance)
    }

    fn reported(&self, number: u32, instance: u32) -> Option<InstanceInfo>
        ensures { result ≡ shown_of_place instance (slice_get self.now number) }
    {
        let loaded = self.modules.as_slice().get(number as usize)?;
        let slot = loaded.slots.as_slice().get(instance as usize)?;
        Some(InstanceInfo {
            name: name_of(name_at(&self.names, *slot)),
            slot: *slot,
            preferred: *slot == loaded.preferred,
        })
    }

    /// The slots of all instances, module by module, oldest first. Each module has one at least.
    pub fn slots(&self) -> ArrayVec<u32, MOST_INSTANCES>
        ensures value { result.items ≡ slots_of self.now }
        ensures table { AreModules self.now }
        ensures below { EachIndex result.items (λ k. slice_index result.items k < 64) }
        ensures modules { length self.now ≤ length result.items }
    {
        all_slots(self.modules.as_slice())
    }

    /// Where the instance of a slot is, if there is one.
    pub fn place_of_slot(&self, slot: u32) -> Option<Place>
        ensures { result ≡ place_of_slot slot self.now }
    {
        let number = self.number_of_slot(slot)?;
        let instance = self.instance_of_slot(number, slot)?;
        Some(Place {
            number: number as u32,
            instance: instance as u32,
        })
    }

    fn number_of_slot(&self, slot: u32) -> Option<usize>
        ensures value { result ≡ position (has_instance slot) self.now }
        ensures few { IfSome result (λ number. number < 64) }
    {
        number_of_slot(self.modules.as_slice(), slot)
    }

    fn instance_of_slot(&self, number: usize, slot: u32) -> Option<usize>
        ensures value { result ≡ slot_within slot (slice_get self.now number) }
        ensures few { IfSome result (λ i. i < 64) }
    {
        let loaded = loaded_at(self.modules.as_slice(), number)?;
        place_of_slot(loaded.slots.as_slice(), slot)
    }

    /// The slot of an instance, if there is one at the place.
    pub fn slot_of(&self, place: Place) -> Option<u32>
        ensures value { result ≡ slot_in place.instance (slice_get self.now place.number) }
        ensures held { IfSome result (λ slot. module_has_slot slot (slice_get self.now place.number) ≡ true) }
        ensures below { IfSome result (λ slot. slot < 64) }
    {
        let _ = &self.names;
        self.slot_at(place)
    }

    fn slot_at(&self, place: Place) -> Option<u32>
        ensures { result ≡ slot_in place.instance (slice_get self.now place.number) }
    {
        let loaded = self.modules.as_slice().get(place.number as usize)?;
        loaded
            .slots
            .as_slice()
            .get(place.instance as usize)
            .copied()
    }

    pub(crate) fn number_of_title(&self, title: &[u8]) -> Option<usize>
        ensures value { result ≡ number_of_title title.now self.now }
        ensures within { IfSome result (λ number. number < length self.now) }
        ensures few { IfSome result (λ number. number < 64) }
    {
        number_of_title(self.modules.as_slice(), title)
    }
}
