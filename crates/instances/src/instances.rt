//! The modules of a machine and their instances: looked up, described, named and preferred.

ghost use Rattle.std.specs.Prelude.{◌≡◌, ◌<◌, [], Option, option_map, slice_get, IfSome};
ghost use Rattle.instances_table.specs.Outcome.{Leaves};
ghost use Rattle.rma.specs.Bytes.{AreMapped};
ghost use Rattle.rma.specs.Memory.{byte_at, is_mapped};
ghost use Rattle.rma.specs.Ground.{AreaStore};
ghost use Rattle.instances_table.specs.plans.Plans.{Plan};
ghost use Rattle.instances_table.specs.Lookup.{shown_of_module, shown_of_place};
ghost use Rattle.instances_table.specs.Changes.{preferring, modules_after_rename};
ghost use Rattle.instances_table.specs.Modules.{AreModules, slots_of};
ghost use Rattle.instances.specs.Reading.{instance_looked_up, instance_info};
ghost use Rattle.instances.specs.Turns.{MayGoOn};

use crate::answers::{Found, Reported};
use crate::module_state::private_value;
use instances_table::{InstanceInfo, InstanceTable, ModuleInfo, Place};
use rma::{AddressMap, ErrorNumber};
use std::marker::Model;

/// The modules of a machine and their instances.
///
/// RISC OS 3 Programmer's Reference Manual, "Modules".
#[derive(Drop)]
pub struct Instances {
    pub(crate) table: InstanceTable,
}

impl Model for Instances {
    ghost use Rattle.std.specs.Prelude.{List};
    ghost use Rattle.instances_table.specs.Modules.{Module};

    ghost Value = { List Module };

    ghost view = { λ i. i.table };
}

impl Instances {
    /// No module.
    pub fn new() -> Instances
        ensures { result ≡ [] }
    {
        Instances {
            table: InstanceTable::new(),
        }
    }

    /// Titles differ, so do the names of a module's instances and the slots of all, which are below
    /// 64, and one instance of each module is preferred. The call does nothing but say so.
    pub fn known(&self)
        ensures { AreModules self.now }
    {
        self.table.known();
    }

    /// Become a copy of other instances.
    pub fn copy_from(&mut self, other: &Instances)
        ensures { self.new ≡ other.now }
    {
        self.table.copy_from(&other.table);
    }

    /// The module at an index, if there is one.
    pub fn module(&self, number: u32) -> Option<ModuleInfo>
        ensures { result ≡ option_map shown_of_module (slice_get self.now number) }
    {
        self.table.module(number)
    }

    /// An instance, by its module's index and its own among that module's, if there is one.
    pub fn instance(&self, number: u32, instance: u32) -> Option<InstanceInfo>
        ensures value { result ≡ shown_of_place instance (slice_get self.now number) }
        ensures below { IfSome result (λ i. i.slot < 64) }
    {
        self.table.instance(number, instance)
    }

    /// An instance, with the value of its private word.
    ///
    /// # Errors
    ///
    /// `ModuleNotFound` where there is no such module or instance.
    ///
    /// RISC OS 3 Programmer's Reference Manual, "OS_Module", reason 12.
    pub fn info(&self, map: &AddressMap, place: Place) -> Result<Reported, ErrorNumber>
        requires { AreMapped (is_mapped map.now) 0x01C02000 256 }
        ensures { result ≡ instance_info (byte_at map.now) self.now place }
    {
        let information = self.table.info(place.number, place.instance)?;
        let slot = self
            .table
            .slot_of(place)
            .ok_or(ErrorNumber::ModuleNotFound)?;
        Ok(Reported {
            next: information.next,
            image: information.image,
            word: private_value(map, slot),
        })
    }

    /// The instance that a name means: `Title%Name`, or the preferred one of `Title`, whatever the
    /// case of the letters.
    ///
    /// # Errors
    ///
    /// `ModuleNotFound` where there is none.
    ///
    /// RISC OS 3 Programmer's Reference Manual, "OS_Module", reason 18.
    pub fn lookup(&self, map: &AddressMap, full: &[u8]) -> Result<Found, ErrorNumber>
        requires { AreMapped (is_mapped map.now) 0x01C02000 256 }
        ensures { result ≡ instance_looked_up (byte_at map.now) self.now full.now }
    {
        let place = self.table.lookup(full)?;
        let reported = self.info(map, place)?;
        Ok(Found {
            place,
            image: reported.image,
            word: reported.word,
        })
    }

    /// Gives an instance, `Title%Name`, another name. A call that is under way meanwhile goes on.
    ///
    /// # Errors
    ///
    /// The first of these, and nothing is changed then: `BadString` where the full name has no `%`,
    /// or the new name isn't formed like a title; `ModuleNotFound` where there is no such instance;
    /// `InstanceExists` where an instance of the module has the new name, this one included.
    ///
    /// RISC OS 3 Programmer's Reference Manual, "OS_Module", reason 15.
    pub fn rename(&mut self, full: &[u8], new: &[u8]) -> Result<(), ErrorNumber>
        ensures value { Leaves self.old (modules_after_rename self.old full.now new.now) result self.new }
        ensures going { (e : AreaStore) (plan : Option Plan) →
            MayGoOn (record { area_store = e; modules = self.old }) plan
            → MayGoOn (record { area_store = e; modules = self.new }) plan }
        ensures slots { slots_of self.new ≡ slots_of self.old }
    {
        self.table.rename(full, new)
    }

    /// Makes an instance, `Title%Name`, the preferred one of its module. A call that is under way
    /// meanwhile goes on.
    ///
    /// # Errors
    ///
    /// The first of these, and nothing is changed then: `BadString` where the full name has no `%`;
    /// `ModuleNotFound` where there is no such instance.
    ///
    /// RISC OS 3 Programmer's Reference Manual, "OS_Module", reason 16.
    pub fn prefer(&mut self, full: &[u8]) -> Result<(), ErrorNumber>
        ensures value { Leaves self.old (preferring self.old full.now) result self.new }
        ensures going { (e : AreaStore) (plan : Option Plan) →
            MayGoOn (record { area_store = e; modules = self.old }) plan
            → MayGoOn (record { area_store = e; modules = self.new }) plan }
        ensures slots { slots_of self.new ≡ slots_of self.old }
    {
        self.table.prefer(full)
    }
}
