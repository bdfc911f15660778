//! What is read of the list of modules alone.

ghost use Rattle.std.specs.Prelude.{◌≡◌, ◌<◌, ◌≤◌, ◌+◌, ◌%◌, ◌^◌, ◌==◌, if◌then◌else◌, length, slice_get, IfOk, IfSome, Some, None, true};
ghost use Rattle.instances_table.specs.plans.Doable.{is_used};
ghost use Rattle.instances_table.specs.Changes.{modules_of_title};
ghost use Rattle.instances_table.specs.Lookup.{handler_of, instance_count};
ghost use Rattle.instances_table.specs.Modules.{slots_of};
ghost use Rattle.instances.specs.Reading.{slot_meant, start_found};

use crate::answers::Start;
use crate::instances::Instances;
use arrayvec::ArrayVec;
use instances_table::{Handler, MOST_INSTANCES, ModuleInfo};
use rma::ErrorNumber;

impl Instances {
    /// How many modules there are, at most 64.
    pub fn count(&self) -> u32
        ensures value { result ≡ length self.now }
        ensures few { result ≤ 64 }
    {
        self.table.count()
    }

    /// How many instances the module of a number has, at most 64; none where there is no such
    /// module.
    pub fn instance_count(&self, number: u32) -> u32
        ensures value { result ≡ instance_count (slice_get self.now number) }
        ensures few { result ≤ 64 }
    {
        self.table.instance_count(number)
    }

    /// Where a SWI of that number is handled: by the oldest module whose chunk has it.
    ///
    /// RISC OS 3 Programmer's Reference Manual, "Modules", "SWI handler code".
    pub fn handler_of(&self, call: u32) -> Option<Handler>
        ensures value { result ≡ handler_of call self.now }
        ensures below { IfSome result (λ h. h.slot < 64) }
        ensures held { IfSome result (λ h. is_used h.slot (slots_of self.now) ≡ true) }
    {
        self.table.known();
        self.table.handler_of(call)
    }

    /// The slots of the instances of the module of a title, oldest first; none where there is no
    /// such module.
    pub fn slots_of_title(&self, title: &[u8]) -> ArrayVec<u32, MOST_INSTANCES>
        ensures { result.items ≡ slots_of (modules_of_title title.now self.now) }
    {
        self.table.slots_of_title(title)
    }

    /// The slot of the instance that a name means, as `lookup` takes it.
    ///
    /// # Errors
    ///
    /// `ModuleNotFound` where there is none.
    #[tactic(auto, unfolding(crate::specs::Reading::slot_meant))]
    pub fn slot(&self, full: &[u8]) -> Result<u32, ErrorNumber>
        ensures value { result ≡ slot_meant self.now full.now }
        ensures below { IfOk result (λ slot. slot < 64) }
    {
        let place = self.table.lookup(full)?;
        self.table.slot_of(place).ok_or(ErrorNumber::ModuleNotFound)
    }

    /// Where the module of the instance that a name means, as `lookup` takes it, is entered as a
    /// program, and the instance's slot.
    ///
    /// # Errors
    ///
    /// `ModuleNotFound` where there is none.
    ///
    /// RISC OS 3 Programmer's Reference Manual, "OS_Module", reason 2.
    #[tactic(auto, unfolding(crate::specs::Reading::start_found))]
    pub fn start(&self, full: &[u8]) -> Result<Start, ErrorNumber>
        ensures value { result ≡ start_found self.now full.now }
        ensures below { IfOk result (λ s. s.slot < 64) }
    {
        let place = self.table.lookup(full)?;
        let slot = self
            .table
            .slot_of(place)
            .ok_or(ErrorNumber::ModuleNotFound)?;
        let info = self
            .table
            .module(place.number)
            .ok_or(ErrorNumber::ModuleNotFound)?;
        let at = start_of(&info);
        Ok(Start { at, slot })
    }
}

// The address of a module's start, if it has one.
fn start_of(info: &ModuleInfo) -> Option<u32>
    ensures { result ≡ (if info.now.start == 0 then None
        else Some ((info.now.image + info.now.start) % 2 ^ 32)) }
{
    if info.start == 0 {
        return None;
    }
    Some(info.image.wrapping_add(info.start))
}
