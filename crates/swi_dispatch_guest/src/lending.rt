//! The parts of a machine, lent for reading, and why it is halted.

ghost use Rattle.std.specs.Prelude.{◌≡◌, ◌≤◌, false, length, IsSome};
ghost use Rattle.std.specs.Option.{option_map};
ghost use Rattle.os_heap.specs.Memory.{bytes_of, free_pages};
ghost use Rattle.os_heap.specs.Store.{store_of, IsSound};
ghost use Rattle.swi_dispatch_plans.specs.Rooms.{IsAreaTable};
ghost use Rattle.swi_dispatch_plans.specs.State.{IsFlex};
ghost use Rattle.swi_dispatch_guest.specs.Errors.{error_number};
ghost use Rattle.swi_dispatch_guest.specs.MachineState.{stop_of};
ghost use Rattle.swi_dispatch_guest.specs.GuestState.{state_of};

use crate::machine::Machine;
use arm_run::Cpu;
use os_heap::{AddressMap, Heaps};
use profile::Stop;
use swi_dispatch_plans::{Areas, Flex, Frame, Instances, error_at};

impl Machine {
    /// The bytes that the last step or store call printed; none before the first.
    pub fn output(&self) -> &[u8]
        ensures { result.now ≡ self.now.printed }
    {
        self.printed.as_slice()
    }

    /// The core.
    pub fn cpu(&self) -> &Cpu
        ensures { result.now ≡ (state_of self.now.guest).cpu }
    {
        &self.guest.cpu
    }

    /// The memory.
    #[tactic(auto, unfolding(os_heap::specs::Store::store_of))]
    pub fn memory(&self) -> &AddressMap
        ensures map { result.now ≡ self.now.guest.map }
        ensures store { store_of result.now ≡ (state_of self.now.guest).store }
        ensures flex { IsFlex result.now (state_of self.now.guest).tables.flex }
        ensures pool { free_pages result.now ≡ (state_of self.now.guest).pool }
        ensures bytes { bytes_of result.now ≡ (state_of self.now.guest).store.bytes }
        ensures sound { IsSound (store_of result.now) }
    {
        &self.guest.memory
    }

    /// The heaps, which lie in the memory.
    pub fn heaps(&self) -> &Heaps {
        &self.guest.heaps
    }

    /// The dynamic areas, which stand on the memory.
    pub fn areas(&self) -> &Areas
        ensures area_table { result.now ≡ (state_of self.now.guest).tables.area_table }
        ensures table { IsAreaTable result.now.areas }
    {
        &self.guest.areas
    }

    /// The modules and their instances.
    pub fn instances(&self) -> &Instances
        ensures { result.now ≡ (state_of self.now.guest).tables.modules }
    {
        &self.guest.instances
    }

    /// Where the flex store is, if there is one; its blocks stand in the memory.
    pub fn flex(&self) -> &Flex
        ensures { result.now ≡ (state_of self.now.guest).tables.flex }
    {
        &self.guest.flex
    }

    /// How many frames of module code are open.
    pub fn frames(&self) -> usize
        ensures value { result ≡ length (state_of self.now.guest).tables.frames }
        ensures most { result ≤ 32 }
    {
        self.guest.frames.len()
    }

    /// The frames of module code that are open, the innermost last.
    pub fn open_frames(&self) -> &[Frame]
        ensures { result.now ≡ (state_of self.now.guest).tables.frames }
    {
        self.guest.frames.as_slice()
    }

    /// Why the machine is halted, if it is.
    pub fn stop(&self) -> Option<Stop>
        ensures halt { result ≡ option_map stop_of (state_of self.now.guest).halt }
        ensures stepped { IsSome result → self.now.is_fresh ≡ false }
    {
        self.guest.stop()
    }

    /// The number of the error that R0 points to, or that of `BadPointer` where no block can stand
    /// there.
    pub fn error_number(&self) -> u32
        ensures { result ≡ error_number (state_of self.now.guest) }
    {
        error_at(&self.guest.memory, self.guest.cpu.register(0))
    }
}
