//! What a user sets in a machine from outside. The machine can't be booted after that.

ghost use Rattle.std.specs.Prelude.{◌≡◌, ◌≤◌, ◌<◌, ◌%◌, ◌^◌, ◌&&◌, false, is_err};
ghost use Rattle.profile.specs.Outcome.{Leaves};
ghost use Rattle.swi_dispatch_guest.specs.Writes.{machine_after_poke, machine_at, machine_unhalted, machine_with_bank_register, machine_with_register, machine_with_status};

use crate::machine::Machine;
use arm_run::{Mode, Psr};
use profile::Fault;

impl Machine {
    ghost use Rattle.swi_dispatch_guest.specs.GuestState.{state_of};
    ghost use Rattle.swi_dispatch_guest.specs.Value.{IsBesides, IsWritten};

    /// Sets one of R0 to R14 of the present mode.
    pub fn set_register(&mut self, number: u32, value: u32)
        requires { number ≤ 14 }
        ensures written { IsWritten self.old self.new
            (machine_with_register (state_of self.old.guest) number value) }
    {
        self.is_fresh = false;
        self.guest.cpu.set_register(number, value);
        self.known();
    }

    /// Sets one of R0 to R14 of a mode, whatever the present one: that of its bank, or the one that
    /// all modes share.
    pub fn set_register_in(&mut self, mode: Mode, number: u32, value: u32)
        requires { number ≤ 14 }
        ensures written { IsWritten self.old self.new
            (machine_with_bank_register (state_of self.old.guest) mode number value) }
    {
        self.is_fresh = false;
        self.guest.cpu.set_register_in(mode, number, value);
        self.known();
    }

    /// Sets the program counter, from which the next step takes its instruction. A halted machine
    /// stays halted.
    pub fn set_pc(&mut self, address: u32)
        requires aligned { address % 4 ≡ 0 }
        requires inside { address < 2 ^ 26 }
        ensures written { IsWritten self.old self.new (machine_at (state_of self.old.guest) address) }
    {
        self.is_fresh = false;
        self.guest.cpu.set_pc(address);
        self.known();
    }

    /// Lets the machine take steps again, whatever has halted it.
    pub fn wake(&mut self)
        ensures written { IsWritten self.old self.new (machine_unhalted (state_of self.old.guest)) }
    {
        self.is_fresh = false;
        self.guest.halt = None;
        self.known();
    }

    /// Sets the status: the flags N, Z, C and V, the interrupt bits I and F, and the mode.
    pub fn set_psr(&mut self, status: Psr)
        ensures written { IsWritten self.old self.new (machine_with_status (state_of self.old.guest) status) }
    {
        self.is_fresh = false;
        self.guest.cpu.set_psr(status);
        self.known();
    }

    /// Stores a word as a guest's store instruction would. A refusal changes nothing.
    ///
    /// # Errors
    ///
    /// `AddressException` from 2^26 on, else `DataUnmapped` where no memory is mapped, else
    /// `OwnedWord` where the store calls keep their records.
    pub fn poke(&mut self, at: u32, value: u32) -> Result<(), Fault>
        requires { at % 4 ≡ 0 }
        ensures state { Leaves (state_of self.old.guest)
            (machine_after_poke (state_of self.old.guest) at value) result (state_of self.new.guest) }
        ensures rest { IsBesides self.old self.new (self.old.is_fresh && is_err result) }
    {
        let stored = self.guest.memory.store_word(at, value);
        self.is_fresh &= stored.is_err();
        self.known();
        stored
    }
}
