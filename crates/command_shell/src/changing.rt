//! What a debugger changes of a session without an answer: registers, words, the program counter,
//! the status, breaks, the budget, the last stop, or the whole machine.

ghost use Rattle.std.specs.Prelude.{◌≡◌, ◌≤◌, ◌<◌, ◌%◌, ◌^◌, List, OnOk, OnErr};
ghost use Rattle.profile.specs.Outcome.{Leaves};

use crate::session::Session;
use debugger::{BreakError, Machine, Mode, Psr};
use profile::{Config, Fault, Stop};
use std::alloc::AllocError;

impl Session {
    ghost use Rattle.profile.specs.images.Entries.{Entry};
    ghost use Rattle.command_shell.specs.Memory.{script_after_poke, script_at, script_unhalted, script_started_anew, script_with_bank_register};
    ghost use Rattle.command_shell.specs.Memory.{script_with_budget, script_with_last, script_with_register, script_with_status};
    ghost use Rattle.command_shell.specs.Session.{script_state};
    ghost use Rattle.command_shell.specs.Stepping.{script_with_break, script_without_break};

    /// Sets one of R0 to R14 of the present mode.
    pub fn set_register(&mut self, number: u32, value: u32)
        requires { number ≤ 14 }
        ensures { (images : List Entry) → script_state self.new images
            ≡ script_with_register (script_state self.old images) number value }
    {
        self.machine.set_register(number, value);
    }

    /// Sets one of R0 to R14 of a mode, whatever the present one: that of its bank, or the one that
    /// all modes share.
    pub fn set_register_in(&mut self, mode: Mode, number: u32, value: u32)
        requires { number ≤ 14 }
        ensures { (images : List Entry) → script_state self.new images
            ≡ script_with_bank_register (script_state self.old images) mode number value }
    {
        self.machine.set_register_in(mode, number, value);
    }

    /// Stores a word as a guest's store would.
    ///
    /// # Errors
    ///
    /// The fault of that store, and nothing is changed then: `AddressException` from 2^26 on, else
    /// `DataUnmapped`, else `OwnedWord`.
    pub fn store_word(&mut self, address: u32, value: u32) -> Result<(), Fault>
        requires { address % 4 ≡ 0 }
        ensures { (images : List Entry) → Leaves (script_state self.old images)
            (script_after_poke (script_state self.old images) address value) result
            (script_state self.new images) }
    {
        self.machine.poke(address, value)
    }

    /// Lets runs stop at an address. One that is there already is there once.
    ///
    /// # Errors
    ///
    /// `Unaligned` where the address is no multiple of 4, else `BreakTableFull` where 16 others are
    /// there; nothing is changed then.
    pub fn insert_break(&mut self, address: u32) -> Result<(), BreakError>
        ensures { (images : List Entry) → Leaves (script_state self.old images)
            (script_with_break (script_state self.old images) address) result
            (script_state self.new images) }
    {
        self.breaks.add(address)
    }

    /// Lets runs pass an address.
    ///
    /// # Errors
    ///
    /// `NoBreak` where runs don't stop there; nothing is changed then.
    pub fn remove_break(&mut self, address: u32) -> Result<(), BreakError>
        ensures { (images : List Entry) → Leaves (script_state self.old images)
            (script_without_break (script_state self.old images) address) result
            (script_state self.new images) }
    {
        self.breaks.remove(address)
    }

    /// Sets the program counter, from which the next step takes its instruction. A halted machine
    /// stays halted.
    pub fn set_pc(&mut self, address: u32)
        requires aligned { address % 4 ≡ 0 }
        requires inside { address < 2 ^ 26 }
        ensures { (images : List Entry)
            → script_state self.new images ≡ script_at (script_state self.old images) address }
    {
        self.machine.set_pc(address);
    }

    /// Lets the machine take steps again, whatever has halted it.
    pub fn wake(&mut self)
        ensures { (images : List Entry)
            → script_state self.new images ≡ script_unhalted (script_state self.old images) }
    {
        self.machine.wake();
    }

    /// Sets the status: the flags N, Z, C and V, the interrupt bits I and F, and the mode.
    pub fn set_psr(&mut self, status: Psr)
        ensures { (images : List Entry)
            → script_state self.new images ≡ script_with_status (script_state self.old images) status }
    {
        self.machine.set_psr(status);
    }

    /// Lets the lines that follow take so many steps, whatever was left.
    pub fn set_budget(&mut self, budget: u64)
        ensures { (images : List Entry)
            → script_state self.new images ≡ script_with_budget (script_state self.old images) budget }
    {
        self.left = budget;
    }

    /// Sets the last stop, for a debugger that runs the machine step by step.
    pub fn set_last(&mut self, stop: Stop)
        ensures { (images : List Entry)
            → script_state self.new images ≡ script_with_last (script_state self.old images) stop }
    {
        self.last = Some(stop);
    }

    /// Begins anew on a fresh machine of these sizes, with the whole budget. The breaks stay.
    ///
    /// # Errors
    ///
    /// Memory ran out, and nothing is changed then.
    pub fn start_anew(&mut self, config: Config, budget: u64) -> Result<(), AllocError>
        ensures made { OnOk result ((images : List Entry) → script_state self.new images
            ≡ script_started_anew (script_state self.old images) config budget) }
        ensures refused { OnErr result (self.new ≡ self.old) }
    {
        let machine = Machine::new(self.alloc, config)?;
        self.machine = machine;
        self.left = budget;
        self.last = None;
        Ok(())
    }
}
