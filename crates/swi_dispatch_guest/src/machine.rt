//! The machine: how it is made and booted, one step of it, and calls from outside.

ghost use Rattle.std.specs.Prelude.{◌≡◌, ◌&&◌, false, true, [], IfOk, IsSome, is_err};
ghost use Rattle.std.specs.Option.{option_map};
ghost use Rattle.profile.specs.Outcome.{Leaves};
ghost use Rattle.swi_dispatch_guest.specs.Step.{machine_step, module_loaded, store_called};

use crate::boot_error::BootError;
use crate::calls::Output;
use crate::guest::{Guest, without_x_bit};
use arrayvec::ArrayVec;
use profile::images::Images;
use profile::memory_map::PAGE_SIZE;
use profile::{Config, Stop};
use std::alloc::{AllocError, Global};
use std::marker::Model;

/// A machine: a guest, and what its last step printed.
#[derive(Drop)]
pub struct Machine {
    pub(crate) guest: Guest,
    config: Config,
    pub(crate) is_fresh: bool,
    pub(crate) printed: Output,
}

impl Model for Machine {
    ghost use Rattle.std.specs.Prelude.{◌≡◌, true};
    ghost use Rattle.swi_dispatch_guest.specs.Value.{MachineValue};
    ghost use Rattle.swi_dispatch_guest.specs.MachineState.{machine_start};
    ghost use Rattle.swi_dispatch_guest.specs.GuestState.{state_of};

    ghost Value = { MachineValue };

    ghost view = { λ m. record {
      guest = m.guest;
      sizes = m.config;
      is_fresh = m.is_fresh;
      printed = m.printed.items;
    } };

    ghost invariant = { λ m. m.is_fresh ≡ true → state_of m.guest ≡ machine_start m.config };
}

impl Machine {
    ghost use Rattle.swi_dispatch_guest.specs.Boot.{machine_after_boot};
    ghost use Rattle.swi_dispatch_guest.specs.Value.{IsAfterStep, IsBesides, IsMachine};
    ghost use Rattle.swi_dispatch_guest.specs.GuestState.{state_of};
    ghost use Rattle.swi_dispatch_guest.specs.MachineState.{machine_start, silent, stop_of};

    /// A machine of these sizes at its start: user mode at &8000, each register 0 but the stack
    /// pointer of supervisor mode, all mapped memory 0 but the descriptor of the module area's
    /// heap.
    ///
    /// # Errors
    ///
    /// Where memory is missing.
    pub fn new(alloc: Global, config: Config) -> Result<Machine, AllocError>
        ensures start { IfOk result (λ m. state_of m.guest ≡ machine_start config) }
        ensures sizes { IfOk result (λ m. m.sizes ≡ config) }
        ensures fresh { IfOk result (λ m. m.is_fresh ≡ true) }
        ensures printed { IfOk result (λ m. m.printed ≡ []) }
        ensures kept { IfOk result IsMachine }
    {
        let guest = Guest::new(alloc, config)?;
        guest.known();
        Ok(Machine {
            guest,
            config,
            is_fresh: true,
            printed: ArrayVec::new(),
        })
    }

    /// The sizes that it was made with.
    pub fn config(&self) -> Config
        ensures { result ≡ self.now.sizes }
    {
        self.config
    }

    /// Copies a program to the start of the application space of a machine that stands as it was
    /// made. A refusal changes nothing.
    ///
    /// # Errors
    ///
    /// `Booted` where the machine was stepped or written to before, else `TooLarge` where the
    /// program is longer than the application space.
    #[tactic(auto, unfolding(crate::specs::Boot::machine_after_boot))]
    pub fn boot(&mut self, program: &[u8]) -> Result<(), BootError>
        ensures state { Leaves (state_of self.old.guest)
            (machine_after_boot self.old.sizes self.old.is_fresh
            (state_of self.old.guest) program.now) result (state_of self.new.guest) }
        ensures rest { IsBesides self.old self.new (self.old.is_fresh && is_err result) }
    {
        self.known();
        if !self.is_fresh {
            return Err(BootError::Booted);
        }
        if program.len() > (PAGE_SIZE * self.config.app()) as usize {
            return Err(BootError::TooLarge);
        }
        self.is_fresh = false;
        self.guest.put_program(self.config, program);
        self.known();
        Ok(())
    }

    /// Takes one step: an instruction or a store call. Answers why the machine is halted, if it is;
    /// a halted machine stays as it is.
    #[tactic(auto, unfolding(crate::specs::Step::machine_step))]
    pub fn step(&mut self, images: &Images) -> Option<Stop>
        ensures after { IsAfterStep self.old self.new (machine_step images.now (state_of self.old.guest)) }
        ensures stop { result ≡ option_map stop_of (state_of self.new.guest).halt }
    {
        self.begin_step();
        if let Some(stop) = self.known_stop() {
            return Some(stop);
        }
        self.guest.step(images, &mut self.printed);
        self.known_stop()
    }

    /// Makes a store call as a guest would by an instruction with the X bit that stands before the
    /// program counter: the guest goes on at the present program counter. Bits 31 to 24 of the
    /// number and its X bit are left out. A halted machine stays as it is.
    #[tactic(auto, unfolding(crate::specs::Step::store_called))]
    pub fn store_call(&mut self, images: &Images, number: u32) -> Option<Stop>
        ensures after { IsAfterStep self.old self.new
            (store_called images.now (state_of self.old.guest) number) }
        ensures stop { result ≡ option_map stop_of (state_of self.new.guest).halt }
    {
        self.begin_step();
        if let Some(stop) = self.known_stop() {
            return Some(stop);
        }
        let next = self.guest.cpu.pc();
        let call = self.guest.call_of(true, next);
        let number = without_x_bit(number % (1 << 24));
        self.guest.call(images, &mut self.printed, call, number);
        self.known_stop()
    }

    /// Loads a module as OS_Module 1 does with the X bit, with these words in place of the string
    /// that R1 points to: the name of an image and a text. The guest goes on at the present program
    /// counter. A halted machine stays as it is.
    #[tactic(auto, unfolding(crate::specs::Step::module_loaded))]
    pub fn load_module(&mut self, images: &Images, text: &[u8]) -> Option<Stop>
        ensures after { IsAfterStep self.old self.new
            (module_loaded images.now (state_of self.old.guest) text.now) }
        ensures stop { result ≡ option_map stop_of (state_of self.new.guest).halt }
    {
        self.begin_step();
        if let Some(stop) = self.known_stop() {
            return Some(stop);
        }
        self.guest.load_here(images, text);
        self.known_stop()
    }

    /// What holds of every machine, whatever its guest does. The call does nothing but say so.
    pub fn known(&self)
        ensures { IsMachine self.now }
    {
        self.guest.known();
    }

    // Why the machine is halted, if it is, and all that holds of it.
    pub(crate) fn known_stop(&self) -> Option<Stop>
        ensures halt { result ≡ option_map stop_of (state_of self.now.guest).halt }
        ensures stepped { IsSome result → self.now.is_fresh ≡ false }
        ensures kept { IsMachine self.now }
    {
        self.known();
        self.stop()
    }

    // A step prints into an empty list, and a machine that has been stepped can't be booted.
    pub(crate) fn begin_step(&mut self)
        ensures { IsAfterStep self.old self.new (silent (state_of self.old.guest)) }
    {
        self.is_fresh = false;
        self.printed.clear();
        self.known();
    }
}
