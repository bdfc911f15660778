//! The guest: how it is made, one instruction of it, and what a turn of its core leaves to do.

ghost use Rattle.std.specs.Prelude.{◌≡◌, ◌≤◌, ◌*◌, [], IfOk, IfSome, length};
ghost use Rattle.std.specs.Option.{option_map};
ghost use Rattle.swi_dispatch_guest.specs.Step.{turn_end, without_x};
ghost use Rattle.swi_dispatch_plans.specs.PlannerInput.{setting_in};

use crate::calls::Output;
use crate::halt::Halt;
use arm_run::{Cpu, DecodeCache, StepEnd};
use os_heap::{AddressMap, Heaps};
use profile::memory_map::{ADDRESS_LIMIT, APPLICATION_START};
use profile::word::is_bit_set;
use profile::{Config, Stop};
use std::alloc::{AllocError, Global};
use std::marker::Model;
use swi_dispatch_plans::flex::Flex;
use swi_dispatch_plans::{Areas, Frames, Images, Instances, Plan, Planner, Scratch, start_memory};

/// The bit of a call's number that asks for errors to be returned.
const X_BIT: u32 = 1 << 17;

/// A core, its memory and what stands on that, the module code that is under way, and what keeps
/// the core from further steps.
pub(crate) struct Guest {
    pub(crate) cpu: Cpu,
    pub(crate) memory: AddressMap,
    pub(crate) heaps: Heaps,
    pub(crate) areas: Areas,
    pub(crate) instances: Instances,
    pub(crate) frames: Frames,
    pub(crate) plan: Option<Plan>,
    pub(crate) flex: Flex,
    pub(crate) halt: Option<Halt>,
    /// What a call is tried on whose caller takes no error. It is no part of the guest's state.
    pub(crate) scratch: Scratch,
    /// Words that were carried out, made ready. They are no part of the guest's state.
    pub(crate) ready: DecodeCache,
}

impl Drop for Guest {
    fn drop(self) {
        let Guest {
            cpu: _cpu,
            memory: _memory,
            heaps: _heaps,
            areas: _areas,
            instances: _instances,
            frames: _frames,
            plan: _plan,
            flex: _flex,
            halt: _halt,
            scratch: _scratch,
            ready: _ready,
        } = self;
    }
}

impl Model for Guest {
    ghost use Rattle.swi_dispatch_guest.specs.GuestState.{GuestState, IsWellFormed};

    ghost Value = { GuestState };

    ghost view = { λ g. record {
      cpu = g.cpu;
      map = g.memory;
      tables = record { area_table = g.areas; modules = g.instances; frames = g.frames; plan = g.plan; flex = g.flex };
      halt = g.halt;
      sizes = g.scratch;
    } };

    ghost invariant = { λ g. IsWellFormed
        (record {
          cpu = g.cpu;
          map = g.memory;
          tables = record { area_table = g.areas; modules = g.instances; frames = g.frames; plan = g.plan; flex = g.flex };
          halt = g.halt;
          sizes = g.scratch;
        }) };
}

impl Guest {
    ghost use Rattle.swi_dispatch_guest.specs.MachineState.{machine_start, outcome_with, setting_of, silent, stop_of};
    ghost use Rattle.swi_dispatch_guest.specs.GuestState.{IsGuest, state_of};
    ghost use Rattle.swi_dispatch_guest.specs.Returns.{outcome_of_halt};
    ghost use Rattle.swi_dispatch_guest.specs.Writes.{with_program};

    /// A guest of these sizes at its start: user mode at &8000, each register 0 but the stack
    /// pointer of supervisor mode, all mapped memory 0 but the descriptor of the module area's
    /// heap.
    ///
    /// # Errors
    ///
    /// Where memory is missing.
    pub(crate) fn new(alloc: Global, config: Config) -> Result<Guest, AllocError>
        ensures { IfOk result (λ guest. state_of guest ≡ machine_start config) }
    {
        let memory = start_memory(alloc, config)?;
        Ok(Guest {
            cpu: Cpu::new(),
            memory,
            heaps: Heaps::new(),
            areas: Areas::new(config),
            instances: Instances::new(),
            frames: Frames::new(),
            plan: None,
            flex: Flex::new(),
            halt: None,
            scratch: Scratch::new(alloc, config)?,
            ready: DecodeCache::new(alloc)?,
        })
    }

    /// Copies a program to the start of the application space of a guest that stands as it was
    /// made.
    pub(crate) fn put_program(&mut self, config: Config, program: &[u8])
        requires start { state_of self.old ≡ machine_start config }
        requires fits { length program.now ≤ 4096 * config.app }
        ensures { state_of self.new ≡ with_program (state_of self.old) program.now }
    {
        config.app();
        self.memory.put_bytes(APPLICATION_START, program);
    }

    /// What holds of every guest, whatever it does. The call does nothing but say so.
    pub(crate) fn known(&self)
        ensures { IsGuest self.now }
    {
        self.cpu.known();
        self.areas.list();
        self.instances.known();
        self.frames.len();
        self.text_of_plan();
        let _memory = &self.memory;
    }

    // The text of a call that is under way has at most 255 bytes.
    fn text_of_plan(&self) -> &[u8]
        ensures { IfSome (state_of self.now).tables.plan (λ plan. length plan.given.text.items ≤ 255) }
    {
        match &self.plan {
            Some(plan) => plan.given().text.as_slice(),
            None => &[],
        }
    }

    /// Why the guest is halted, if it is.
    pub(crate) fn stop(&self) -> Option<Stop>
        ensures { result ≡ option_map stop_of (state_of self.now).halt }
    {
        self.halt.map(Halt::stop)
    }

    // What the plans of calls on modules are made from.
    pub(crate) fn planner<'a>(&'a self) -> Planner<'a>
        ensures { setting_in result ≡ setting_of (state_of self.now) }
    {
        Planner::new(
            &self.cpu,
            &self.memory,
            &self.areas,
            &self.instances,
            &self.frames,
            &self.plan,
        )
    }

    /// What a turn of the core leaves to do, and prints.
    pub(crate) fn after_turn(&mut self, images: &Images, output: &mut Output, turn: StepEnd)
        requires unprinted { output.old.items ≡ [] }
        ensures { outcome_with (state_of self.new) output.new.items
            ≡ turn_end images.now (state_of self.old) turn }
    {
        match turn {
            StepEnd::Done => {}
            StepEnd::Swi(number) => {
                let next = (self.cpu.pc() + 4) % ADDRESS_LIMIT;
                let call = self.call_of(is_bit_set(number, 17), next);
                self.call(images, output, call, without_x_bit(number));
            }
            StepEnd::Gate => self.pass_gate(),
            StepEnd::Fault(fault) => self.halt_with(Halt::Fault(fault)),
        }
    }

    pub(crate) fn halt_with(&mut self, halt: Halt)
        ensures { silent (state_of self.new) ≡ outcome_of_halt (state_of self.old) halt }
    {
        self.halt = Some(halt);
    }
}

/// The number of a call without the bit that asks for errors to be returned.
pub fn without_x_bit(number: u32) -> u32
    ensures { result ≡ without_x number }
{
    if is_bit_set(number, 17) {
        number - X_BIT
    } else {
        number
    }
}
