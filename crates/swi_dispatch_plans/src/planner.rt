//! What the plans of calls on modules are made from.

ghost use Rattle.std.specs.Prelude.{◌≡◌, ◌≤◌};
ghost use Rattle.swi_dispatch_answers.specs.Strings.{bytes_read};
ghost use Rattle.swi_dispatch_plans.specs.Beginning.{IsPlannerInput};
ghost use Rattle.swi_dispatch_plans.specs.PlannerInput.{setting_in, string_asked};

use arrayvec::ArrayVec;
use instances::{Areas, Instances, Plan};
use os_heap::AddressMap;
use profile::ErrorNumber;
use std::marker::Model;
use swi_dispatch_answers::frames::Frames;
use swi_dispatch_answers::strings::string_in;
use swi_dispatch_answers::{Cpu, MAX_TEXT};

/// The parts of a machine that a call on modules reads as it begins: the core, the memory, the
/// areas and the modules on it, the frames of module code that is under way, and what is left to do
/// of a call whose code is under way.
#[derive(Drop)]
pub struct Planner<'a> {
    pub(crate) cpu: &'a Cpu,
    pub(crate) memory: &'a AddressMap,
    pub(crate) areas: &'a Areas,
    pub(crate) instances: &'a Instances,
    pub(crate) frames: &'a Frames,
    pub(crate) plan: &'a Option<Plan>,
}

impl<'a> Model for Planner<'a> {
    ghost use Rattle.swi_dispatch_plans.specs.Beginning.{IsPlannerInput};
    ghost use Rattle.swi_dispatch_plans.specs.PlannerInput.{PlanParts, setting_in};

    ghost Value = { PlanParts };

    ghost view = { λ p. record {
      cpu = p.cpu.now;
      map = p.memory.now;
      area_table = p.areas.now;
      modules = p.instances.now;
      frames = p.frames.now;
      plan = p.plan.now;
    } };

    ghost invariant = { λ p. IsPlannerInput (setting_in (record {
      cpu = p.cpu.now;
      map = p.memory.now;
      area_table = p.areas.now;
      modules = p.instances.now;
      frames = p.frames.now;
      plan = p.plan.now;
    })) };
}

impl<'a> Planner<'a> {
    /// One over these parts.
    pub fn new(
        cpu: &'a Cpu,
        memory: &'a AddressMap,
        areas: &'a Areas,
        instances: &'a Instances,
        frames: &'a Frames,
        plan: &'a Option<Plan>,
    ) -> Planner<'a>
        requires { IsPlannerInput (setting_in (record {
          cpu = cpu.now;
          map = memory.now;
          area_table = areas.now;
          modules = instances.now;
          frames = frames.now;
          plan = plan.now;
        })) }
        ensures { result ≡ record {
          cpu = cpu.now;
          map = memory.now;
          area_table = areas.now;
          modules = instances.now;
          frames = frames.now;
          plan = plan.now;
        } }
    {
        Planner {
            cpu,
            memory,
            areas,
            instances,
            frames,
            plan,
        }
    }

    /// The string that a register points to, whole.
    ///
    /// # Errors
    ///
    /// `BadString` where one of its bytes or its end is not mapped, or it is longer than 255 bytes.
    pub fn string(&self, number: u32) -> Result<ArrayVec<u8, MAX_TEXT>, ErrorNumber>
        requires { number ≤ 14 }
        ensures { bytes_read result ≡ string_asked (setting_in self.now) number }
    {
        string_in(self.cpu, self.memory, number)
    }
}
