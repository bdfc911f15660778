//! A second memory, on which a call is tried before it is carried on, where its caller takes no
//! error.

ghost use Rattle.std.specs.Prelude.{◌≡◌, IfOk};
ghost use Rattle.profile.specs.Sizes.{AreGood};
ghost use Rattle.swi_dispatch_answers.specs.Plans.{plan_after_code};
ghost use Rattle.instances.specs.module_state.ModuleState.{module_state_of};
ghost use Rattle.instances.specs.Turns.{IsMapUnderWay};
ghost use Rattle.swi_dispatch_plans.specs.Trials.{error_ahead};

use instances::{Areas, Ended, Instances, Outcome, Plan, areas_count_pages};
use os_heap::AddressMap;
use profile::Config;
use std::alloc::{AllocError, Global};
use std::marker::Model;
use swi_dispatch_answers::errors::error_at;

/// What a call is tried on: a memory as large as the machine's, which is kept for the next call.
/// The list of modules is no part of it: each trial makes its own.
#[derive(Drop)]
pub struct Scratch {
    memory: AddressMap,
    sizes: Config,
}

impl Model for Scratch {
    ghost use Rattle.std.specs.Prelude.{◌≡◌};
    ghost use Rattle.profile.specs.Sizes.{Sizes};
    ghost use Rattle.os_heap.specs.Memory.{page_total};

    ghost Value = { Sizes };

    ghost view = { λ s. s.sizes };

    ghost invariant = { λ s. page_total s.memory ≡ s.sizes.pages };
}

impl Scratch {
    /// One for memories of a machine of these sizes.
    ///
    /// # Errors
    ///
    /// Where memory is missing.
    pub fn new(alloc: Global, config: Config) -> Result<Scratch, AllocError>
        ensures { IfOk result (λ s. s ≡ config) }
    {
        Ok(Scratch {
            memory: AddressMap::new(alloc, config.pages())?,
            sizes: config,
        })
    }

    /// The pages of the application space of the machine that it is for.
    pub fn app(&self) -> u32
        ensures value { result ≡ self.now.app }
        ensures sizes { AreGood self.now }
    {
        self.sizes.app()
    }

    /// The number of the error that a call ends with whose entry comes back with an outcome, if it
    /// ends so before more module code runs. The copy of the modules is a local: this function has
    /// a large frame, so it is a call of its own.
    #[inline(never)]
    pub fn error_after(
        &mut self,
        memory: &AddressMap,
        areas: &Areas,
        instances: &Instances,
        plan: &Plan,
        outcome: Outcome,
    ) -> Option<u32>
        requires state { IsMapUnderWay memory.now areas.now instances.now plan.now }
        requires sizes { areas.now.sizes ≡ self.old }
        ensures error { result ≡ error_ahead (module_state_of memory.now areas.now instances.now)
            (plan_after_code plan.now outcome) }
        ensures same { self.new ≡ self.old }
    {
        areas_count_pages();
        self.memory.copy_from(memory);
        let mut modules = Instances::new();
        modules.copy_from(instances);
        let mut plan = plan.copied();
        let code = modules.carry(&mut self.memory, areas, &mut plan, outcome);
        if code.is_some() {
            return None;
        }
        match plan.end() {
            Ended::Own(r0) => Some(error_at(&self.memory, r0)),
            Ended::Well | Ended::System(_) => None,
        }
    }
}
