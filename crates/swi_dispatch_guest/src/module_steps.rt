//! Calls on modules that may run module code, step by step: how such a call begins, goes on at the
//! return gate, where module code comes back, and ends (RISC OS 3 Programmer's Reference Manual,
//! "Modules" and "OS_Module").

ghost use Rattle.std.specs.Prelude.{◌≡◌, false, Some, IfOk};
ghost use Rattle.swi_dispatch_plans.specs.Busy.{is_swi};
ghost use Rattle.swi_dispatch_plans.specs.Frames.{innermost_frame};
ghost use Rattle.swi_dispatch_plans.specs.Trials.{module_state_carried};
ghost use Rattle.swi_dispatch_guest.specs.Gates.{Resumes, ended_of, fault_kept, loaded_entered, outcome_of_gate, plan_left, state_after_plan, state_with_code_entered};

use crate::guest::Guest;
use crate::halt::Halt;
use profile::{ErrorNumber, Fault};
use swi_dispatch_plans::module_code::{leave_swi, open_code, outcome_left};
use swi_dispatch_plans::{Call, Ended, Frame, FrameKind, Given, Outcome, Plan};

impl Guest {
    ghost use Rattle.swi_dispatch_guest.specs.GuestState.{state_of};
    ghost use Rattle.swi_dispatch_guest.specs.MachineState.{machine_module_state, silent, setting_of};
    ghost use Rattle.swi_dispatch_guest.specs.Step.{begun_alone, call_of};
    ghost use Rattle.swi_dispatch_plans.specs.Beginning.{CanBegin};

    /// A call begins whose plan is made, or is refused.
    #[tactic(auto, unfolding(crate::specs::Step::outcome_of_planned))]
    pub(crate) fn begin(&mut self, call: Call, planned: Result<Plan, ErrorNumber>)
        requires made { call ≡ call_of (state_of self.old) call.is_x call.next false }
        requires begins { IfOk planned (CanBegin (setting_of (state_of self.old))) }
        ensures { silent (state_of self.new) ≡ begun_alone (state_of self.old) call.is_x call.next planned }
    {
        match planned {
            Ok(plan) => {
                let mut plan = plan;
                let code = self
                    .instances
                    .carry(&mut self.memory, &self.areas, &mut plan, Outcome::Well);
                let (kept, ended) = open_code(&mut self.cpu, &mut self.frames, call, plan, code);
                self.plan = kept;
                self.finish(call, ended);
            }
            Err(error) => self.refuse_call(call, error),
        }
    }

    /// A call goes back if its plan has ended: nothing of it is left then.
    pub(crate) fn finish(&mut self, call: Call, ended: Option<Plan>)
        ensures { state_of self.new ≡ state_after_plan (state_of self.old) call ended }
    {
        let Some(plan) = ended else {
            return;
        };
        match plan.end() {
            Ended::Own(r0) => {
                self.answer(0, r0);
                self.go_back(call.caller, true, call.next);
            }
            _ => {
                self.go_back(call.caller, false, call.next);
                if call.enters {
                    self.enter_loaded(plan.given());
                }
            }
        }
    }

    // A module that was loaded to be run is entered, if it is there and has a start.
    fn enter_loaded(&mut self, given: &Given)
        ensures { state_of self.new ≡ loaded_entered (state_of self.old) given.now }
    {
        if let Ok(start) = self.instances.start(given.header.title.as_slice()) {
            self.open_module(start, given.text.as_slice());
        }
    }

    /// What a step does at the gate. Where no frame is open, there is nothing to be fetched.
    pub(crate) fn pass_gate(&mut self)
        ensures { silent (state_of self.new) ≡ outcome_of_gate (state_of self.old) }
    {
        let Some(frame) = self.frames.innermost() else {
            return self.halt_with(Halt::Fault(Fault::FetchUnmapped));
        };
        let frame = *frame;
        if !frame.has_its_stack(&self.cpu) {
            return self.halt_with(Halt::Fault(Fault::StackChanged));
        }
        if let FrameKind::Entry(_) = frame.kind {
            return self.leave_entry(frame);
        }
        match leave_swi(&mut self.cpu, &self.memory, &frame) {
            Ok(()) => self.frames.close(),
            Err(number) => self.halt_with(Halt::Fault(Fault::ErrorStop(number))),
        }
    }

    // The call whose entry it was is carried on. Where its caller takes no error, and there is one,
    // nothing is changed.
    #[inline(never)]
    fn leave_entry(&mut self, frame: Frame)
        requires last { innermost_frame (state_of self.old).tables.frames ≡ Some frame }
        requires entry { is_swi frame.kind ≡ false }
        ensures { silent (state_of self.new)
            ≡ plan_left (state_of self.old) frame (state_of self.old).tables.plan }
    {
        let outcome = outcome_left(&self.cpu);
        if let Some(number) = self.fault_ahead(frame.call, outcome) {
            return self.halt_with(Halt::Fault(Fault::ErrorStop(number)));
        }
        let ended = self.resume(frame, outcome);
        self.finish(frame.call, ended);
    }

    // The core is the caller's again, the frame is closed, and the plan that is kept, as one is
    // while an entry's frame is open, is carried on. Answers it if it has ended.
    fn resume(&mut self, frame: Frame, outcome: Outcome) -> Option<Plan>
        requires last { innermost_frame (state_of self.old).tables.frames ≡ Some frame }
        requires entry { is_swi frame.kind ≡ false }
        ensures { Resumes (state_of self.old) frame outcome (state_of self.old).tables.plan result
            (state_of self.new) }
    {
        let mut plan = self.plan.take()?;
        frame.leave(&mut self.cpu);
        self.frames.close();
        let code = self
            .instances
            .carry(&mut self.memory, &self.areas, &mut plan, outcome);
        let (kept, ended) = open_code(&mut self.cpu, &mut self.frames, frame.call, plan, code);
        self.plan = kept;
        ended
    }

    // The number of the error that a call ends with whose entry comes back with this outcome, if it
    // ends with one that its caller doesn't take.
    fn fault_ahead(&mut self, call: Call, outcome: Outcome) -> Option<u32>
        ensures value { result ≡ fault_kept call (machine_module_state (state_of self.old)) outcome
            (state_of self.old).tables.plan }
        ensures same { self.new ≡ self.old }
    {
        if call.is_x {
            return None;
        }
        let Some(plan) = &self.plan else {
            return None;
        };
        self.scratch
            .error_after(&self.memory, &self.areas, &self.instances, plan, outcome)
    }
}
