//! Store calls: what each does and prints, and how a guest comes back from one.

ghost use Rattle.std.specs.Prelude.{ℕ, ◌≡◌, ◌<◌, ◌≤◌, ◌^◌, false, [], None, Some, OnErr};
ghost use Rattle.profile.specs.ErrorNames.{error_code};
ghost use Rattle.profile.specs.Outcome.{Leaves};
ghost use Rattle.profile.specs.ErrorNumber.{ErrorNumber};
ghost use Rattle.profile.specs.Fault.TheVariants.{ErrorStop};
ghost use Rattle.swi_dispatch_plans.specs.Call.{Call};
ghost use Rattle.swi_dispatch_plans.specs.flex.Calls.{flex_called};
ghost use Rattle.swi_dispatch_plans.specs.store.Areas.{area_changed, change_asked};
ghost use Rattle.swi_dispatch_guest.specs.Step.{call_of, is_exit, os_module_called, outcome_of_answer, outcome_of_call};

use crate::guest::Guest;
use crate::halt::Halt;
use arm_run::{Mode, Psr};
use arrayvec::ArrayVec;
use profile::{ErrorNumber, Fault, ModuleReason, SwiName};
use swi_dispatch_plans::flex::call_flex;
use swi_dispatch_plans::modules::call_module;
use swi_dispatch_plans::store::{call_area, call_heap, change_area, change_error, read_area};
use swi_dispatch_plans::{Call, Images, Refusal, TextEnd, next_word, return_to, text_at};

/// The most bytes that a step can print.
pub const MOST_PRINTED: usize = 4096;

/// What a step prints.
pub type Output = ArrayVec<u8, MOST_PRINTED>;

impl Guest {
    ghost use Rattle.swi_dispatch_guest.specs.Answers.{with_answer};
    ghost use Rattle.swi_dispatch_guest.specs.Calls.{area_changing, call_answer, machine_flex, machine_in_supervisor, moving_error, on_flex};
    ghost use Rattle.swi_dispatch_guest.specs.Calls.{printable_at, with_guest, wrote_text_after, wrote_text_at};
    ghost use Rattle.arm_run.specs.State.{register_of};
    ghost use Rattle.swi_dispatch_guest.specs.MachineState.{machine_area_store, outcome_with, silent};
    ghost use Rattle.swi_dispatch_guest.specs.GuestState.{Answers, state_of};
    ghost use Rattle.swi_dispatch_guest.specs.Returns.{gone_back, outcome_of_halt};

    /// A store call as the guest makes it in its present status. `is_x` says whether an error goes
    /// back to the guest, and `next` where the guest goes on.
    pub(crate) fn call_of(&self, is_x: bool, next: u32) -> Call
        ensures { result ≡ call_of (state_of self.now) is_x next false }
    {
        Call {
            is_x,
            caller: self.cpu.psr(),
            next,
            enters: false,
        }
    }

    /// A store call by its number without the X bit.
    #[tactic(auto, unfolding(crate::specs::Step::outcome_of_call))]
    pub(crate) fn call(&mut self, images: &Images, output: &mut Output, call: Call, number: u32)
        requires made { call ≡ call_of (state_of self.old) call.is_x call.next false }
        requires next { call.next < 2 ^ 26 }
        requires unprinted { output.old.items ≡ [] }
        ensures { outcome_with (state_of self.new) output.new.items
            ≡ outcome_of_call images.now (state_of self.old) call.is_x call.next number }
    {
        let name = SwiName::of(number);
        if is_exit(name) {
            return self.halt_with(Halt::Exit);
        }
        match name {
            None => self.call_module(call, number),
            Some(SwiName::Module) => self.call_os_module(images, output, call, number),
            Some(_) => self.call_system(output, call, number, name),
        }
    }

    // OS_Module, by its reason in R0.
    #[tactic(auto, unfolding(crate::specs::Step::os_module_called))]
    #[inline(never)]
    fn call_os_module(&mut self, images: &Images, output: &mut Output, call: Call, number: u32)
        requires made { call ≡ call_of (state_of self.old) call.is_x call.next false }
        requires next { call.next < 2 ^ 26 }
        requires unprinted { output.old.items ≡ [] }
        ensures { outcome_with (state_of self.new) output.new.items
            ≡ os_module_called images.now (state_of self.old) call.is_x call.next number }
    {
        match ModuleReason::of(self.cpu.register(0)) {
            Some(ModuleReason::Run) => self.load_named(
                images,
                Call {
                    enters: true,
                    ..call
                },
            ),
            Some(ModuleReason::Load) => self.load_named(images, call),
            Some(ModuleReason::Enter) => self.enter_module(call),
            Some(ModuleReason::Reinit) => {
                let planned = self.planner().reinit();
                self.begin(call, planned)
            }
            Some(ModuleReason::Delete) => {
                let planned = self.planner().delete();
                self.begin(call, planned)
            }
            Some(ModuleReason::Tidy) => {
                let planned = self.planner().tidy(call.next);
                self.begin(call, planned)
            }
            Some(ModuleReason::Clear) => {
                let planned = self.planner().clear();
                self.begin(call, planned)
            }
            Some(ModuleReason::Insert) => self.insert_range(call),
            Some(ModuleReason::InsertCopy) => self.insert_copy(call),
            Some(ModuleReason::Instantiate) => {
                let planned = self.planner().instantiation();
                self.begin(call, planned)
            }
            _ => self.call_system(output, call, number, Some(SwiName::Module)),
        }
    }

    // A call of the system's own.
    #[tactic(auto, using(crate::proofs::Answering::ended_done, crate::proofs::Answering::ended_error))]
    fn call_system(&mut self, output: &mut Output, call: Call, number: u32, name: Option<SwiName>)
        requires made { call ≡ call_of (state_of self.old) call.is_x call.next false }
        requires next { call.next < 2 ^ 26 }
        requires unprinted { output.old.items ≡ [] }
        ensures { outcome_with (state_of self.new) output.new.items
            ≡ outcome_of_answer (state_of self.old) call.is_x
            (call_answer (state_of self.old) call.next number name) }
    {
        if !call.is_x
            && let Some(error) = self.moving_error(name)
        {
            return self.halt_with(Halt::Fault(Fault::ErrorStop(error.number())));
        }
        let mut call = call;
        match self.perform(output, &mut call, number, name) {
            Ok(()) => self.go_back(call.caller, false, call.next),
            Err(refusal) => self.end_with_error(call, refusal),
        }
    }

    // What the call itself does; it may move the place where the guest goes on.
    #[tactic(auto, using(crate::proofs::AreaAnswers::errs_moving), unfolding(crate::specs::Calls::call_answer))]
    fn perform(
        &mut self,
        output: &mut Output,
        call: &mut Call,
        number: u32,
        name: Option<SwiName>,
    ) -> Result<(), Refusal>
        requires next { call.old.next < 2 ^ 26 }
        requires unprinted { output.old.items ≡ [] }
        ensures done { Answers (call_answer
            (state_of self.old) call.old.next number name) call.new.next result
            (outcome_with (state_of self.new) output.new.items) }
        ensures call { call.new ≡ record call.old { next = call.new.next } }
        ensures unmoved { OnErr result (moving_error (state_of self.old) name ≡ None
            → state_of self.new ≡ state_of self.old) }
        ensures unprinted { OnErr result (output.new.items ≡ []) }
    {
        match name {
            Some(SwiName::WriteC) => output.push((self.cpu.register(0) % 256) as u8),
            Some(SwiName::WriteS) => return self.write_text_after(output, call),
            Some(SwiName::Write0) => return self.write_text(output),
            Some(SwiName::NewLine) => {
                output.push(10);
                output.push(13);
            }
            Some(SwiName::EnterOs) => self.enter_supervisor(),
            Some(SwiName::Heap) => return call_heap(&mut self.cpu, &mut self.memory),
            Some(SwiName::Module) => return call_module(
                &mut self.cpu,
                &mut self.memory,
                &mut self.areas,
                &mut self.instances,
            ),
            Some(SwiName::ChangeDynamicArea) => return self.change_area(),
            Some(SwiName::ReadDynamicArea) => return read_area(
                &mut self.cpu,
                &self.memory,
                &self.areas,
            ),
            Some(SwiName::DynamicArea) => return call_area(
                &mut self.cpu,
                &mut self.memory,
                &mut self.areas,
            ),
            Some(SwiName::GenerateError) => return Err(self.own_error()),
            Some(SwiName::WriteI) => output.push((number % 256) as u8),
            _ => return self.call_flex(name),
        }
        Ok(())
    }

    // OS_ChangeDynamicArea. Pages move even where not all can.
    fn change_area(&mut self) -> Result<(), Refusal>
        ensures { (next : ℕ) → Answers (area_changing (state_of self.old) next) next result
            (silent (state_of self.new)) }
    {
        match self.resize_area() {
            None => Ok(()),
            Some(error) => Err(Refusal::System(error)),
        }
    }

    fn resize_area(&mut self) -> Option<ErrorNumber>
        ensures error { let s = state_of self.old in result ≡
            (change_asked s.cpu (machine_area_store s)).error }
        ensures state { let s = state_of self.old in
            (state_of self.new) ≡ with_guest s (area_changed s.cpu (machine_area_store s)) }
    {
        change_area(&mut self.cpu, &mut self.memory, &mut self.areas)
    }

    // A flex call by its name; any other is unknown.
    fn call_flex(&mut self, name: Option<SwiName>) -> Result<(), Refusal>
        ensures { let s = state_of self.old in
            Leaves s (on_flex s (flex_called s.cpu (machine_flex s) name)) result (state_of self.new) }
    {
        self.instances.count();
        call_flex(&mut self.cpu, &mut self.memory, &mut self.flex, name)
    }

    // The error with which a call would end after it changed something. Without the X bit it is a
    // fault instead, and nothing is changed.
    #[tactic(auto, using(crate::proofs::AreaAnswers::moving_stop))]
    fn moving_error(&self, name: Option<SwiName>) -> Option<ErrorNumber>
        ensures value { result ≡ moving_error (state_of self.now) name }
        ensures stop { (e : ErrorNumber) → result ≡ Some e → (next number : ℕ)
            → outcome_of_answer (state_of self.now) false (call_answer (state_of self.now) next number name)
            ≡ outcome_of_halt (state_of self.now) (Halt.Fault (ErrorStop (error_code e))) }
    {
        self.cpu.known();
        match name {
            Some(SwiName::ChangeDynamicArea) => change_error(&self.cpu, &self.memory, &self.areas),
            _ => None,
        }
    }

    // OS_WriteS: the text stands after the instruction, and the guest goes on after it.
    fn write_text_after(&self, output: &mut Output, call: &mut Call) -> Result<(), Refusal>
        requires unprinted { output.old.items ≡ [] }
        ensures done { let s = state_of self.now in
            Answers (wrote_text_after s call.old.next
            (printable_at s.store.bytes call.old.next)) call.new.next
            result (outcome_with s output.new.items) }
        ensures call { call.new ≡ record call.old { next = call.new.next } }
        ensures unprinted { OnErr result (output.new.items ≡ []) }
    {
        let Some(text) = text_at(&self.memory, call.next, TextEnd::Zero) else {
            return Err(Refusal::System(ErrorNumber::BadString));
        };
        call.next = next_word(call.next + text.len() as u32 + 1);
        *output = text;
        Ok(())
    }

    // OS_Write0: R0 points to the text, and past its end afterwards.
    fn write_text(&mut self, output: &mut Output) -> Result<(), Refusal>
        requires unprinted { output.old.items ≡ [] }
        ensures done { (next : ℕ) → let at = register_of (state_of self.old).cpu 0 in
            Answers (wrote_text_at (state_of self.old) next at
            (printable_at (state_of self.old).store.bytes at)) next result
            (outcome_with (state_of self.new) output.new.items) }
        ensures unmoved { OnErr result (state_of self.new ≡ state_of self.old) }
        ensures unprinted { OnErr result (output.new.items ≡ []) }
    {
        let at = self.cpu.register(0);
        let Some(text) = text_at(&self.memory, at, TextEnd::Zero) else {
            return Err(Refusal::System(ErrorNumber::BadString));
        };
        self.answer(0, at + text.len() as u32 + 1);
        *output = text;
        Ok(())
    }

    /// Sets a register of the caller's mode to an answer.
    pub(crate) fn answer(&mut self, number: u32, value: u32)
        requires { number ≤ 14 }
        ensures { state_of self.new ≡ with_answer (state_of self.old) number value }
    {
        self.cpu.set_register(number, value);
    }

    fn enter_supervisor(&mut self)
        ensures { state_of self.new ≡ machine_in_supervisor (state_of self.old) }
    {
        self.cpu.set_mode(Mode::Supervisor);
    }

    /// The guest goes on, with the return address in the link register of supervisor mode.
    pub(crate) fn go_back(&mut self, caller: Psr, is_refused: bool, next: u32)
        ensures { state_of self.new ≡ gone_back caller (state_of self.old) is_refused next }
    {
        return_to(&mut self.cpu, caller, is_refused, next);
    }
}

fn is_exit(name: Option<SwiName>) -> bool
    ensures { result ≡ is_exit name }
{
    matches!(name, Some(SwiName::Exit))
}
