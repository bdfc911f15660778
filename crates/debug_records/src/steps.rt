//! The steps of a line, taken one by one by the twin.

ghost use Rattle.std.specs.Prelude.{◌≡◌, ◌<◌, ◌==◌, true, codes, is_some, IfOk, OnOk};
ghost use Rattle.trace_json.specs.GuestState.{state_of};
ghost use Rattle.debug_records.specs.LineRecords.{Adds};
ghost use Rattle.debug_records.specs.Moments.{AreStepRecords, IsRest};
ghost use Rattle.debug_records.specs.Recording.{twin_machine};
ghost use Rattle.debug_records.specs.Taking.{IsMadeBefore, IsNoText, IsShown, IsStepPushed, IsStepShown, IsStepTaken, IsTakenFrom};
ghost use Rattle.trace_json.specs.MachineState.{MachineState};
ghost use Rattle.trace_json.specs.Moments.{IsCopy, ShowsChanges, step_place};

use crate::answers::AnsweredLine;
use crate::recorder::Twin;
use crate::records::{skip_head, step_head};
use crate::taking::{
    enter_first, make_call, outside_call, settle_last, take_or_let, take_rest, written_by_stub,
};
use arm_core::Cpu;
use debug_lines::SteppingCommand;
use debug_session::{OutsideCall, RunError};
use profile::Sink;
use profile::text_sink::TextSink;
use std::alloc::{AllocError, Global};
use trace_effects::record_text::RecordText;
use trace_effects::shown_registers::WrittenRegisters;
use trace_json::{
    Machine, MachineCopy, StepBefore, plain_steps_store, push_skip, push_skip_changes,
};

impl Twin {
    /// Records so many of the steps that a line has taken one by one.
    pub(crate) fn record_each<W: Sink>(
        &mut self,
        line: &AnsweredLine<'_>,
        count: u64,
        sink: &mut W,
    ) -> Result<(), RunError>
        ensures { OnOk result (Adds (AreStepRecords line.now.before line.now.taken count
            (twin_machine self.old) (twin_machine self.new)) (W.contents sink.old) (W.contents sink.new)) }
    {
        for index in 0..count {
            let number = line.before.saturating_add(index + 1);
            let is_last = index + 1 == line.taken;
            let place = self.show_step(line, index, is_last)?;
            let head = step_head(self.alloc, number, place)?;
            self.print_moment(&head, sink)?;
        }
        Ok(())
    }

    // Takes a step, and writes the fields of its record. Gives the address at which it was made.
    fn show_step(
        &mut self,
        line: &AnsweredLine<'_>,
        index: u64,
        is_last: bool,
    ) -> Result<Option<u32>, AllocError>
        ensures { IfOk result (λ place. IsStepShown (index == 0) is_last (twin_machine self.old)
            (twin_machine self.new) place self.new.changes) }
    {
        let shown = *self.session.machine().cpu();
        self.clear();
        let mut printed = TextSink::new(self.alloc);
        let (before, stub) = self.begin(&line.command, index, &mut printed)?;
        settle_last(&mut self.session.session, line.session, is_last);
        self.push_step(&before, &shown, &stub, printed.bytes())
    }

    // Writes the fields of a step that was taken, behind those that it began with, and where images stand if it
    // has moved one.
    fn push_step(
        &mut self,
        before: &StepBefore,
        shown: &Cpu,
        stub: &WrittenRegisters,
        printed: &[u8],
    ) -> Result<Option<u32>, AllocError>
        ensures { IfOk result (λ place. IsStepPushed before.now shown.now self.old self.new place) }
    {
        let machine = self.session.machine();
        before.push_reads(&mut self.front, machine)?;
        before.push_changes(self.alloc, &mut self.changes, shown, machine, stub)?;
        before.push_rest(self.alloc, &mut self.text, machine, printed)?;
        if !before.may_move_images() {
            return Ok(before.place());
        }
        self.push_places(None)?;
        Ok(before.place())
    }

    /// No fields of a record yet.
    pub(crate) fn clear(&mut self)
        ensures changes { IsNoText self.new.changes }
        ensures session { self.new.session ≡ self.old.session }
    {
        self.front.clear();
        self.changes.clear();
        self.text.clear();
    }

    // Begins the record of a step of a line, and takes it; before the first the routine is entered that a
    // line calls.
    fn begin(
        &mut self,
        command: &Option<SteppingCommand<'_>>,
        index: u64,
        printed: &mut TextSink,
    ) -> Result<(StepBefore, WrittenRegisters), AllocError>
        ensures taken { IfOk result
            (λ r. IsStepTaken (index == 0) (twin_machine self.old) (twin_machine self.new) r.0) }
        ensures changes { OnOk result (self.new.changes ≡ self.old.changes) }
    {
        let Some(call) = outside_call(command, index) else {
            enter_first(&mut self.session.session, command, index);
            return self.begin_entered(printed);
        };
        let machine = self.session.machine();
        let before = before_call(self.alloc, &mut self.front, machine, call)?;
        make_call(&mut self.session.session, &self.images, printed, call)?;
        Ok((before, WrittenRegisters::new()))
    }

    // That of a step that is no call from outside.
    fn begin_entered(
        &mut self,
        printed: &mut TextSink,
    ) -> Result<(StepBefore, WrittenRegisters), AllocError>
        ensures taken { IfOk result (λ r. IsTakenFrom (twin_machine self.old) (twin_machine self.new) r.0) }
        ensures inside { IfOk result (λ r. is_some (step_place r.0) ≡ true) }
        ensures changes { OnOk result (self.new.changes ≡ self.old.changes) }
    {
        plain_steps_store();
        let machine = self.session.machine();
        let deed = self.session.stubs().ahead(machine);
        let before = StepBefore::step(self.alloc, &mut self.front, machine, deed.is_some())?;
        take_or_let(&mut self.session.session, &self.images, printed, &deed)?;
        Ok((before, written_by_stub(&deed)))
    }

    /// Records the steps that a line has taken past the limit as one.
    pub(crate) fn record_rest<W: Sink>(
        &mut self,
        line: &AnsweredLine<'_>,
        sink: &mut W,
    ) -> Result<(), RunError>
        requires { line.now.limit < line.now.taken }
        ensures { OnOk result (Adds (IsRest line.now.before line.now.limit line.now.taken
            (twin_machine self.old) (twin_machine self.new)) (W.contents sink.old) (W.contents sink.new)) }
    {
        self.show_rest(line)?;
        let last = line.before.saturating_add(line.taken);
        let head = skip_head(self.alloc, last, line.taken - line.limit)?;
        self.print_moment(&head, sink)
    }

    // Takes these steps, and writes the fields of their record.
    fn show_rest(&mut self, line: &AnsweredLine<'_>) -> Result<(), AllocError>
        requires { line.now.limit < line.now.taken }
        ensures { let s = twin_machine self.old in OnOk result
            (IsShown (codes "next") s.cpu.pc s (twin_machine self.new) self.new.changes) }
    {
        let copy = MachineCopy::of(self.alloc, self.session.machine())?;
        self.clear();
        let mut printed = TextSink::new(self.alloc);
        take_rest(&mut self.session, &self.images, &mut printed, line)?;
        settle_last(&mut self.session.session, line.session, true);
        self.push_rest(&copy, printed.bytes())
    }

    // Writes these fields, against a copy of the machine before.
    fn push_rest(&mut self, copy: &MachineCopy, printed: &[u8]) -> Result<(), AllocError>
        ensures { (s : MachineState) → IsCopy copy.now s → OnOk result (ShowsChanges (codes "next") s.cpu.pc s
            (twin_machine self.new) self.old.changes self.new.changes) }
    {
        let machine = self.session.machine();
        push_skip_changes(self.alloc, &mut self.changes, copy, machine)?;
        push_skip(self.alloc, &mut self.text, copy, machine, printed)?;
        self.push_places(None)
    }
}

// Begins the fields of the record of such a call.
fn before_call(
    alloc: Global,
    front: &mut RecordText,
    machine: &Machine,
    call: OutsideCall<'_>,
) -> Result<StepBefore, AllocError>
    ensures { IfOk result (λ before. IsMadeBefore before (state_of machine.now.guest)) }
{
    match call {
        OutsideCall::Swi(number) => StepBefore::call(alloc, front, machine, number),
        OutsideCall::Load(words) => StepBefore::load(alloc, front, machine, words),
    }
}
