//! One step of a guest; and the machine's runs of steps, within a budget and up to a break, of all
//! kinds or only of instructions that the core does by itself, and what they print.

ghost use Rattle.std.specs.Prelude.{◌≡◌, ◌≢◌, ◌<◌, ◌==◌, ◌≤◌, ◌↔◌, None, Some, Err, List, [], true, IsTrue, IfOk, OnOk, OnErr};
ghost use Rattle.arm_run.specs.StepEnd.TheVariants.{Done};
ghost use Rattle.swi_dispatch_guest.specs.GuestState.{AreCoreSteps, AwaitsOtherTurn, IsGuest, TakesTurn, state_of};
ghost use Rattle.swi_dispatch_guest.specs.Run.{ran, stop_after, count_after, last_or, silent_run, silent_last, silent_stop};
ghost use Rattle.swi_dispatch_guest.specs.MachineState.{outcome_with};
ghost use Rattle.swi_dispatch_guest.specs.Step.{machine_step};
ghost use Rattle.std.specs.Io.KnownBytes.{Appends};
ghost use Rattle.profile.specs.Output.{AddsPart};
ghost use Rattle.swi_dispatch_guest.specs.Ending.{Ends, StandsAfter};

use crate::calls::Output;
use crate::guest::Guest;
use crate::machine::Machine;
use arm_run::{Breaks, StepEnd, run};
use profile::{Sink, Stop, WriteFault, push_all};
use swi_dispatch_plans::Images;

/// Why a run ended, and how many of its steps count against a budget: all but one that ended in a
/// fault.
#[derive(Clone, Copy)]
pub struct Ran {
    pub stop: Stop,
    pub taken: u64,
}

impl Ran {
    // Whether nothing but the budget ended the run.
    fn goes_on(self) -> bool
        ensures { IsTrue result ↔ (self.stop ≡ Stop.Budget) }
    {
        self.stop == Stop::Budget
    }
}

impl Machine {
    ghost use Rattle.swi_dispatch_plans.specs.Entries.{Entry};
    ghost use Rattle.swi_dispatch_guest.specs.Value.{HasRun, IsMachine};

    /// Takes steps and writes what each prints, until the machine is halted, or the new program
    /// counter is among the breaks, or `budget` steps are taken, tested in that order after each
    /// step. A start on a break isn't tested. A halted machine takes no step.
    ///
    /// # Errors
    ///
    /// `WriteFault` where the sink failed; the machine then stands after the step whose output
    /// failed.
    pub fn run<W: Sink>(
        &mut self,
        images: &Images,
        breaks: &Breaks,
        sink: &mut W,
        budget: u64,
    ) -> Result<Ran, WriteFault>
        ensures ends { IfOk result (λ r. Ends (ran images.now breaks.now budget (state_of self.old.guest))
            (state_of self.new.guest) self.old.printed self.new.printed
            (W.contents sink.old) (W.contents sink.new) r.taken r.stop) }
        ensures count { IfOk result (λ r. r.taken ≤ budget) }
        ensures rest { HasRun self.old self.new (budget == 0) }
        ensures kept { IsMachine self.new }
        ensures stands { OnErr result (StandsAfter images.now breaks.now budget (state_of self.old.guest)
            (state_of self.new.guest) self.new.printed (W.contents sink.old) (W.contents sink.new)) }
        ensures flag { OnErr result (W.has_failed sink.new ≡ true) }
        ensures same_flag { OnOk result (W.has_failed sink.new ≡ W.has_failed sink.old) }
    {
        self.is_fresh &= budget == 0;
        let guest = &mut self.guest;
        let output = &mut self.printed;
        guest.known();
        if let Some(stop) = guest.stop() {
            return Ok(Ran { stop, taken: 0 });
        }
        let mut taken = 0;
        while taken < budget {
            let (silent, next) = run(
                &mut guest.cpu,
                &mut guest.memory,
                &mut guest.ready,
                breaks,
                budget - taken,
            );
            guest.known();
            clear_after(output, silent);
            taken += silent;
            let turn = match next {
                Ok(turn) => turn,
                Err(stop) => return Ok(Ran { stop, taken }),
            };
            let one = guest.run_one(images, breaks, output, sink, turn)?;
            taken += one.taken;
            if !one.goes_on() {
                return Ok(Ran { taken, ..one });
            }
        }
        let stop = Stop::Budget;
        Ok(Ran { stop, taken })
    }

    /// Takes up to so many steps of a machine that isn't halted, as long as each is an instruction
    /// that neither prints nor halts it, and no further than to a break. A start on a break isn't
    /// tested. The stop is `Budget` where another step may come next: after fewer steps than were
    /// asked for, one that is no such instruction.
    pub fn run_silently(&mut self, breaks: &Breaks, most: u64) -> Ran
        requires some { 0 < most }
        requires unhalted { (state_of self.old.guest).halt ≡ None }
        ensures ran { (images : List Entry) → ran images breaks.now result.taken (state_of self.old.guest)
            ≡ silent_run (state_of self.new.guest) result.taken result.stop }
        ensures steps { AreCoreSteps result.taken (state_of self.old.guest) (state_of self.new.guest) }
        ensures unhalted { (state_of self.new.guest).halt ≡ None }
        ensures count { result.taken ≤ most }
        ensures further { result.stop ≡ Stop.Budget → result.taken < most
            → AwaitsOtherTurn (state_of self.new.guest) }
        ensures rest { HasRun self.old self.new (result.taken == 0) }
        ensures printed { self.new.printed ≡ last_or self.old.printed (silent_last result.taken) }
        ensures kept { IsMachine self.new }
    {
        let (taken, next) = self.guest.run_silently(breaks, &mut self.printed, most);
        self.is_fresh &= taken == 0;
        self.known();
        let stop = match next {
            Ok(_) => Stop::Budget,
            Err(stop) => stop,
        };
        Ran { stop, taken }
    }
}

impl Guest {
    ghost use Rattle.swi_dispatch_plans.specs.Entries.{Entry};

    /// Takes one step of a guest that isn't halted: an instruction or a store call.
    pub(crate) fn step(&mut self, images: &Images, output: &mut Output)
        requires unhalted { (state_of self.old).halt ≡ None }
        requires unprinted { output.old.items ≡ [] }
        ensures { outcome_with (state_of self.new) output.new.items
            ≡ machine_step images.now (state_of self.old) }
    {
        let (_, next) = self.run_silently(&Breaks::new(), output, 1);
        match next {
            Ok(turn) => self.after_turn(images, output, turn),
            Err(_) => {}
        }
    }

    /// Takes up to so many steps, as long as each is an instruction that the core does by itself,
    /// which prints nothing and halts nothing, and no further than to a break. Answers how many,
    /// and the turn that comes next where that is another, or why a run of these steps ends.
    pub(crate) fn run_silently(
        &mut self,
        breaks: &Breaks,
        output: &mut Output,
        most: u64,
    ) -> (u64, Result<StepEnd, Stop>)
        requires some { 0 < most }
        requires unhalted { (state_of self.old).halt ≡ None }
        ensures ran { (images : List Entry) → ran images breaks.now result.0 (state_of self.old)
            ≡ silent_run (state_of self.new) result.0 (silent_stop result.1) }
        ensures steps { AreCoreSteps result.0 (state_of self.old) (state_of self.new) }
        ensures output { output.new.items ≡ last_or output.old.items (silent_last result.0) }
        ensures next { IfOk result.1 (λ turn. TakesTurn (state_of self.new) turn (state_of self.new)) }
        ensures other { IfOk result.1 (λ turn. turn ≢ Done) }
        ensures fewer { OnOk result.1 (result.0 < most) }
        ensures all { result.1 ≡ Err Stop.Budget → result.0 ≡ most }
        ensures unhalted { (state_of self.new).halt ≡ None }
        ensures most { result.0 ≤ most }
    {
        let silent = run(
            &mut self.cpu,
            &mut self.memory,
            &mut self.ready,
            breaks,
            most,
        );
        clear_after(output, silent.0);
        silent
    }

    // A run of one step of a guest that isn't halted, by the turn that comes next.
    fn run_one<W: Sink>(
        &mut self,
        images: &Images,
        breaks: &Breaks,
        output: &mut Output,
        sink: &mut W,
        turn: StepEnd,
    ) -> Result<Ran, WriteFault>
        requires unhalted { (state_of self.old).halt ≡ None }
        requires next { TakesTurn (state_of self.old) turn (state_of self.old) }
        ensures ends { IfOk result (λ r. Ends (ran images.now breaks.now 1 (state_of self.old))
            (state_of self.new) output.old.items output.new.items
            (W.contents sink.old) (W.contents sink.new) r.taken r.stop) }
        ensures unhalted { IfOk result (λ r. r.stop ≡ Stop.Budget → (state_of self.new).halt ≡ None) }
        ensures count { IfOk result (λ r. r.taken ≤ 1) }
        ensures stands { OnErr result (state_of self.new
            ≡ (ran images.now breaks.now 1 (state_of self.old)).now) }
        ensures output { OnErr result (Some output.new.items
            ≡ (ran images.now breaks.now 1 (state_of self.old)).last) }
        ensures part { OnErr result (AddsPart (W.contents sink.old) (W.contents sink.new) output.new.items) }
        ensures flag { OnErr result (W.has_failed sink.new ≡ true) }
        ensures same_flag { OnOk result (W.has_failed sink.new ≡ W.has_failed sink.old) }
        ensures known { IsGuest self.new }
    {
        output.clear();
        self.after_turn(images, output, turn);
        self.known();
        write_output(sink, output)?;
        Ok(self.ran_one(breaks))
    }

    // Why a run of one step ended, and how it counts.
    fn ran_one(&self, breaks: &Breaks) -> Ran
        ensures stop { result.stop ≡ stop_after breaks.now (state_of self.now) (state_of self.now).halt }
        ensures taken { result.taken ≡ count_after (state_of self.now).halt }
        ensures count { result.taken ≤ 1 }
    {
        if let Some(stop) = self.stop() {
            let taken = if stop == Stop::Exit { 1 } else { 0 };
            return Ran { stop, taken };
        }
        let at = self.cpu.pc();
        let mut stop = Stop::Budget;
        if breaks.has(at) {
            stop = Stop::Break(at);
        }
        Ran { stop, taken: 1 }
    }
}

// What was printed before stands on where no step is taken.
fn clear_after(output: &mut Output, taken: u64)
    ensures { output.new.items ≡ last_or output.old.items (silent_last taken) }
{
    if taken > 0 {
        output.clear();
    }
}

// Writes what the last step printed. Mostly it is nothing, and then nothing is asked of the sink.
fn write_output<W: Sink>(sink: &mut W, output: &Output) -> Result<(), WriteFault>
    ensures text { OnOk result (Appends (W.contents sink.old) (W.contents sink.new) output.now.items) }
    ensures part { OnErr result (AddsPart (W.contents sink.old) (W.contents sink.new) output.now.items) }
    ensures flag { OnErr result (W.has_failed sink.new ≡ true) }
    ensures same_flag { OnOk result (W.has_failed sink.new ≡ W.has_failed sink.old) }
{
    if output.is_empty() {
        return Ok(());
    }
    push_all(sink, output.as_slice())
}
