//! Steps, the lines that take them, RUN and STEP, and those that set breaks: BREAK and UNBREAK.

ghost use Rattle.std.specs.Prelude.{◌≡◌, ◌<◌, ◌≤◌, min, true, None, List, IfOk, OnOk, OnErr};
ghost use Rattle.profile.specs.declared.stop.Stop.TheVariants.{Budget};
ghost use Rattle.debugger.specs.GuestState.{AwaitsOtherTurn, state_of};
ghost use Rattle.command_shell.specs.Stepping.{break_refusal_name};

use crate::answers::{print_break, print_refused, print_stepped, print_stop, print_unbreak};
use crate::session::Session;
use debugger::{BreakError, Ran};
use profile::images::Images;
use profile::{Sink, WriteFault};

impl Session {
    ghost use Rattle.profile.specs.images.Entries.{Entry};
    ghost use Rattle.command_shell.specs.Session.{script_state};
    ghost use Rattle.command_shell.specs.State.{IsAnswered};
    ghost use Rattle.command_shell.specs.Stepping.{run_answer, step_answer, break_answer, unbreak_answer};
    ghost use Rattle.command_shell.specs.Stepping.{IsAfterSilentSteps, IsAfterRun};

    /// Takes so many steps, or as many as are left of the budget; fewer where the machine is halted
    /// or a break is reached. What the guest prints is written, and why the steps ended is the last
    /// stop then.
    ///
    /// # Errors
    ///
    /// `WriteFault` where the sink failed.
    pub fn take_steps<W: Sink>(
        &mut self,
        images: &Images,
        sink: &mut W,
        count: u64,
    ) -> Result<Ran, WriteFault>
        ensures ran { let s = script_state self.old images.now in
            IfOk result (λ ran. IsAfterRun s (min count s.left) (script_state self.new images.now)
            (W.contents sink.old) (W.contents sink.new) ran.taken ran.stop) }
        ensures flag { OnErr result (W.has_failed sink.new ≡ true) }
        ensures same_flag { OnOk result (W.has_failed sink.new ≡ W.has_failed sink.old) }
    {
        let most = count.min(self.left);
        let ran = self.machine.run(images, &self.breaks, sink, most)?;
        self.left -= ran.taken;
        self.last = Some(ran.stop);
        Ok(ran)
    }

    /// Takes up to so many steps of a machine that isn't halted, as long as each is an instruction
    /// that neither prints nor halts it, and no further than to a break. The stop is `Budget` where
    /// another step may come next: after fewer steps than were asked for, one that is no such
    /// instruction. The last stop that a line was answered with stays.
    pub fn take_silent_steps(&mut self, most: u64) -> Ran
        requires some { 0 < most }
        requires enough { most ≤ self.old.left }
        requires unhalted { (state_of self.old.machine.guest).halt ≡ None }
        ensures taken { (images : List Entry) → IsAfterSilentSteps (script_state self.old images)
            (script_state self.new images) result.taken result.stop }
        ensures count { result.taken ≤ most }
        ensures further { result.stop ≡ Budget → result.taken < most
            → AwaitsOtherTurn (state_of self.new.machine.guest) }
    {
        let ran = self.machine.run_silently(&self.breaks, most);
        self.left -= ran.taken;
        ran
    }

    /// Takes all the steps that are left, and shows the stop.
    pub(crate) fn run<W: Sink>(&mut self, images: &Images, sink: &mut W) -> Result<(), WriteFault>
        ensures reported { OnOk result (IsAnswered (W.contents sink.old) (W.contents sink.new)
            (script_state self.new images.now)
            (run_answer (script_state self.old images.now))) }
        ensures flag { OnErr result (W.has_failed sink.new ≡ true) }
        ensures same_flag { OnOk result (W.has_failed sink.new ≡ W.has_failed sink.old) }
    {
        let ran = self.machine.run(images, &self.breaks, sink, self.left)?;
        self.left -= ran.taken;
        self.last = Some(ran.stop);
        print_stop(sink, ran.stop, self.machine.cpu().pc())
    }

    /// Takes so many steps, or as many as are left, and says where the machine stands.
    pub(crate) fn step<W: Sink>(
        &mut self,
        images: &Images,
        sink: &mut W,
        count: u32,
    ) -> Result<(), WriteFault>
        ensures reported { OnOk result (IsAnswered (W.contents sink.old) (W.contents sink.new)
            (script_state self.new images.now)
            (step_answer (script_state self.old images.now) count)) }
        ensures flag { OnErr result (W.has_failed sink.new ≡ true) }
        ensures same_flag { OnOk result (W.has_failed sink.new ≡ W.has_failed sink.old) }
    {
        let count = u64::from(count);
        let could_all = count <= self.left;
        let ran = self.take_steps(images, sink, count)?;
        print_stepped(sink, could_all, ran.stop, self.machine.cpu().pc())
    }

    /// Adds a break.
    pub(crate) fn break_at<W: Sink>(&mut self, sink: &mut W, address: u32) -> Result<(), WriteFault>
        ensures reported { (images : List Entry) → OnOk result
            (IsAnswered (W.contents sink.old) (W.contents sink.new)
            (script_state self.new images)
            (break_answer (script_state self.old images) address)) }
        ensures flag { OnErr result (W.has_failed sink.new ≡ true) }
        ensures same_flag { OnOk result (W.has_failed sink.new ≡ W.has_failed sink.old) }
    {
        match self.breaks.add(address) {
            Ok(()) => print_break(sink, address),
            Err(error) => print_refused(sink, break_error_name(error)),
        }
    }

    /// Takes a break away.
    pub(crate) fn unbreak_at<W: Sink>(
        &mut self,
        sink: &mut W,
        address: u32,
    ) -> Result<(), WriteFault>
        ensures reported { (images : List Entry) → OnOk result
            (IsAnswered (W.contents sink.old) (W.contents sink.new)
            (script_state self.new images)
            (unbreak_answer (script_state self.old images) address)) }
        ensures flag { OnErr result (W.has_failed sink.new ≡ true) }
        ensures same_flag { OnOk result (W.has_failed sink.new ≡ W.has_failed sink.old) }
    {
        match self.breaks.remove(address) {
            Ok(()) => print_unbreak(sink, address),
            Err(error) => print_refused(sink, break_error_name(error)),
        }
    }
}

fn break_error_name(error: BreakError) -> &'static [u8]
    ensures { result.now ≡ break_refusal_name error }
{
    match error {
        BreakError::Unaligned => b"Unaligned",
        BreakError::BreakTableFull => b"BreakTableFull",
        BreakError::NoBreak => b"NoBreak",
    }
}
