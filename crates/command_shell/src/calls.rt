//! The lines CALL and LOAD: a store call or the loading of a module, and the steps of the module
//! code that it enters; a debugger may take them one by one.

ghost use Rattle.std.specs.Prelude.{◌≡◌, ◌≤◌, ◌<◌, ◌+◌, true, false, List, Option, IfOk, OnOk, OnErr};
ghost use Rattle.std.specs.Option.{option_map};
ghost use Rattle.std.specs.Io.KnownBytes.{Appends};
ghost use Rattle.profile.specs.Output.{Writes};
ghost use Rattle.debugger.specs.Halt.{Halt};
ghost use Rattle.debugger.specs.MachineState.{stop_of};
ghost use Rattle.debugger.specs.Run.{count_after};
ghost use Rattle.debugger.specs.GuestState.{state_of};

use crate::answers::{print_error, print_ok, print_stop};
use crate::session::Session;
use profile::images::Images;
use profile::{Sink, Stop, WriteFault, push_all};

/// A call that a script makes from outside the machine.
#[derive(Clone, Copy)]
pub enum OutsideCall<'a> {
    /// CALL: a SWI by its number.
    Swi(u32),
    /// LOAD: a module is loaded, by the name of an image and a text.
    Load(&'a [u8]),
}

/// Why such a call goes no further.
#[derive(Clone, Copy)]
pub enum CallEnd {
    /// As many frames are open as before it.
    Returned,
    /// The machine is halted, a break was reached, or the budget is used up.
    Stopped(Stop),
}

impl Session {
    ghost use Rattle.profile.specs.images.Entries.{Entry};
    ghost use Rattle.debugger.specs.Step.{machine_step};
    ghost use Rattle.command_shell.specs.Calls.{call_made, call_end, call_text, end_answer, answer_after_steps};
    ghost use Rattle.command_shell.specs.Calls.{first_step, step_made, stop_answer, stop_before_step};
    ghost use Rattle.command_shell.specs.Session.{script_state};
    ghost use Rattle.command_shell.specs.State.{IsAnswered};

    /// Makes a call, takes the steps of the module code that it enters, until that has come back,
    /// and says how the call ended.
    #[tactic(auto, unfolding(crate::specs::Calls::call_made))]
    pub(crate) fn call<W: Sink>(
        &mut self,
        images: &Images,
        sink: &mut W,
        call: OutsideCall,
    ) -> Result<(), WriteFault>
        ensures reported { OnOk result (IsAnswered (W.contents sink.old) (W.contents sink.new)
            (script_state self.new images.now)
            (call_made (script_state self.old images.now)
            (first_step (script_state self.old images.now) call.entry))) }
        ensures flag { OnErr result (W.has_failed sink.new ≡ true) }
        ensures same_flag { OnOk result (W.has_failed sink.new ≡ W.has_failed sink.old) }
    {
        match self.stop_before_step() {
            Some(stop) => self.stopped(sink, stop),
            None => {
                let frames = self.machine.frames();
                self.begin_call(images, sink, call)?;
                self.finish(images, sink, frames)
            }
        }
    }

    /// Why no step can be taken, if none can: the machine is halted, or no budget is left.
    pub fn stop_before_step(&self) -> Option<Stop>
        ensures { (images : List Entry) → result ≡ stop_before_step (script_state self.now images) }
    {
        match self.machine.stop() {
            None if self.left == 0 => Some(Stop::Budget),
            stop => stop,
        }
    }

    // Shows a stop, which is the last one then.
    fn stopped<W: Sink>(&mut self, sink: &mut W, stop: Stop) -> Result<(), WriteFault>
        ensures reported { (images : List Entry) → OnOk result
            (IsAnswered (W.contents sink.old) (W.contents sink.new)
            (script_state self.new images)
            (stop_answer (script_state self.old images) stop)) }
        ensures flag { OnErr result (W.has_failed sink.new ≡ true) }
        ensures same_flag { OnOk result (W.has_failed sink.new ≡ W.has_failed sink.old) }
    {
        self.last = Some(stop);
        print_stop(sink, stop, self.machine.cpu().pc())
    }

    /// Takes the first step of a call, writes what it prints, and answers why the machine is
    /// halted, if it is.
    ///
    /// # Errors
    ///
    /// `WriteFault` where the sink failed.
    pub fn begin_call<W: Sink>(
        &mut self,
        images: &Images,
        sink: &mut W,
        call: OutsideCall,
    ) -> Result<Option<Stop>, WriteFault>
        requires { 0 < (script_state self.old images.now).left }
        ensures halt { IfOk result (λ halt.
            halt ≡ option_map stop_of (script_state self.new images.now).machine.halt) }
        ensures state { OnOk result (script_state self.new images.now
            ≡ step_made (script_state self.old images.now)
            (first_step (script_state self.old images.now) call.entry)) }
        ensures text { OnOk result (Appends (W.contents sink.old) (W.contents sink.new)
            (first_step (script_state self.old images.now) call.entry).printed) }
        ensures flag { OnErr result (W.has_failed sink.new ≡ true) }
        ensures same_flag { OnOk result (W.has_failed sink.new ≡ W.has_failed sink.old) }
    {
        let halt = match call {
            OutsideCall::Swi(number) => self.machine.store_call(images, number),
            OutsideCall::Load(text) => self.machine.load_module(images, text),
        };
        self.count_step(sink, halt)?;
        Ok(halt)
    }

    /// Takes the steps of a call that is under way, until it ends, and says how. So many frames
    /// were open before it.
    ///
    /// # Errors
    ///
    /// `WriteFault` where the sink failed.
    #[tactic(auto, using(crate::proofs::CallLemmas::call_steps))]
    pub fn finish<W: Sink>(
        &mut self,
        images: &Images,
        sink: &mut W,
        frames: usize,
    ) -> Result<(), WriteFault>
        ensures reported { OnOk result (IsAnswered (W.contents sink.old) (W.contents sink.new)
            (script_state self.new images.now)
            (answer_after_steps frames (script_state self.old images.now).left
            (script_state self.old images.now))) }
        ensures flag { OnErr result (W.has_failed sink.new ≡ true) }
        ensures same_flag { OnOk result (W.has_failed sink.new ≡ W.has_failed sink.old) }
    {
        loop {
            match self.call_end(frames) {
                Some(end) => return self.print_end(sink, end),
                None => {
                    self.take_step(images, sink)?;
                }
            }
        }
    }

    /// Why a call that is under way goes no further, if it does not. So many frames were open
    /// before it.
    #[tactic(auto, unfolding(crate::specs::Calls::call_end))]
    pub fn call_end(&self, frames: usize) -> Option<CallEnd>
        ensures { (images : List Entry) → result ≡ call_end (script_state self.now images) frames }
    {
        if let Some(stop) = self.machine.stop() {
            return Some(CallEnd::Stopped(stop));
        }
        let at = self.machine.cpu().pc();
        if self.machine.frames() == frames {
            Some(CallEnd::Returned)
        } else if self.breaks.has(at) {
            Some(CallEnd::Stopped(Stop::Break(at)))
        } else if self.left == 0 {
            Some(CallEnd::Stopped(Stop::Budget))
        } else {
            None
        }
    }

    /// Says how a call ended; where it was stopped, that is the last stop then.
    ///
    /// # Errors
    ///
    /// `WriteFault` where the sink failed.
    pub fn print_end<W: Sink>(&mut self, sink: &mut W, end: CallEnd) -> Result<(), WriteFault>
        ensures reported { (images : List Entry) → OnOk result
            (IsAnswered (W.contents sink.old) (W.contents sink.new)
            (script_state self.new images)
            (end_answer (script_state self.old images) end)) }
        ensures flag { OnErr result (W.has_failed sink.new ≡ true) }
        ensures same_flag { OnOk result (W.has_failed sink.new ≡ W.has_failed sink.old) }
    {
        match end {
            CallEnd::Returned => self.print_call(sink),
            CallEnd::Stopped(stop) => self.stopped(sink, stop),
        }
    }

    /// Takes a step, writes what it prints, and answers why the machine is halted, if it is. Neither
    /// breaks nor the last stop have to do with it.
    ///
    /// # Errors
    ///
    /// `WriteFault` where the sink failed.
    pub fn take_step<W: Sink>(
        &mut self,
        images: &Images,
        sink: &mut W,
    ) -> Result<Option<Stop>, WriteFault>
        requires { 0 < (script_state self.old images.now).left }
        ensures halt { IfOk result (λ halt.
            halt ≡ option_map stop_of (script_state self.new images.now).machine.halt) }
        ensures state { OnOk result (script_state self.new images.now
            ≡ step_made (script_state self.old images.now)
            (machine_step images.now (script_state self.old images.now).machine)) }
        ensures text { OnOk result (Appends (W.contents sink.old) (W.contents sink.new)
            (machine_step images.now (script_state self.old images.now).machine).printed) }
        ensures flag { OnErr result (W.has_failed sink.new ≡ true) }
        ensures same_flag { OnOk result (W.has_failed sink.new ≡ W.has_failed sink.old) }
    {
        let halt = self.machine.step(images);
        self.count_step(sink, halt)?;
        Ok(halt)
    }

    // Counts the step that the machine has just taken, and writes what it printed.
    fn count_step<W: Sink>(&mut self, sink: &mut W, halt: Option<Stop>) -> Result<(), WriteFault>
        requires left { 0 < self.old.left }
        requires halt { halt ≡ option_map stop_of (state_of self.old.machine.guest).halt }
        ensures machine { self.new.machine ≡ self.old.machine }
        ensures breaks { self.new.breaks ≡ self.old.breaks }
        ensures left { self.new.left + count_after (state_of self.old.machine.guest).halt ≡ self.old.left }
        ensures last { self.new.last ≡ self.old.last }
        ensures text { OnOk result (Appends (W.contents sink.old)
            (W.contents sink.new) self.old.machine.printed) }
        ensures flag { OnErr result (W.has_failed sink.new ≡ true) }
        ensures same_flag { OnOk result (W.has_failed sink.new ≡ W.has_failed sink.old) }
    {
        self.left -= steps_of(halt);
        push_all(sink, self.machine.output())
    }

    // How a call ended that came back.
    fn print_call<W: Sink>(&self, sink: &mut W) -> Result<(), WriteFault>
        ensures { Writes W.contents W.has_failed sink.old sink.new result
            (call_text (state_of self.now.machine.guest)) }
    {
        if self.machine.cpu().psr().overflow {
            print_error(sink, self.machine.error_number())
        } else {
            print_ok(sink)
        }
    }
}

// How many steps of a budget a step takes: one, but none where it ended in a fault.
fn steps_of(halt: Option<Stop>) -> u64
    ensures most { result ≤ 1 }
    ensures count { (end : Option Halt) → halt ≡ option_map stop_of end → result ≡ count_after end }
{
    match halt {
        None | Some(Stop::Exit) => 1,
        _ => 0,
    }
}
