//! How a run or a step begins.

ghost use Rattle.std.specs.Prelude.{◌≡◌, List, IfErr, IfOk};
ghost use Rattle.debug_session.specs.Error.{IsLineError};

use crate::session::session::{GdbAnswer, GdbSession};
use debug_session::RunError;
use gdb_machine::{GdbStop, is_own_signal, last_stop, push_halted};
use gdb_packets::Going;
use profile::Stop;
use profile::images::Images;
use profile::text_sink::TextSink;

impl GdbSession {
    ghost use Rattle.profile.specs.images.Entries.{Entry};
    ghost use Rattle.gdb_server.specs.session.Runs.{unhalted_answer, going_shown, halt_shown, step_taken, stop_here};
    ghost use Rattle.gdb_server.specs.session.Session.{gdb_state, IsGdbAnswered};

    /// Begins a run or takes a step, with a signal or without: as many steps come next as a run may take. A
    /// program that is no more takes none.
    pub(crate) fn go(
        &mut self,
        images: &Images,
        going: Going,
        signal: Option<u32>,
    ) -> Result<GdbAnswer, RunError>
        ensures reported { IfOk result (λ answer. IsGdbAnswered (gdb_state self.new images.now) answer
            (going_shown (gdb_state self.old images.now) going signal)) }
        ensures errors { IfErr result IsLineError }
    {
        self.debug.session.set_budget(self.most);
        if self.stop.is_gone() {
            return self.stand(self.stop);
        }
        match self.debug.session.machine().stop() {
            Some(stop) => self.stand_halted(stop, signal),
            None => self.go_unhalted(images, going),
        }
    }

    // A machine that is halted for this reason takes no step. The signal of a fault is given back to it, or
    // not.
    fn stand_halted(&mut self, stop: Stop, signal: Option<u32>) -> Result<GdbAnswer, RunError>
        ensures reported { (images : List Entry) → IfOk result (λ answer.
            IsGdbAnswered (gdb_state self.new images) answer
            (halt_shown (gdb_state self.old images) signal stop)) }
        ensures errors { IfErr result IsLineError }
    {
        let Stop::Fault(fault) = stop else {
            return self.stand(GdbStop::Ran(stop));
        };
        if is_own_signal(signal, fault) {
            return self.stand(GdbStop::Killed(fault));
        }
        let mut reported = TextSink::new(self.alloc);
        push_halted(&mut reported, fault, self.pc())?;
        self.stopped_with(reported, GdbStop::Ran(Stop::Fault(fault)))
    }

    // The machine isn't halted.
    fn go_unhalted(&mut self, images: &Images, going: Going) -> Result<GdbAnswer, RunError>
        ensures reported { IfOk result (λ answer. IsGdbAnswered (gdb_state self.new images.now) answer
            (unhalted_answer (gdb_state self.old images.now) going)) }
        ensures errors { IfErr result IsLineError }
    {
        match going {
            Going::On => self.first_slice(images),
            Going::Once => match self.step_taken() {
                Some(stop) => self.stand(stop),
                None => self.step(images),
            },
            Going::Within(_) => match self.step_taken() {
                Some(stop) => self.stand(stop),
                None => self.slice(images, going),
            },
        }
    }

    // Why the machine itself stood after the step that GDB asks for, where a watch that was struck has had it
    // taken already.
    fn step_taken(&self) -> Option<GdbStop>
        ensures { (images : List Entry) → result ≡ step_taken (gdb_state self.now images) }
    {
        match self.stop {
            GdbStop::Watched(_) => match last_stop(self.debug.session.last()) {
                GdbStop::Stepped => Some(self.stop_here()),
                stop => Some(stop),
            },
            _ => None,
        }
    }

    /// Why the program stands at a place to which a step led.
    pub(crate) fn stop_here(&self) -> GdbStop
        ensures { (images : List Entry) → result ≡ stop_here (gdb_state self.now images) }
    {
        if self.stands_at_break() {
            GdbStop::Ran(Stop::Break(self.pc()))
        } else {
            GdbStop::Stepped
        }
    }
}
