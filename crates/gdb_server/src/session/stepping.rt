//! Steps that are taken one by one, with a look before and after each.

ghost use Rattle.std.specs.Prelude.{◌≡◌, List, IfErr, IfOk, OnOk};
ghost use Rattle.debug_session.specs.Error.{IsLineError};
ghost use Rattle.profile.specs.text_sink.TextSink.{sink_text_of};

use crate::session::session::{GDB_LINE, GdbSession};
use debug_session::{RunError, is_faulted};
use gdb_machine::{
    GdbStop, SeenByte, StepAhead, WatchedPlace, first_changed, goes_on, is_exit_ahead,
    library_lines, may_change_list, struck_after,
};
use gdb_packets::{Going, has_left};
use profile::Stop;
use profile::images::Images;
use profile::text_sink::TextSink;
use std::alloc::AllocError;

impl GdbSession {
    ghost use Rattle.profile.specs.images.Entries.{Entry};
    ghost use Rattle.gdb_server.specs.session.Session.{gdb_state, IsAfterLooked, IsAfterSteps};
    ghost use Rattle.gdb_server.specs.session.State.{with_noted};
    ghost use Rattle.gdb_server.specs.session.Steps.{ahead_of, end_beside, end_of_step, gdb_steps, is_other_list, stays_here, struck_ahead};
    ghost use Rattle.gdb_server.specs.session.Steps.{looked_steps, looks_at};

    /// Takes so many steps, fewer where they end before, and keeps what they did.
    pub(crate) fn take_steps(
        &mut self,
        images: &Images,
        printed: &mut TextSink,
        going: Going,
        count: u64,
    ) -> Result<GdbStop, RunError>
        ensures taken { IfOk result (λ stop.
            IsAfterSteps (gdb_state self.old images.now) (gdb_state self.new images.now)
            (sink_text_of printed.old) (sink_text_of printed.new) stop
            (gdb_steps (gdb_state self.old images.now) going count)) }
        ensures errors { IfErr result IsLineError }
    {
        let map = self.debug.session.machine().memory();
        let seen = self.watches.seen_bytes(self.alloc, map)?;
        let left = self.debug.session.left();
        let stop = self.take_looked(images, printed, going, seen.as_slice(), count)?;
        self.note_steps(left)?;
        Ok(stop)
    }

    // Keeps what the steps did that were taken since so many were left.
    fn note_steps(&mut self, left: u64) -> Result<(), AllocError>
        ensures reported { (images : List Entry) → OnOk result (gdb_state self.new images
            ≡ with_noted (gdb_state self.old images) left) }
    {
        let taken = left.saturating_sub(self.debug.session.left());
        let has_faulted = is_faulted(&self.debug.session);
        self.debug.past.put_steps(GDB_LINE, taken, has_faulted)?;
        Ok(())
    }

    fn take_looked(
        &mut self,
        images: &Images,
        printed: &mut TextSink,
        going: Going,
        seen: &[SeenByte],
        count: u64,
    ) -> Result<GdbStop, RunError>
        ensures taken { IfOk result (λ stop.
            IsAfterLooked (gdb_state self.old images.now) (gdb_state self.new images.now)
            (sink_text_of printed.old) (sink_text_of printed.new) stop
            (looked_steps (looks_at (gdb_state self.old images.now) going seen.now) count
            (gdb_state self.old images.now).debug.script)) }
        ensures errors { IfErr result IsLineError }
    {
        let mut left = count;
        while left > 0 {
            let ahead = self.ahead_of_step(going);
            let ran = self.debug.session.take_steps(images, printed, 1)?;
            let end = self.end_of_step(going, seen, ahead, GdbStop::Ran(ran.stop))?;
            if let Some(stop) = end {
                return Ok(stop);
            }
            left -= 1;
        }
        Ok(GdbStop::Ran(Stop::Budget))
    }

    // What is known before the next step.
    fn ahead_of_step(&self, going: Going) -> StepAhead
        ensures { (images : List Entry) → result ≡ ahead_of going (gdb_state self.now images).watches
            (gdb_state self.now images).debug.script }
    {
        let machine = self.debug.session.machine();
        StepAhead {
            may_change: may_change_list(going, machine.cpu(), machine.memory()),
            struck: self.struck_ahead(),
        }
    }

    fn struck_ahead(&self) -> Option<WatchedPlace>
        ensures { (images : List Entry) → result ≡ struck_ahead (gdb_state self.now images).watches
            (gdb_state self.now images).debug.script }
    {
        if self.debug.session.left() == 0 {
            return None;
        }
        let machine = self.debug.session.machine();
        self.watches.struck_place(machine.cpu(), machine.memory())
    }

    // Why the steps end with one before which that was known, that left this, and after which the machine
    // itself stood so.
    fn end_of_step(
        &self,
        going: Going,
        seen: &[SeenByte],
        ahead: StepAhead,
        stop: GdbStop,
    ) -> Result<Option<GdbStop>, AllocError>
        ensures { (images : List Entry) → IfOk result (λ end. end
            ≡ end_of_step (looks_at (gdb_state self.now images) going seen.now) ahead stop
            (gdb_state self.now images).debug.script) }
    {
        if let Some(place) = first_changed(self.debug.session.machine().memory(), seen) {
            return Ok(Some(GdbStop::Watched(place)));
        }
        if let Some(place) = struck_after(stop, ahead.struck) {
            return Ok(Some(GdbStop::Watched(place)));
        }
        if !goes_on(stop) {
            return Ok(Some(stop));
        }
        self.end_beside(going, ahead.may_change)
    }

    // Why they end where no byte has changed and the machine could go on.
    fn end_beside(&self, going: Going, may_change: bool) -> Result<Option<GdbStop>, AllocError>
        ensures { (images : List Entry) → IfOk result (λ end. end
            ≡ end_beside going (gdb_state self.now images).stays (gdb_state self.now images).breaks
            (gdb_state self.now images).libraries may_change (gdb_state self.now images).debug.script) }
    {
        let at = self.debug.session.machine().cpu().pc();
        if self.breaks.has(at) {
            return Ok(Some(GdbStop::Ran(Stop::Break(at))));
        }
        if self.stays_here() {
            return Ok(Some(GdbStop::End));
        }
        if has_left(going, at) {
            return Ok(Some(GdbStop::Stepped));
        }
        if !may_change {
            return Ok(None);
        }
        let is_other = self.has_other_list()?;
        Ok(if is_other {
            Some(GdbStop::Library)
        } else {
            None
        })
    }

    // Whether the program is to stay where it is, since it is about to exit.
    fn stays_here(&self) -> bool
        ensures { (images : List Entry) → result ≡ stays_here (gdb_state self.now images).stays
            (gdb_state self.now images).debug.script }
    {
        let machine = self.debug.session.machine();
        self.stays && is_exit_ahead(machine.cpu(), machine.memory())
    }

    /// Whether other modules are there than GDB was told of last.
    pub(crate) fn has_other_list(&self) -> Result<bool, AllocError>
        ensures { (images : List Entry) → IfOk result (λ other. other
            ≡ is_other_list (gdb_state self.now images).libraries (gdb_state self.now images).debug.script) }
    {
        let now = library_lines(self.alloc, self.debug.session.machine().instances())?;
        Ok(now.as_slice() != self.libraries.as_slice())
    }
}
