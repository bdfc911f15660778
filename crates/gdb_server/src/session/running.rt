//! Requests that take steps. A run goes in slices: after each the other side is asked whether the user
//! wants the program to stop, by a call of GDB's that any GDB answers at once.

ghost use Rattle.std.specs.Prelude.{◌≡◌, ◌++◌, [], List, IfErr, IfOk, codes};
ghost use Rattle.debug_session.specs.Answers.{stop_text};
ghost use Rattle.debug_session.specs.Error.{IsLineError};
ghost use Rattle.profile.specs.Output.{Writes};
ghost use Rattle.profile.specs.text_sink.TextSink.{sink_text_of};
ghost use Rattle.gdb_server.specs.session.Runs.{user_text};

use crate::session::session::{GdbAnswer, GdbSession};
use debug_session::{RunError, print_stop};
use gdb_machine::{GdbStop, UnderWay, library_lines, may_go_on, stepped, stop_packet, was_library};
use gdb_packets::Going;
use profile::images::Images;
use profile::text_sink::TextSink;
use profile::{Sink, Stop, WriteFault, push_all};

/// How many steps are taken before the other side is asked.
const SLICE: u64 = 100_000;

/// The call by which it is asked.
const ASK: &[u8] = b"Fisatty,0";

impl GdbSession {
    ghost use Rattle.profile.specs.images.Entries.{Entry};
    ghost use Rattle.gdb_server.specs.session.Runs.{asking, first_slice_shown, gdb_step_shown, gdb_stop_shown, has_break_due, slice_shown, stands_at_break, stop_asked, stop_shown_with};
    ghost use Rattle.gdb_server.specs.session.Session.{gdb_state, IsGdbAnswered};

    /// The steps of the first slice, unless GDB has to be told of other modules first, or of a break.
    pub(crate) fn first_slice(&mut self, images: &Images) -> Result<GdbAnswer, RunError>
        ensures reported { IfOk result (λ answer. IsGdbAnswered (gdb_state self.new images.now) answer
            (first_slice_shown (gdb_state self.old images.now))) }
        ensures errors { IfErr result IsLineError }
    {
        let is_other = self.has_other_list()?;
        if is_other {
            return self.stand(GdbStop::Library);
        }
        if self.has_break_due() {
            return self.stand(GdbStop::Ran(Stop::Break(self.pc())));
        }
        self.slice(images, Going::On)
    }

    // Whether the program stands at a break that GDB may have set since it stands there.
    fn has_break_due(&self) -> bool
        ensures { (images : List Entry) → result ≡ has_break_due (gdb_state self.now images) }
    {
        was_library(self.stop) && self.stands_at_break()
    }

    /// Whether the program stands at a break.
    pub(crate) fn stands_at_break(&self) -> bool
        ensures { (images : List Entry) → result ≡ stands_at_break (gdb_state self.now images) }
    {
        let at = self.debug.session.machine().cpu().pc();
        self.debug.session.breaks().has(at) || self.breaks.has(at)
    }

    /// Stops a run or a search, if one is under way.
    pub fn ask_to_stop(&mut self) -> Result<GdbAnswer, RunError>
        ensures reported { (images : List Entry) → IfOk result (λ answer.
            IsGdbAnswered (gdb_state self.new images) answer
            (stop_asked (gdb_state self.old images))) }
        ensures errors { IfErr result IsLineError }
    {
        let Some(_) = self.going else {
            return Ok(self.without_reply());
        };
        self.stand(GdbStop::Asked)
    }

    /// The steps of a slice.
    pub(crate) fn slice(&mut self, images: &Images, going: Going) -> Result<GdbAnswer, RunError>
        ensures reported { IfOk result (λ answer. IsGdbAnswered (gdb_state self.new images.now) answer
            (slice_shown (gdb_state self.old images.now) going)) }
        ensures errors { IfErr result IsLineError }
    {
        let mut reported = TextSink::new(self.alloc);
        let stop = self.take_steps(images, &mut reported, going, SLICE)?;
        if may_go_on(stop, self.debug.session.left()) {
            self.ask(reported, UnderWay::Run(going))
        } else {
            self.stopped(reported, stop)
        }
    }

    /// The run or the search is under way, and the other side is asked.
    pub(crate) fn ask(&mut self, reported: TextSink, going: UnderWay) -> Result<GdbAnswer, RunError>
        ensures reported { (images : List Entry) → IfOk result (λ answer.
            IsGdbAnswered (gdb_state self.new images) answer
            (asking (gdb_state self.old images) going (sink_text_of reported))) }
        ensures errors { IfErr result IsLineError }
    {
        let reply = Vec::from_slice(self.alloc, ASK)?;
        self.going = Some(going);
        Ok(GdbAnswer {
            reported: reported.into_bytes(),
            reply: Some(reply),
        })
    }

    /// Takes one step.
    pub(crate) fn step(&mut self, images: &Images) -> Result<GdbAnswer, RunError>
        ensures reported { IfOk result (λ answer. IsGdbAnswered (gdb_state self.new images.now) answer
            (gdb_step_shown (gdb_state self.old images.now))) }
        ensures errors { IfErr result IsLineError }
    {
        let mut reported = TextSink::new(self.alloc);
        let stop = self.take_steps(images, &mut reported, Going::Once, 1)?;
        self.stopped(reported, stepped(stop))
    }

    /// The program stands, and has printed nothing.
    pub(crate) fn stand(&mut self, stop: GdbStop) -> Result<GdbAnswer, RunError>
        ensures reported { (images : List Entry) → IfOk result (λ answer.
            IsGdbAnswered (gdb_state self.new images) answer
            (gdb_stop_shown (gdb_state self.old images) [] stop)) }
        ensures errors { IfErr result IsLineError }
    {
        self.stopped(TextSink::new(self.alloc), stop)
    }

    // The program stands, after it printed so much.
    fn stopped(&mut self, mut reported: TextSink, stop: GdbStop) -> Result<GdbAnswer, RunError>
        ensures reported { (images : List Entry) → IfOk result (λ answer.
            IsGdbAnswered (gdb_state self.new images) answer
            (gdb_stop_shown (gdb_state self.old images) (sink_text_of reported) stop)) }
        ensures errors { IfErr result IsLineError }
    {
        push_stop(&mut reported, stop, self.pc())?;
        self.stopped_with(reported, stop)
    }

    /// The program stands, and the user is shown so much.
    pub(crate) fn stopped_with(
        &mut self,
        reported: TextSink,
        stop: GdbStop,
    ) -> Result<GdbAnswer, RunError>
        ensures reported { (images : List Entry) → IfOk result (λ answer.
            IsGdbAnswered (gdb_state self.new images) answer
            (stop_shown_with (gdb_state self.old images) (sink_text_of reported) stop)) }
        ensures errors { IfErr result IsLineError }
    {
        let machine = self.debug.session.machine();
        let reply = stop_packet(self.alloc, machine.cpu(), stop)?;
        if was_library(stop) {
            self.libraries = library_lines(self.alloc, machine.instances())?;
        }
        self.going = None;
        self.stop = stop;
        Ok(GdbAnswer {
            reported: reported.into_bytes(),
            reply: Some(reply),
        })
    }
}

// `rosm: ` and the stop line of a fault, or where the budget is used up.
fn push_stop<W: Sink>(sink: &mut W, stop: GdbStop, pc: u32) -> Result<(), WriteFault>
    ensures { Writes W.contents W.has_failed sink.old sink.new result (user_text stop pc) }
{
    match stop {
        GdbStop::Ran(Stop::Fault(fault)) => push_ran(sink, Stop::Fault(fault), pc),
        GdbStop::Ran(Stop::Budget) => push_ran(sink, Stop::Budget, pc),
        _ => Ok(()),
    }
}

fn push_ran<W: Sink>(sink: &mut W, stop: Stop, pc: u32) -> Result<(), WriteFault>
    ensures { Writes W.contents W.has_failed sink.old sink.new result (codes "rosm: " ++ stop_text stop pc) }
{
    push_all(sink, b"rosm: ")?;
    print_stop(sink, stop, pc)
}
