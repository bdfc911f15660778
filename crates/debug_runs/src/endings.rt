//! How the end of a line that takes steps is shown.

ghost use Rattle.std.specs.Prelude.{◌≡◌, List, OnOk};
ghost use Rattle.profile.specs.images.Entries.{Entry};
ghost use Rattle.profile.specs.Output.{Writes};
ghost use Rattle.debug_tables.specs.Answers.{refused_text};
ghost use Rattle.debug_tables.specs.Session.{script_state};
ghost use Rattle.debug_tables.specs.State.{IsAnswered};
ghost use Rattle.debug_runs.specs.Endings.{goal_answer, line_end_answer, line_stop_answer, routine_answer, answer_of_steps, watch_answer};

use crate::running::RunEnd;
use debug_tables::routines::{Caller, go_back, print_returned};
use debug_tables::{CallEnd, Session, WatchHit, print_stepped, push_watch};
use profile::{Sink, Stop, WriteFault, push_parts};

/// What the steps of a line are for.
#[derive(Clone, Copy)]
pub enum EndKind {
    /// Steps alone; and whether as many are left as the line asks for, where it asks for so many.
    Steps(bool),
    /// A call, that comes back.
    Call,
    /// A routine, that comes back to its caller.
    Routine(Caller),
}

/// Says how a line ended; where it was stopped, that is the last stop then.
pub(crate) fn print_line_end<W: Sink>(
    session: &mut Session,
    sink: &mut W,
    kind: EndKind,
    end: RunEnd,
) -> Result<(), WriteFault>
    ensures { (images : List Entry) → OnOk result
        (IsAnswered (W.contents sink.old) (W.contents sink.new)
        (script_state session.new images)
        (line_end_answer kind (script_state session.old images) end)) }
{
    match end {
        RunEnd::Reached => print_goal(session, sink, kind),
        RunEnd::Watched(hit) => print_hit(session, sink, hit),
        RunEnd::Stopped(stop) => print_line_stop(session, sink, kind, stop),
    }
}

fn print_goal<W: Sink>(session: &mut Session, sink: &mut W, kind: EndKind) -> Result<(), WriteFault>
    ensures { (images : List Entry) → OnOk result
        (IsAnswered (W.contents sink.old) (W.contents sink.new)
        (script_state session.new images)
        (goal_answer kind (script_state session.old images))) }
{
    match kind {
        EndKind::Steps(could_all) => print_steps(session, sink, could_all, Stop::Budget),
        EndKind::Call => session.print_end(sink, CallEnd::Returned),
        EndKind::Routine(caller) => print_routine(session, sink, caller),
    }
}

fn print_line_stop<W: Sink>(
    session: &mut Session,
    sink: &mut W,
    kind: EndKind,
    stop: Stop,
) -> Result<(), WriteFault>
    ensures { (images : List Entry) → OnOk result
        (IsAnswered (W.contents sink.old) (W.contents sink.new)
        (script_state session.new images)
        (line_stop_answer kind (script_state session.old images) stop)) }
{
    match kind {
        EndKind::Steps(could_all) => print_steps(session, sink, could_all, stop),
        EndKind::Call | EndKind::Routine(_) => session.print_end(sink, CallEnd::Stopped(stop)),
    }
}

fn print_steps<W: Sink>(
    session: &mut Session,
    sink: &mut W,
    could_all: bool,
    stop: Stop,
) -> Result<(), WriteFault>
    ensures { (images : List Entry) → OnOk result
        (IsAnswered (W.contents sink.old) (W.contents sink.new)
        (script_state session.new images)
        (answer_of_steps could_all (script_state session.old images) stop)) }
{
    let at = session.machine().cpu().pc();
    session.set_last(stop);
    print_stepped(sink, could_all, stop, at)
}

fn print_hit<W: Sink>(session: &mut Session, sink: &mut W, hit: WatchHit) -> Result<(), WriteFault>
    ensures { (images : List Entry) → OnOk result
        (IsAnswered (W.contents sink.old) (W.contents sink.new)
        (script_state session.new images)
        (watch_answer (script_state session.old images) hit)) }
{
    let at = session.machine().cpu().pc();
    session.set_last(Stop::Break(at));
    push_watch(sink, hit)
}

fn print_routine<W: Sink>(
    session: &mut Session,
    sink: &mut W,
    caller: Caller,
) -> Result<(), WriteFault>
    ensures { (images : List Entry) → OnOk result
        (IsAnswered (W.contents sink.old) (W.contents sink.new)
        (script_state session.new images)
        (routine_answer caller (script_state session.old images))) }
{
    let steps = caller.left().saturating_sub(session.left());
    go_back(session, caller);
    print_returned(sink, steps)
}

/// `refused NoFrame`, and the like.
pub(crate) fn print_refused<W: Sink>(sink: &mut W, reason: &[u8]) -> Result<(), WriteFault>
    ensures { Writes W.contents W.has_failed sink.old sink.new result (refused_text reason.now) }
{
    push_parts(sink, &[b"refused ".as_slice(), reason, b"\n".as_slice()])
}
