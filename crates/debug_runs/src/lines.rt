//! The lines of a debugging script that take steps, traced or not, with stubs and watches.

ghost use Rattle.std.specs.Prelude.{◌≡◌, ◌≤◌, ◌<◌, ◌-◌, ◌%◌, ◌^◌, [], List, length, IfOk, OnOk};
ghost use Rattle.profile.specs.images.Entries.{Entry};
ghost use Rattle.debug_tables.specs.Calls.{first_step, stop_before_step_by};
ghost use Rattle.debug_tables.specs.Session.{script_state};
ghost use Rattle.debug_runs.specs.Calls.{outside_start_text};
ghost use Rattle.debug_runs.specs.Endings.{line_end_answer};
ghost use Rattle.debug_lines.specs.SteppingRequests.{Gosub, RunLast, stepping_request_of};
ghost use Rattle.debug_runs.specs.Lines.{call_line_answer, finish_answer, stepping_answer, answer_if_unhalted, answer_with_ending};
ghost use Rattle.debug_runs.specs.Places.{places_if_unhalted, places_of_finish, places_of_line, places_of_outside, places_of_run};
ghost use Rattle.debug_runs.specs.Runs.{steps_run};
ghost use Rattle.debug_tables.specs.counts.Counts.{steps_counted};
ghost use Rattle.debug_runs.specs.TraceWriter.{more_text};
ghost use Rattle.debug_runs.specs.Reported.{HasAnswer, IsSteppingAnswer};

use crate::context::StepContext;
use crate::endings::{EndKind, print_line_end, print_refused};
use crate::last::run_last;
use crate::running::{RunEnd, RunGoal, run_steps, take_call};
use crate::writer::TraceWriter;
use debug_labels::LabelTable;
use debug_lines::SteppingCommand;
use debug_tables::counts::StepCounts;
use debug_tables::routines::{caller_of, enter};
use debug_tables::{OutsideCall, Session, StepModes};
use profile::images::Images;
use profile::text_sink::TextSink;
use profile::{Stop, WriteFault};
use std::alloc::{AllocError, Global};

/// What a line left to write: what is shown of its steps, and its usual ending behind that.
#[derive(Drop)]
pub struct LineAnswer {
    /// What is shown of the steps: what the guest printed where the line is not traced, else the
    /// trace.
    pub text: Vec<u8>,
    /// What the guest printed.
    pub printed: Vec<u8>,
    /// The line's usual ending alone.
    pub ending: Vec<u8>,
}

/// Answers a line that takes steps. RUN takes all that are left, STEP so many, or as many as are left;
/// CALL and LOAD go on until the module code that they enter has gone back, FINISH until the innermost
/// frame of module code has, and GOSUB until its routine has: R14 is &03FFFFFC in it, with the status;
/// afterwards R14 and the program counter are as they were. TRACE LAST is a RUN, of which so many
/// steps are shown, the last ones: `.. 64540 steps before` stands before them, where there were more.
///
/// With `Some`, traced, so many steps are shown at most, and what is shown ends with how many more
/// were taken, `.. 64540 steps more`; with `None` what the guest prints stands as it is. A run
/// ends where the machine is halted, else where what the line waits for has come, else after the
/// step that changed a watched word, else at a break, else with the budget. A break where the run
/// begins isn't heeded. `refused NoFrame` is FINISH's ending where no frame is open.
///
/// # Errors
///
/// Where memory ran out; steps have been taken then.
pub fn answer_stepping(
    alloc: Global,
    session: &mut Session,
    images: &Images,
    modes: &StepModes,
    counts: &mut StepCounts,
    labels: &LabelTable,
    line: &SteppingCommand<'_>,
    reported: Option<u64>,
) -> Result<LineAnswer, AllocError>
    ensures reported { let s = script_state session.old images.now in IfOk result
        (λ line_answer. IsSteppingAnswer
        (stepping_answer modes.now labels.now reported s (stepping_request_of line.now))
        (script_state session.new images.now)
        line_answer.text.items line_answer.printed.items line_answer.ending.items) }
    ensures counted { OnOk result (counts.new ≡ steps_counted
        (places_of_line modes.now (script_state session.old images.now) (stepping_request_of line.now))
        counts.old) }
{
    let context = StepContext {
        images,
        modes,
        labels,
    };
    let mut writer = TraceWriter::new(alloc, reported);
    let mut ending = TextSink::new(alloc);
    match print_line(&mut writer, &mut ending, session, &context, counts, line) {
        Ok(()) => Ok(LineAnswer {
            text: writer.text.into_bytes(),
            printed: writer.printed.into_bytes(),
            ending: ending.into_bytes(),
        }),
        Err(_) => Err(AllocError),
    }
}

fn print_line(
    writer: &mut TraceWriter,
    ending: &mut TextSink,
    session: &mut Session,
    context: &StepContext<'_>,
    counts: &mut StepCounts,
    line: &SteppingCommand<'_>,
) -> Result<(), WriteFault>
    ensures reported { let s = script_state session.old context.now.images.now in OnOk result (HasAnswer
        (stepping_answer context.now.modes.now context.now.labels.now writer.old.reported s
        (stepping_request_of line.now))
        (script_state session.new context.now.images.now) writer.old writer.new ending.old ending.new) }
    ensures counted { OnOk result (counts.new ≡ steps_counted
        (places_of_line context.now.modes.now (script_state session.old context.now.images.now)
        (stepping_request_of line.now)) counts.old) }
{
    let left = session.left();
    let goal = RunGoal::Nowhere;
    match *line {
        SteppingCommand::Run => {
            let kind = EndKind::Steps(false);
            print_steps(writer, ending, session, context, counts, kind, goal, left)
        }
        SteppingCommand::Step(count) => {
            let count = u64::from(count);
            let kind = EndKind::Steps(count <= left);
            let most = count.min(left);
            print_steps(writer, ending, session, context, counts, kind, goal, most)
        }
        SteppingCommand::Call(number) => {
            let call = OutsideCall::Swi(number);
            print_call(writer, ending, session, context, counts, call)
        }
        SteppingCommand::Load(text) => {
            let call = OutsideCall::Load(text);
            print_call(writer, ending, session, context, counts, call)
        }
        SteppingCommand::Finish => print_finish(writer, ending, session, context, counts),
        SteppingCommand::Gosub(address) => {
            print_gosub(writer, ending, session, context, counts, address.address())
        }
        SteppingCommand::RunLast(count) => {
            print_last(writer, ending, session, context, counts, count)
        }
    }
}

// So many steps at most.
fn print_steps(
    writer: &mut TraceWriter,
    ending: &mut TextSink,
    session: &mut Session,
    context: &StepContext<'_>,
    counts: &mut StepCounts,
    kind: EndKind,
    goal: RunGoal,
    most: u64,
) -> Result<(), WriteFault>
    requires { most ≤ (script_state session.old context.now.images.now).left }
    ensures reported { let s = script_state session.old context.now.images.now in
        let modes = context.now.modes.now in OnOk result (HasAnswer
        (answer_if_unhalted writer.old.reported s kind most
        (steps_run modes context.now.labels.now goal most writer.old.reported s))
        (script_state session.new context.now.images.now) writer.old writer.new ending.old ending.new) }
    ensures counted { let s = script_state session.old context.now.images.now in
        OnOk result (counts.new ≡ steps_counted
        (places_if_unhalted s most (places_of_run context.now.modes.now goal most s)) counts.old) }
{
    if let Some(stop) = stop_within(session, most) {
        return print_line_end(session, ending, kind, RunEnd::Stopped(stop));
    }
    let reported = writer.reported;
    let left = session.left();
    let end = run_steps(writer, session, context, counts, goal, most)?;
    print_run_end(writer, ending, session, reported, left, kind, end)
}

// CALL and LOAD.
fn print_call(
    writer: &mut TraceWriter,
    ending: &mut TextSink,
    session: &mut Session,
    context: &StepContext<'_>,
    counts: &mut StepCounts,
    call: OutsideCall,
) -> Result<(), WriteFault>
    ensures reported { let s = script_state session.old context.now.images.now in
        OnOk result (HasAnswer
        (call_line_answer context.now.modes.now context.now.labels.now writer.old.reported s
        (outside_start_text call.entry s.machine) (first_step s call.entry))
        (script_state session.new context.now.images.now) writer.old writer.new ending.old ending.new) }
    ensures counted { let s = script_state session.old context.now.images.now in
        OnOk result (counts.new ≡ steps_counted
        (places_of_outside context.now.modes.now s (first_step s call.entry)) counts.old) }
{
    let left = session.left();
    if let Some(stop) = stop_within(session, left) {
        return print_line_end(session, ending, EndKind::Call, RunEnd::Stopped(stop));
    }
    let reported = writer.reported;
    let goal = RunGoal::Frames(session.machine().frames());
    let end = take_call(writer, session, context, counts, call, goal, left)?;
    print_run_end(writer, ending, session, reported, left, EndKind::Call, end)
}

fn print_finish(
    writer: &mut TraceWriter,
    ending: &mut TextSink,
    session: &mut Session,
    context: &StepContext<'_>,
    counts: &mut StepCounts,
) -> Result<(), WriteFault>
    ensures reported { let s = script_state session.old context.now.images.now in
        OnOk result (HasAnswer
        (finish_answer context.now.modes.now context.now.labels.now writer.old.reported s
        (length s.machine.tables.frames))
        (script_state session.new context.now.images.now) writer.old writer.new ending.old ending.new) }
    ensures counted { let s = script_state session.old context.now.images.now in
        OnOk result (counts.new ≡ steps_counted
        (places_of_finish context.now.modes.now s (length s.machine.tables.frames)) counts.old) }
{
    match session.machine().frames() {
        0 => print_refused(ending, b"NoFrame"),
        frames => {
            let goal = RunGoal::Frames(frames - 1);
            let left = session.left();
            let kind = EndKind::Call;
            print_steps(writer, ending, session, context, counts, kind, goal, left)
        }
    }
}

fn print_gosub(
    writer: &mut TraceWriter,
    ending: &mut TextSink,
    session: &mut Session,
    context: &StepContext<'_>,
    counts: &mut StepCounts,
    address: u32,
) -> Result<(), WriteFault>
    requires aligned { address % 4 ≡ 0 }
    requires inside { address < 2 ^ 26 }
    ensures reported { let s = script_state session.old context.now.images.now in
        let modes = context.now.modes.now in OnOk result (HasAnswer
        (stepping_answer modes context.now.labels.now writer.old.reported s (Gosub address))
        (script_state session.new context.now.images.now) writer.old writer.new ending.old ending.new) }
    ensures counted { OnOk result (counts.new ≡ steps_counted
        (places_of_line context.now.modes.now (script_state session.old context.now.images.now)
        (Gosub address)) counts.old) }
{
    let left = session.left();
    let kind = EndKind::Routine(caller_of(session));
    if let Some(stop) = stop_within(session, left) {
        return print_line_end(session, ending, kind, RunEnd::Stopped(stop));
    }
    let reported = writer.reported;
    let goal = RunGoal::Routine(session.machine().frames());
    enter(session, address);
    let end = run_steps(writer, session, context, counts, goal, left)?;
    print_run_end(writer, ending, session, reported, left, kind, end)
}

// RUN, of which so many steps are shown, the last ones.
fn print_last(
    writer: &mut TraceWriter,
    ending: &mut TextSink,
    session: &mut Session,
    context: &StepContext<'_>,
    counts: &mut StepCounts,
    count: u32,
) -> Result<(), WriteFault>
    ensures reported { let s = script_state session.old context.now.images.now in
        let modes = context.now.modes.now in OnOk result (HasAnswer
        (stepping_answer modes context.now.labels.now writer.old.reported s (RunLast count))
        (script_state session.new context.now.images.now) writer.old writer.new ending.old ending.new) }
    ensures counted { OnOk result (counts.new ≡ steps_counted
        (places_of_line context.now.modes.now (script_state session.old context.now.images.now)
        (RunLast count)) counts.old) }
{
    let left = session.left();
    let kind = EndKind::Steps(false);
    if let Some(stop) = stop_within(session, left) {
        return print_line_end(session, ending, kind, RunEnd::Stopped(stop));
    }
    let end = run_last(writer, session, context, counts, count, left)?;
    print_run_end(writer, ending, session, None, left, kind, end)
}

// How a run ended of which so many steps were to be shown, and before which so many were left.
fn print_run_end(
    writer: &mut TraceWriter,
    ending: &mut TextSink,
    session: &mut Session,
    reported: Option<u64>,
    left: u64,
    kind: EndKind,
    end: RunEnd,
) -> Result<(), WriteFault>
    ensures { (images : List Entry) → let s = script_state session.old images in
        let ended = line_end_answer kind s end in OnOk result (HasAnswer
        (answer_with_ending (more_text reported (left - s.left)) [] ended)
        (script_state session.new images) writer.old writer.new ending.old ending.new) }
{
    writer.push_more(reported, left.saturating_sub(session.left()))?;
    print_line_end(session, ending, kind, end)
}

// Why none of so many steps can be taken, if none can.
fn stop_within(session: &Session, most: u64) -> Option<Stop>
    ensures { (images : List Entry)
        → result ≡ stop_before_step_by (script_state session.now images).machine.halt most }
{
    match session.machine().stop() {
        None if most == 0 => Some(Stop::Budget),
        stop => stop,
    }
}
