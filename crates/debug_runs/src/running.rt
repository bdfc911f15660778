//! Runs of a debugger, step by step.

ghost use Rattle.std.specs.Prelude.{◌≡◌, ◌≤◌, ◌<◌, ◌-◌, ℕ, List, None, IfOk, OnOk};
ghost use Rattle.profile.specs.images.Entries.{Entry};
ghost use Rattle.debug_tables.specs.Calls.{first_step};
ghost use Rattle.debug_tables.specs.Session.{script_state};
ghost use Rattle.debug_tables.specs.State.{ScriptState};
ghost use Rattle.debug_runs.specs.Runs.{call_run, end_after, end_of_unseen, is_reached, steps_run, watched_end};
ghost use Rattle.debug_runs.specs.Calls.{outside_text};
ghost use Rattle.debug_runs.specs.BasicBlocks.{RunsOnBehind};
ghost use Rattle.debug_runs.specs.Places.{places_of_call, places_of_run};
ghost use Rattle.debug_runs.specs.Reported.{IsAfterStepping};
ghost use Rattle.debug_tables.specs.counts.Counts.{step_counted, steps_counted};
ghost use Rattle.debug_tables.specs.WordWatches.{watched_words};
ghost use Rattle.debug_tables.specs.GuestState.{state_of};

use crate::basic_blocks::take_basic_blocks;
use crate::context::StepContext;
use crate::silent::take_silently;
use crate::writer::{TraceWriter, is_step_shown};
use debug_tables::counts::StepCounts;
use debug_tables::routines::ROUTINE_END;
use debug_tables::{Machine, OutsideCall, Session, WatchHit, WatchedWord, first_change};
use profile::{Stop, WriteFault};

/// What a run is for.
#[derive(Clone, Copy)]
pub enum RunGoal {
    /// Nothing: it ends where it is stopped.
    Nowhere,
    /// That so many frames are open.
    Frames(usize),
    /// That a routine has come back, with so many frames open.
    Routine(usize),
}

/// Why a run goes no further.
#[derive(Clone, Copy)]
pub enum RunEnd {
    /// The goal is reached.
    Reached,
    /// A watched word has changed.
    Watched(WatchHit),
    /// The machine is halted, a break was reached, or no step is left.
    Stopped(Stop),
}

/// Takes so many steps at most, until the goal is reached or the run is stopped, and counts them
/// where steps are counted.
pub(crate) fn run_steps(
    writer: &mut TraceWriter,
    session: &mut Session,
    context: &StepContext<'_>,
    counts: &mut StepCounts,
    goal: RunGoal,
    most: u64,
) -> Result<RunEnd, WriteFault>
    requires { most ≤ (script_state session.old context.now.images.now).left }
    ensures ran { let images = context.now.images.now in
        IfOk result (λ end. IsAfterStepping
        (steps_run context.now.modes.now context.now.labels.now goal most writer.old.reported
        (script_state session.old images)) (script_state session.new images) writer.old writer.new end) }
    ensures counted { OnOk result (counts.new ≡ steps_counted
        (places_of_run context.now.modes.now goal most (script_state session.old context.now.images.now))
        counts.old) }
{
    let mut left = most;
    while left > 0 {
        let words = context.modes.watches.words(session.machine().memory());
        let place = session.machine().cpu().pc();
        writer.step(session, context)?;
        count_at(counts, place)?;
        left -= 1;
        if let Some(end) = end_after(session, goal, words.as_slice()) {
            return Ok(end);
        }
        let (taken, end) = take_unseen(writer, session, context, counts, goal, left)?;
        left -= taken;
        if let Some(end) = end {
            return Ok(end);
        }
    }
    Ok(RunEnd::Stopped(Stop::Budget))
}

// Takes those of so many steps that come next and print nothing, as the machine's own run does, where
// none is shown: as far as it goes where nothing looks at them, else by basic blocks, and counts them. Answers
// how many, and why the run ends with them, if it does.
fn take_unseen(
    writer: &TraceWriter,
    session: &mut Session,
    context: &StepContext<'_>,
    counts: &mut StepCounts,
    goal: RunGoal,
    most: u64,
) -> Result<(u64, Option<RunEnd>), WriteFault>
    requires enough { most ≤ (script_state session.old context.now.images.now).left }
    requires unhalted { (script_state session.old context.now.images.now).machine.halt ≡ None }
    ensures { let images = context.now.images.now in let modes = context.now.modes.now in
        IfOk result (λ t. RunsOnBehind modes context.now.labels.now goal writer.now.reported most
        (script_state session.old images) counts.old t.0 t.1 (script_state session.new images) counts.new) }
{
    if most == 0 || is_step_shown(writer.reported) {
        return Ok((0, None));
    }
    if counts.is_on() || !context.modes.watches.is_empty() {
        return take_basic_blocks(session, context.modes, counts, goal, most);
    }
    let taken = take_silently(session, goal, most);
    Ok((taken, end_of_unseen(session, goal, taken)))
}

/// Why a run ends with so many steps at which nothing looked, if it does.
pub(crate) fn end_of_unseen(session: &Session, goal: RunGoal, taken: u64) -> Option<RunEnd>
    ensures { (images : List Entry)
        → result ≡ end_of_unseen goal (script_state session.now images) taken }
{
    if taken == 0 {
        None
    } else {
        end_after(session, goal, &[])
    }
}

/// Counts a step at an address, where steps are counted.
pub(crate) fn count_at(counts: &mut StepCounts, place: u32) -> Result<(), WriteFault>
    ensures { OnOk result (counts.new ≡ step_counted counts.old place) }
{
    counts.count(place).or(Err(WriteFault))
}

/// Takes so many steps at most, the first of which is a call from outside, and counts the others
/// where steps are counted.
pub(crate) fn take_call(
    writer: &mut TraceWriter,
    session: &mut Session,
    context: &StepContext<'_>,
    counts: &mut StepCounts,
    call: OutsideCall,
    goal: RunGoal,
    most: u64,
) -> Result<RunEnd, WriteFault>
    requires some { 0 < most }
    requires enough { most ≤ (script_state session.old context.now.images.now).left }
    ensures ran { let s = script_state session.old context.now.images.now in
        let o = first_step s call.entry in
        IfOk result (λ end. IsAfterStepping
        (call_run context.now.modes.now context.now.labels.now goal most writer.old.reported s
        (outside_text call.entry s.machine o) o)
        (script_state session.new context.now.images.now) writer.old writer.new end) }
    ensures counted { let s = script_state session.old context.now.images.now in
        OnOk result (counts.new ≡ steps_counted
        (places_of_call context.now.modes.now goal most s (first_step s call.entry)) counts.old) }
{
    let words = context.modes.watches.words(session.machine().memory());
    writer.begin(session, context, call)?;
    match end_after(session, goal, words.as_slice()) {
        Some(end) => Ok(end),
        None => run_steps(writer, session, context, counts, goal, most - 1),
    }
}

/// Why a run goes no further after a step before which the watched words were these, if it does not.
#[tactic(auto, unfolding(crate::specs::Runs::end_after))]
pub(crate) fn end_after(session: &Session, goal: RunGoal, words: &[WatchedWord]) -> Option<RunEnd>
    ensures { (images : List Entry) → (before : ScriptState) → (watches : List ℕ)
        → words.now ≡ watched_words watches before.machine.store.bytes
        → result ≡ end_after watches goal before (script_state session.now images) }
{
    let machine = session.machine();
    if let Some(stop) = machine.stop() {
        Some(RunEnd::Stopped(stop))
    } else if is_reached(machine, goal) {
        Some(RunEnd::Reached)
    } else {
        watched_end(session, first_change(words, machine.memory()))
    }
}

fn watched_end(session: &Session, hit: Option<WatchHit>) -> Option<RunEnd>
    ensures { (images : List Entry) → result ≡ watched_end hit (script_state session.now images) }
{
    let at = session.machine().cpu().pc();
    match hit {
        Some(hit) => Some(RunEnd::Watched(hit)),
        None if session.breaks().has(at) => Some(RunEnd::Stopped(Stop::Break(at))),
        None => None,
    }
}

fn is_reached(machine: &Machine, goal: RunGoal) -> bool
    ensures { result ≡ is_reached goal (state_of machine.now.guest) }
{
    match goal {
        RunGoal::Nowhere => false,
        RunGoal::Frames(count) => machine.frames() == count,
        RunGoal::Routine(count) => machine.cpu().pc() == ROUTINE_END && machine.frames() == count,
    }
}
