//! A run whose last steps are shown, once it has ended.

ghost use Rattle.std.specs.Prelude.{◌≡◌, ◌≤◌, ◌<◌, ◌+◌, ◌^◌, ◌++◌, None, IfOk, OnOk};
ghost use Rattle.debug_tables.specs.Calls.{step_made};
ghost use Rattle.debug_tables.specs.Session.{script_state};
ghost use Rattle.debug_tables.specs.counts.Counts.{steps_counted};
ghost use Rattle.debug_runs.specs.LastSteps.{last_run, text_of_step, texts_of_run, with_step, with_steps};
ghost use Rattle.debug_runs.specs.Places.{places_of_run};
ghost use Rattle.debug_runs.specs.Runs.{next_step, steps_run};
ghost use Rattle.debug_runs.specs.Reported.{IsAfterStepping, IsAfterUntold};
ghost use Rattle.debug_runs.specs.declared.running.RunGoal.TheVariants.{Nowhere};
ghost use Rattle.profile.specs.text_sink.TextSink.{sink_text_of};

use crate::context::StepContext;
use crate::last_steps::{KeptStep, LastSteps};
use crate::running::{RunEnd, RunGoal, count_at, end_after};
use crate::writer::TraceWriter;
use debug_tables::Session;
use debug_tables::counts::StepCounts;
use profile::text_sink::TextSink;
use profile::{Stop, WriteFault, push_all};
use std::alloc::Global;

/// Takes so many steps at most, until the run is stopped, and shows so many of them, the last ones.
/// Counts the steps where they are counted.
pub(crate) fn run_last(
    writer: &mut TraceWriter,
    session: &mut Session,
    context: &StepContext<'_>,
    counts: &mut StepCounts,
    count: u32,
    most: u64,
) -> Result<RunEnd, WriteFault>
    requires { most ≤ (script_state session.old context.now.images.now).left }
    ensures ran { let images = context.now.images.now in
        IfOk result (λ end. IsAfterStepping
        (last_run context.now.modes.now context.now.labels.now count most (script_state session.old images))
        (script_state session.new images) writer.old writer.new end) }
    ensures counted { OnOk result (counts.new ≡ steps_counted
        (places_of_run context.now.modes.now Nowhere most (script_state session.old context.now.images.now))
        counts.old) }
{
    let alloc = writer.alloc;
    let mut last = LastSteps::new(alloc, count);
    let printed = &mut writer.printed;
    let end = take_last(alloc, printed, session, context, counts, &mut last, most)?;
    last.print(&mut writer.text)?;
    Ok(end)
}

// Takes the steps one by one, and keeps the last ones.
fn take_last(
    alloc: Global,
    printed: &mut TextSink,
    session: &mut Session,
    context: &StepContext<'_>,
    counts: &mut StepCounts,
    last: &mut LastSteps,
    most: u64,
) -> Result<RunEnd, WriteFault>
    requires enough { most ≤ (script_state session.old context.now.images.now).left }
    requires few { last.old.before + most < 2 ^ 64 }
    ensures ran { let images = context.now.images.now in
        let s = script_state session.old images in IfOk result (λ end. IsAfterUntold
        (steps_run context.now.modes.now context.now.labels.now Nowhere most None s)
        (script_state session.new images) (sink_text_of printed.old) (sink_text_of printed.new) end) }
    ensures last { let s = script_state session.old context.now.images.now in OnOk result (last.new
        ≡ with_steps last.old (texts_of_run context.now.modes.now context.now.labels.now most s)) }
    ensures counted { OnOk result (counts.new ≡ steps_counted
        (places_of_run context.now.modes.now Nowhere most (script_state session.old context.now.images.now))
        counts.old) }
{
    let mut left = most;
    while left > 0 {
        let words = context.modes.watches.words(session.machine().memory());
        let place = session.machine().cpu().pc();
        take_one(alloc, printed, session, context, last)?;
        count_at(counts, place)?;
        left -= 1;
        if let Some(end) = end_after(session, RunGoal::Nowhere, words.as_slice()) {
            return Ok(end);
        }
    }
    Ok(RunEnd::Stopped(Stop::Budget))
}

// Takes a step, and keeps it among the last ones.
fn take_one(
    alloc: Global,
    printed: &mut TextSink,
    session: &mut Session,
    context: &StepContext<'_>,
    last: &mut LastSteps,
) -> Result<(), WriteFault>
    requires some { 0 < (script_state session.old context.now.images.now).left }
    requires few { last.old.before + 1 < 2 ^ 64 }
    ensures state { let s = script_state session.old context.now.images.now in OnOk result
        (script_state session.new context.now.images.now
        ≡ step_made s (next_step context.now.modes.now s)) }
    ensures printed { let s = script_state session.old context.now.images.now in OnOk result
        (sink_text_of printed.new
        ≡ sink_text_of printed.old ++ (next_step context.now.modes.now s).printed) }
    ensures last { let s = script_state session.old context.now.images.now in OnOk result (last.new
        ≡ with_step last.old (text_of_step context.now.modes.now context.now.labels.now s)) }
{
    let step = KeptStep::take(alloc, session, context)?;
    push_all(printed, step.printed())?;
    last.add(step)
}
