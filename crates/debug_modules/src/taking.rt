//! Steps that a line takes, and what is kept of them.

ghost use Rattle.std.specs.Prelude.{◌≡◌, List, IfOk};
ghost use Rattle.profile.specs.images.Entries.{Entry};
ghost use Rattle.debug_modes.specs.Session.{script_state};
ghost use Rattle.debug_modes.specs.SteppingRequests.{stepping_request_of};
ghost use Rattle.debug_modules.specs.Taking.{HasLineSteps, line_steps};

use debug_history::{Past, SteppingNote, StepsBefore, has_returned, is_faulted};
use debug_modes::DebugModes;
use debug_runs::{LabelTable, LineAnswer, Session, SteppingCommand, answer_stepping};
use profile::images::Images;
use std::alloc::{AllocError, Global};

/// Takes the steps of a line, traced or not, as many as are left of the budget, and keeps what they did.
///
/// # Errors
///
/// Where memory ran out; steps may have been taken then.
pub fn take_steps(
    alloc: Global,
    session: &mut Session,
    modes: &mut DebugModes,
    past: &mut Past,
    images: &Images,
    labels: &LabelTable,
    number: u64,
    is_traced: bool,
    command: &SteppingCommand<'_>,
) -> Result<LineAnswer, AllocError>
    ensures { let s = script_state session.old images.now in IfOk result (λ answer. HasLineSteps
        (line_steps modes.old labels.now is_traced s past.old number (stepping_request_of command.now))
        (script_state session.new images.now) modes.new past.new
        answer.text.items answer.printed.items answer.ending.items) }
{
    let left = session.left();
    let before = StepsBefore::of(session);
    let shown = modes.reported(is_traced);
    let answer = answer_stepping(
        alloc,
        session,
        images,
        &modes.steps,
        &mut modes.counts,
        labels,
        command,
        shown,
    )?;
    let note = SteppingNote {
        before,
        taken: left.saturating_sub(session.left()),
        has_faulted: is_faulted(session),
        has_returned: has_returned(answer.ending.as_slice()),
    };
    past.note_stepping(alloc, number, command, &modes.steps.stubs, note)?;
    Ok(answer)
}
