//! Steps of a run that the machine takes by itself, between which none reaches the run's goal.

ghost use Rattle.std.specs.Prelude.{◌≡◌, ◌≤◌, ◌<◌, ◌-◌, ◌++◌, ◌∷◌, [], ℕ, Option, None, true, false, List};
ghost use Rattle.debug_labels.specs.Labels.{ImageLabels};
ghost use Rattle.profile.specs.images.Entries.{Entry};
ghost use Rattle.debug_tables.specs.Session.{script_state};
ghost use Rattle.debug_runs.specs.Silent.{IsAfterSilentUpTo, stay_open};
ghost use Rattle.debug_runs.specs.Runs.{are_unseen, end_of_unseen, run_unless, steps_run};
ghost use Rattle.debug_tables.specs.declared.modes.StepModes.{StepModes};
ghost use Rattle.debug_tables.specs.GuestState.{state_of};
ghost use Rattle.debug_tables.specs.Run.{is_among};

use crate::running::RunGoal;
use debug_tables::Session;
use debug_tables::routines::ROUTINE_END;
use profile::memory_map::RETURN_GATE;

/// Takes those of so many steps that come next and print nothing, as the machine's own run does, as
/// long as none before the last of them can reach the goal. Answers how many.
///
/// A routine goes back where it reaches one address. Frames are closed by steps from the return gate
/// alone, so that fewer are open only after a step that began there.
pub(crate) fn take_silently(session: &mut Session, goal: RunGoal, most: u64) -> u64
    requires some { 0 < most }
    requires enough { most ≤ session.old.left }
    requires unhalted { (state_of session.old.machine.guest).halt ≡ None }
    ensures rest { (images : List Entry) (modes : StepModes) (labels : List ImageLabels)
        (reported : Option ℕ) → are_unseen modes reported ≡ true
        → let now = script_state session.new images in
        steps_run modes labels goal most reported (script_state session.old images)
        ≡ run_unless now (end_of_unseen goal now result)
        (steps_run modes labels goal (most - result) reported now) }
    ensures count { result ≤ most }
    ensures left { (images : List Entry) → (script_state session.new images).left
        ≡ (script_state session.old images).left - result }
{
    match goal {
        RunGoal::Nowhere => session.take_silent_steps(most).taken,
        RunGoal::Routine(_) => take_up_to(session, ROUTINE_END, most),
        RunGoal::Frames(count) => {
            if stay_open(session, count) {
                take_up_to(session, RETURN_GATE, most)
            } else {
                0
            }
        }
    }
}

// Whether more frames are open than so many, and the next step closes none.
fn stay_open(session: &Session, count: usize) -> bool
    ensures { (images : List Entry) → result ≡ stay_open count (script_state session.now images).machine }
{
    let machine = session.machine();
    if machine.cpu().pc() == RETURN_GATE {
        return false;
    }
    count < machine.frames()
}

/// Takes such steps, of which none but the last comes to a break or to an address; none where the
/// table of breaks is full.
pub(crate) fn take_up_to(session: &mut Session, address: u32, most: u64) -> u64
    requires some { 0 < most }
    requires enough { most ≤ session.old.left }
    requires unhalted { (state_of session.old.machine.guest).halt ≡ None }
    ensures taken { (images : List Entry) → IsAfterSilentUpTo address
        (script_state session.old images) (script_state session.new images) result }
    ensures count { result ≤ most }
{
    if session.breaks().has(address) {
        return session.take_silent_steps(most).taken;
    }
    match session.insert_break(address) {
        Ok(()) => take_to_break(session, address, most),
        Err(_) => 0,
    }
}

// Takes such steps, up to the last break, which goes then.
fn take_to_break(session: &mut Session, address: u32, most: u64) -> u64
    requires some { 0 < most }
    requires enough { most ≤ session.old.left }
    requires unhalted { (state_of session.old.machine.guest).halt ≡ None }
    ensures taken { (images : List Entry) (breaks : List ℕ)
        → (script_state session.old images).breaks ≡ breaks ++ address ∷ []
        → is_among breaks address ≡ false
        → IsAfterSilentUpTo address (record (script_state session.old images) { breaks = breaks })
        (script_state session.new images) result }
    ensures count { result ≤ most }
{
    let ran = session.take_silent_steps(most);
    let _ = session.remove_break(address);
    ran.taken
}
