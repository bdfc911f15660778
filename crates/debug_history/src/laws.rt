//! Laws of going back.

ghost use Rattle.debug_history.specs.Laws.{BackAndAhead, BackCountsSteps, BackLeavesFewerSteps, BackThenStep, BackToNowIsNothing, LastIsTheGreatest, LookingBackChangesNothing, NotedIsDone, UndoIsUndo};
ghost use Rattle.debug_history.specs.Steps.{RunsAreTheirSteps};

/// A run is its steps: so runs to breaks and runs in pieces come to the machine that steps taken one by
/// one come to.
pub fn runs_are_steps()
    ensures { RunsAreTheirSteps }
{}

/// After a line that took steps, going back by some of them leaves the machine after the fewer steps.
pub fn back_leaves_fewer_steps()
    ensures { BackLeavesFewerSteps }
{}

/// Going back, and as many steps ahead again, lead to the machine that was there.
pub fn back_then_step()
    ensures { BackThenStep }
{}

/// Going back to where the machine stands changes nothing, and after going back so many steps are
/// counted as were asked for.
pub fn back_goes_where_asked()
    ensures now { BackToNowIsNothing }
    ensures counted { BackCountsSteps }
{}

/// Going back and then elsewhere, to a moment that lies ahead too, leads where going there at once leads.
pub fn back_and_ahead()
    ensures { BackAndAhead }
{}

/// Undoing a line leaves what was done before it.
pub fn undo_is_undo()
    ensures { UndoIsUndo }
{}

/// What is found last is the last.
pub fn last_is_the_greatest()
    ensures { LastIsTheGreatest }
{}

/// WHEN and LAST leave the machine and its past as they are.
pub fn looking_back_changes_nothing()
    ensures { LookingBackChangesNothing }
{}

/// What is kept of a line of a script is what the line did: done again, it leads to the machine that the line
/// left.
pub fn noted_is_done()
    ensures { NotedIsDone }
{}
