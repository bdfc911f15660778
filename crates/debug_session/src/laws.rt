//! A script is answered as it was before; looking changes nothing; and the past is the machine's.

ghost use Rattle.debug_session.specs.AsBefore.{LookingLeavesTheMachine, RefusedAsBefore, ScriptAsBefore};
ghost use Rattle.debug_session.specs.History.{HistoryChangesNoAnswer, PastIsOfTheMachine};

/// Lines of a script alone, of which one at most takes steps, are answered as a script is, byte for
/// byte.
pub fn script_as_before()
    ensures { ScriptAsBefore }
{}

/// Views and lines that expect something leave the machine, the images, the breaks and the budget.
pub fn looking_leaves_the_machine()
    ensures { LookingLeavesTheMachine }
{}

/// A line that means nothing to a script nor to a debugging session is answered as by a script, and
/// behind that stands the reason; and what a block is answered begins as a script's answer.
pub fn refused_as_before()
    ensures { RefusedAsBefore }
{}

/// Each line leaves the past of the machine that it leaves, where the past is known: done again from the
/// start, it leads to that machine.
pub fn past_is_of_the_machine()
    ensures { PastIsOfTheMachine }
{}

/// What is kept of the past changes no answer but that of lines which go back or look into it.
pub fn history_changes_no_answer()
    ensures { HistoryChangesNoAnswer }
{}
