//! Each byte that an instruction changes lies in a word that its trace shows, and a call of which no
//! word is shown changes none.

ghost use Rattle.trace_moments.specs.law_trace.Laws.{CallsLeaveStore, PlainStepsStore, StoresAreShown};

use law_machine::heap_alone::laws::steps_leave_bytes;

/// Each byte that differs after an instruction lies in one of the words that are shown of it.
pub fn stores_are_shown()
    ensures { StoresAreShown }
{
    steps_leave_bytes();
}

/// A step that makes no call and isn't at the return gate changes no word of memory but those that are
/// shown of it, and none where the machine is halted behind it.
pub fn plain_steps_store()
    ensures { PlainStepsStore }
{
    stores_are_shown();
}

/// A call of which a trace shows nothing of the store leaves it as it is, but for an error's block.
#[tactic(auto, using(crate::proofs::LawTraceLemmas::LeavingLemmas::calls_leave))]
pub fn calls_leave_store()
    ensures { CallsLeaveStore }
{}
