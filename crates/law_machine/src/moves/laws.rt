//! Laws over the definitions, each the contract of a function that does nothing.

ghost use Rattle.law_machine.specs.moves.Laws.{MovesFollowRules};

/// Over any list of steps and of calls from outside, each flex call is its turn, and its answer in R0 says whether there
/// was room; a tidy that begins slides the module area in one of the moves after it, in which module code comes back, or
/// never; and all moves between leave it under way.
pub fn moves_follow_rules()
    ensures { MovesFollowRules }
{}
