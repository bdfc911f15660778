//! What definitions that go step by step mean, as who types a line or writes a module sees it.

ghost use Rattle.debug_modules.specs.Laws.{ServiceCallsInTurn, TailWordsAreWords};

/// The tail of a command has as many words as begin in it: each at a byte that is no blank outside double quotes,
/// the first or one behind such a blank.
pub fn tail_words_are_words()
    ensures { TailWordsAreWords }
{}

/// A service call enters the code of instances that stand in the list of modules when their turn comes, each once at
/// most and in the list's order, and leaves none out, until one has claimed the call or has not gone back.
pub fn service_calls_in_turn()
    ensures { ServiceCallsInTurn }
{}
