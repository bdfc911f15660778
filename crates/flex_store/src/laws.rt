//! What the calls keep, and when there is room. Each law is the contract of a function that does
//! nothing.

ghost use Rattle.flex_store.specs.Laws.{FlexStays};
ghost use Rattle.flex_store.specs.Runs.{AnswersAreRoom};

/// What keeps the words of the flex store, and its record, keeps the store, whatever it does to
/// other bytes.
pub fn flex_stays()
    ensures { FlexStays }
{}

/// A call answers that there was room just where the blocks that it is to leave fit into the
/// store's range.
pub fn answers_are_room()
    ensures { AnswersAreRoom }
{}
