//! Laws of flex calls and slides of the module area, stated without addresses. Each is the contract
//! of a function that does nothing.

ghost use Rattle.law_machine.specs.sliding_stores.Besides.{StaysBehind};
ghost use Rattle.law_machine.specs.sliding_stores.Laws.{MachinesHaveStores, TurnsFollowRules};
ghost use Rattle.law_machine.specs.sliding_stores.Room.{AllocHasRoom, ExtendHasRoom, MidExtendHasRoom};

/// Over any list of flex calls and slides of the module area, what the stores mean without
/// addresses moves by the rules of the calls and of the slide: each turn leads from the meaning of
/// the stores before it to that of the stores after it.
pub fn turns_follow_rules()
    ensures { TurnsFollowRules }
{}

/// What a machine has of memory, areas, modules and the flex store are stores that the law speaks
/// of.
pub fn machines_have_stores()
    ensures { MachinesHaveStores }
{}

/// What is written to the system pages after the private words, as an error's block is, changes
/// nothing of what the stores mean.
pub fn meaning_stays_behind()
    ensures { StaysBehind }
{}

/// An alloc that isn't refused answers 1 just where the used bytes, a header and the block's bytes,
/// rounded up to whole words, are at most the store's size.
pub fn allocs_are_answered_by_room()
    ensures { AllocHasRoom }
{}

/// An extend that isn't refused does so likewise, with the block's new size in place of its old
/// one.
pub fn extends_are_answered_by_room()
    ensures { ExtendHasRoom }
{}

/// So does a middle extend.
pub fn mid_extends_are_answered_by_room()
    ensures { MidExtendHasRoom }
{}
