//! What the lists of instances are good for. Each is the contract of a function that does nothing.

ghost use Rattle.trace_store_text.specs.modules.Laws.{ExplainsModules, ListsInstances};

/// An instance that isn't there as it was is shown: as gone, as new, or as moved.
pub fn instances_are_explained()
    ensures { ExplainsModules }
{}

/// An instance that is shown was there before or is there after, and not the same in both places.
pub fn instances_are_true()
    ensures { ListsInstances }
{}
