//! What the lists of items are good for. Each is the contract of a function that does nothing.

ghost use Rattle.trace_store_text.specs.items.Laws.{ExplainsHeaps, ListsItems};

/// The items of a heap after a call are those before it, with those that are shown gone and new.
pub fn items_are_explained()
    ensures { ExplainsHeaps }
{}

/// Each item that is shown as gone stood there before and doesn't after, and the other way round.
pub fn items_are_true()
    ensures { ListsItems }
{}
