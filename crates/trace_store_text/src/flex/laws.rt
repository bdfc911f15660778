//! What the lists of blocks are good for. Each is the contract of a function that does nothing.

ghost use Rattle.trace_store_text.specs.flex.Laws.{ExplainsFlex, ListsBlocks};

/// A block that isn't there as it was is shown: as gone, as new, or with what it was.
pub fn blocks_are_explained()
    ensures { ExplainsFlex }
{}

/// A block that is shown was there before or is there after, and differs.
pub fn blocks_are_true()
    ensures { ListsBlocks }
{}
