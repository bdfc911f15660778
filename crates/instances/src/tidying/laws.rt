//! Laws of a tidy: blocks and private words after it, and the free room. Each is the contract of a
//! function that does nothing.

ghost use Rattle.instances.specs.tidying.Laws.{TidyJoinsRoom, TidyKeepsBlocks, TidyKeepsNames, TidyKeepsSides};

/// Each live block of the module area is live after that was tidied, where it went, and holds there
/// what it held.
pub fn tidying_keeps_blocks()
    ensures { TidyKeepsBlocks }
{}

/// Each private word of an instance names afterwards what it named, where that went.
pub fn tidying_keeps_names()
    ensures { TidyKeepsNames }
{}

/// Where no live block is fixed no free item is left, and the largest block that can be claimed is
/// all that is free, without its length word.
pub fn tidying_joins_room()
    ensures { TidyJoinsRoom }
{}

/// Each block of the module area goes to a place there, and nothing else moves: an image is in the
/// module area afterwards where it was before.
#[tactic(auto, using(crate::proofs::TidyingLemmas::Sides::tidy_keeps_sides))]
pub fn tidying_keeps_sides()
    ensures { TidyKeepsSides }
{}
