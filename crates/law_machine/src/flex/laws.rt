//! What is seen of blocks after a call that changes one: by the addresses that their anchors have
//! then, or by the numbers of the blocks. Each law is the contract of a function that does nothing.

ghost use Rattle.law_machine.specs.flex.Padding.{PaddingGoesByNumbers};
ghost use Rattle.law_machine.specs.flex.Laws.{AllocGoesByNumbers, AnchorsAreApart, CallsGoByNumbers, NoRoomChangesNothing, ReleaseGoesByNumbers, SpliceGoesByNumbers, SpliceShowsItsOwn, SpliceShowsOthers};

/// A change of one block shows all others as they were, each under its anchor's new address.
pub fn splice_shows_others()
    ensures { SpliceShowsOthers }
{}

/// The block that changes shows the splice of what it showed.
pub fn splice_shows_its_own()
    ensures { SpliceShowsItsOwn }
{}

/// By the numbers of blocks and places in them, a change of one block changes what it shows, and
/// moves the anchors in it that lie after the place of the change. Memory spells the blocks that
/// are left.
pub fn splice_goes_by_numbers()
    ensures { SpliceGoesByNumbers }
{}

/// A block that goes leaves the others as they were, but for the word of its anchor, which is 0
/// where it lies in a block; those after it have the numbers before theirs. Memory spells the
/// blocks that are left.
pub fn release_goes_by_numbers()
    ensures { ReleaseGoesByNumbers }
{}

/// A block that comes is after all others and shows zeros; the word of its anchor is not seen where
/// it lies in a block. Memory spells the blocks that are left.
pub fn alloc_goes_by_numbers()
    ensures { AllocGoesByNumbers }
{}

/// So each call that finds room goes by its rule, in which no address in the store stands, and the
/// next call may follow. Outside the store only the word of an anchor that comes or goes is
/// another.
pub fn calls_go_by_numbers()
    ensures { CallsGoByNumbers }
{}

/// No two blocks of a store have their anchors at the same place, and an anchor that lies in a
/// block lies in one before its own.
pub fn anchors_are_apart()
    ensures { AnchorsAreApart }
{}

/// Where a call answers that there is no room, nothing is changed.
pub fn no_room_changes_nothing()
    ensures { NoRoomChangesNothing }
{}

/// The bytes that fill the last word of a block are zeros where the block is new or changes its
/// size, and stay as they are in each other block, also where it moves.
pub fn padding_goes_by_numbers()
    ensures { PaddingGoesByNumbers }
{}
