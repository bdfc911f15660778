//! Laws of moves of a machine: which bytes of live blocks and of the flex store change. Each is the
//! contract of a function that does nothing.

ghost use Rattle.law_machine.specs.live_bytes.AreaLaws.{AreaCallsKeepBoth, ExtendsKeepBlocks};
ghost use Rattle.law_machine.specs.live_bytes.Changes.{FlexBytesStay, LiveBytesStay, LoadsKeepLiveBytes, PokesChangeOneWord};
ghost use Rattle.law_machine.specs.live_bytes.FlexLaws.{FlexCallsChangeAnchors};
ghost use Rattle.law_machine.specs.live_bytes.FlexPlaces.{FlexStoreStays, LoadsKeepFlexStore};
ghost use Rattle.law_machine.specs.live_bytes.Runs.{LiveBytesStayOver, RunsAreSteps};

/// A change of size in the module area, with the growth of the area that it makes: each block there
/// that was live and is so still holds what it held.
pub fn extends_keep_blocks()
    ensures { ExtendsKeepBlocks }
{}

/// So it is over a call that makes an area, changes one, the module area too, or removes one.
pub fn area_calls_keep_blocks()
    ensures { AreaCallsKeepBoth }
{}

/// A flex call changes no byte outside the flex store but those of anchors.
pub fn flex_calls_change_anchors()
    ensures { FlexCallsChangeAnchors }
{}

/// Over each move of a machine, a byte that a live block holds before it and after it stays what it
/// is: in each heap that a guest made, and in the module area. But the move's instruction may store
/// there, where no record is kept; a flex call may write the word of an anchor; a tidy that isn't
/// refused may move the blocks of the module area; and a call of OS_Heap that is done, on a heap
/// that lies in the block, or that makes it there, may write the words that the list of that heap
/// spells, and copy what a block of it holds that it moves.
pub fn live_bytes_stay()
    ensures { LiveBytesStay }
{}

/// So it is over a list of moves through which the byte is held: it stays, or one of the moves may
/// have changed it. A run is a list of steps.
pub fn live_bytes_stay_over()
    ensures moves { LiveBytesStayOver }
    ensures runs { RunsAreSteps }
{}

/// A byte of the flex store stays what it is over each move that isn't a flex call, a tidy too,
/// unless the move's instruction stores there.
pub fn flex_bytes_stay()
    ensures { FlexBytesStay }
{}

/// The flex store and its blocks stay where they are over each move that calls no flex call, a tidy
/// and a change of areas too: its range, the blocks with their anchors, places and sizes, and which
/// words are anchors and headers.
pub fn flex_store_stays()
    ensures moves { FlexStoreStays }
    ensures loads { LoadsKeepFlexStore }
{}

/// A module that is loaded from outside changes no byte that live blocks hold before it and after
/// it.
pub fn loads_keep_live_bytes()
    ensures { LoadsKeepLiveBytes }
{}

/// A word that is stored from outside is one in which no record is kept, and no other byte changes.
pub fn pokes_change_one_word()
    ensures { PokesChangeOneWord }
{}
