//! What keeps the flex store of a machine. Each law is the contract of a function that does
//! nothing.

ghost use Rattle.swi_dispatch_plans.specs.flex_frame.Laws.{BlocksKept, FlexKept, FlexStarted, FlexStored, FlexUnmade, StoreIsApart};

/// A call on heaps, areas or modules keeps the flex store.
pub fn calls_keep_flex()
    ensures { FlexKept }
{}

/// It leaves each block of the store as it is, with its anchor, its size and its bytes, wherever
/// blocks of the module area slide.
pub fn calls_keep_blocks()
    ensures { BlocksKept }
{}

/// No byte of the store is one of a live block of a heap.
pub fn the_store_shares_no_byte_with_heaps()
    ensures { StoreIsApart }
{}

/// The flex store is kept by what a guest stores: it may write into blocks, and the store is the
/// same with other contents.
pub fn stores_keep_flex()
    ensures { FlexStored }
{}

/// Before the store has begun nothing is marked as its own.
pub fn no_flex_stays()
    ensures { FlexUnmade }
{}

/// A machine starts without a flex store.
pub fn starts_without_flex()
    ensures { FlexStarted }
{}
