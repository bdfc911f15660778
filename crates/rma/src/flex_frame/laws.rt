//! Laws over the definitions of calls, each the contract of a function that does nothing.

ghost use Rattle.rma.specs.flex_frame.Laws.{AreaCallsKeepFlex, HeapCallsKeepFlex, SlidesKeepFlex, WritesKeepFlex};

/// A call on a heap keeps the flex store.
pub fn heap_calls_keep_flex()
    ensures { HeapCallsKeepFlex }
{}

/// A call on a dynamic area keeps the flex store.
pub fn area_calls_keep_flex()
    ensures { AreaCallsKeepFlex }
{}

/// The slide of the module area keeps the flex store: blocks with anchors stay.
pub fn slides_keep_flex()
    ensures { SlidesKeepFlex }
{}

/// Writes to the system pages and to blocks of the module area, and records of module images, keep
/// the flex store.
pub fn writes_keep_flex()
    ensures { WritesKeepFlex }
{}
