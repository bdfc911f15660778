//! Laws of heaps as lists: a heap is read back from memory, and a release undoes a claim. Each is
//! the contract of a function that does nothing.

ghost use Rattle.os_heap_words.specs.lists.Laws.{ReadsHeap, ClaimIsUndone};

/// Where memory spells a heap, just its list is read there.
pub fn heaps_are_read()
    ensures { ReadsHeap }
{}

/// A claim and the release of the claimed block bring the list back.
pub fn release_undoes_claim()
    ensures { ClaimIsUndone }
{}
