//! Laws of calls on heaps: those on one heap are turns of that heap alone, and no other changes it.
//! Each is the contract of a function that does nothing.

ghost use Rattle.law_machine.specs.heap_calls.Forgotten.{CallsForgetHeaps, ForgottenLieInBlocks, FreesKeepBytes};
ghost use Rattle.law_machine.specs.heap_calls.Growths.{GrowthsAreJudged, GrowthsAreRefused, OuterGrowthsMeet};
ghost use Rattle.law_machine.specs.heap_calls.Laws.{
  HeapsStandAlone,
  OtherCallsKeepHeap,
  OwnCallsAreTurns,
  OwnCallsKeepHeap,
  StoresAnswerAlike,
};

/// A call on a guest's heap in which no anchor and no heap lies answers what one turn of the heap
/// alone answers, and leaves it that list and those bytes.
pub fn own_calls_are_turns()
    ensures { OwnCallsAreTurns }
{}

/// The heap is a guest's after such a call too, and no anchor and no heap lies in it.
pub fn own_calls_keep_heap()
    ensures { OwnCallsKeepHeap }
{}

/// A call on another heap, or one that makes a heap, leaves it its list, its bytes and its anchors,
/// where that other heap does not lie in it; only where it lies in a block itself can it be
/// forgotten instead. Such a call may be one on a heap round it.
pub fn other_calls_keep_heap()
    ensures { OtherCallsKeepHeap }
{}

/// A call that is done forgets just the heaps of which it frees a byte of a block, and those that
/// lie in them: one that gives a block back, or that gives it fewer bytes. No other forgets a heap,
/// and each that is forgotten lies in a block of another heap.
pub fn calls_forget_heaps()
    ensures forgotten { CallsForgetHeaps }
    ensures inner { ForgottenLieInBlocks }
{}

/// Such a call changes no byte but those of the words of its heap's new list, where it gives the
/// block no more bytes: what a forgotten heap held stays where it was.
pub fn frees_keep_bytes()
    ensures { FreesKeepBytes }
{}

/// A heap may not grow where what it grows by meets what the range of a new heap may not meet, or
/// where it would leave a block that it lies in; nothing else is in its way. For a heap that lies
/// in no other that is whether the added bytes meet a heap, another recorded range or an anchor.
pub fn growths_are_judged()
    ensures judged { GrowthsAreJudged }
    ensures outer { OuterGrowthsMeet }
    ensures refused { GrowthsAreRefused }
{}

/// So over any list of calls of OS_Heap, on this heap and on others, none of which forgets it or
/// makes a heap in it: the replies of those on it are those of the heap alone, given its first list
/// and bytes and these calls, and so are its last list and bytes.
pub fn heaps_stand_alone()
    ensures { HeapsStandAlone }
{}

/// Where the heap alone is the same in two stores, and the calls on it are given the same in both,
/// they answer the same in both, and leave the same heap, whatever else is called between that
/// neither forgets it nor makes a heap in it.
pub fn stores_answer_alike()
    ensures { StoresAnswerAlike }
{}
