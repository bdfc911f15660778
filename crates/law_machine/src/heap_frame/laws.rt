//! Laws of calls other than a heap's own: which heaps they keep, and which they forget. Each is the
//! contract of a function that does nothing.

ghost use Rattle.law_machine.specs.heap_frame.AreaLaws.{AreaCallsKeepHeap};
ghost use Rattle.law_machine.specs.heap_frame.BlockLaws.{BlockCallsKeep, PlansKeepBlocks};
ghost use Rattle.law_machine.specs.heap_frame.FlexLaws.{FlexCallsKeepHeap, FlexInitKeepsHeap};
ghost use Rattle.law_machine.specs.heap_frame.ForgettingLaws.{AreaCallsForgetHeaps, OtherActsForgetNone, ReleasesKeepBytes, RemovalsForgetHeaps};
ghost use Rattle.law_machine.specs.heap_frame.GuestLaws.{AreaStoresAreFit, GuestHeapsLieOutside, OutsideKeepsHeap};
ghost use Rattle.law_machine.specs.heap_frame.HeapLaws.{HeapCallsStayFit};
ghost use Rattle.law_machine.specs.heap_frame.ModuleAreaLaws.{ModuleAreaCallsStayFit};
ghost use Rattle.law_machine.specs.heap_frame.PlanLaws.{
  ActsStayFit,
  DoablePlansAreBelow,
  ModulesAreBelow,
  PlansStayFit,
  WritesStayFit,
};
ghost use Rattle.law_machine.specs.heap_frame.SlideLaws.{SlidesStayFit};
ghost use Rattle.law_machine.specs.heap_frame.TurnLaws.{TurnsKeepHeap};

/// Get, free and resize in the module area, and a move that a resize makes, stay there, and forget
/// no heap that starts elsewhere. A heap that lies in a live block of the module area lies in one
/// still, with all its bytes, unless it was forgotten.
pub fn heap_calls_stay_fit()
    ensures { HeapCallsStayFit }
{}

/// So it is with a slide of the module area, where no heap lies in a block that moves.
pub fn slides_stay_fit()
    ensures { SlidesStayFit }
{}

/// So it is with claims, releases and changes of size in the module area, with the growth of the
/// area that they make, and with new images, with the bytes that they get.
pub fn module_area_calls_stay_fit()
    ensures { ModuleAreaCallsStayFit }
{}

/// What holds of an area store between calls says enough of the module area for the midst of a step.
pub fn area_stores_are_fit()
    ensures { AreaStoresAreFit }
{}

/// A heap that a guest made has no byte in the module area or in the system pages, or it lies in a
/// live block of the module area.
pub fn guest_heaps_lie_outside()
    ensures { GuestHeapsLieOutside }
{}

/// What changes in the module area and the system pages alone keeps each heap that a guest made,
/// but one that lies in a live block of the module area and is forgotten with that block, or with
/// what is cut off it. No other is forgotten.
pub fn outside_keeps_heap()
    ensures { OutsideKeepsHeap }
{}

/// A call on a dynamic area keeps each heap that a guest made.
pub fn area_calls_keep_heap()
    ensures { AreaCallsKeepHeap }
{}

/// Private words, the environment text, and blocks and images that are given back, stay in the
/// module area and the system pages, and change no heap that lies in a block there and is not
/// forgotten.
pub fn writes_stay_fit()
    ensures { WritesStayFit }
{}

/// So does each action of a plan, the slide among them.
pub fn acts_stay_fit()
    ensures { ActsStayFit }
{}

/// So does a plan that is carried on to its next code, or to its end, where the slots that it names
/// are below 64. A plan that finds the instances that it names has no others.
pub fn plans_stay_fit()
    ensures fit { PlansStayFit }
    ensures modules { ModulesAreBelow }
    ensures plans { DoablePlansAreBelow }
{}

/// A flex call keeps each heap in which no anchor lies, where an alloc names none there.
pub fn flex_calls_keep_heap()
    ensures called { FlexCallsKeepHeap }
    ensures init { FlexInitKeepsHeap }
{}

/// So does each turn of a machine's stores: a flex call as the machine makes it, or a slide of the
/// module area.
pub fn turns_keep_heap()
    ensures { TurnsKeepHeap }
{}

/// A claim in the module area, or a new image there, leaves each block that was live with what it
/// held; after a release each block that is live was so, and holds what it held.
pub fn block_calls_keep()
    ensures { BlockCallsKeep }
{}

/// So it is after a plan in which nothing slides.
pub fn plans_keep_blocks()
    ensures { PlansKeepBlocks }
{}

/// A claim in the module area, or a new image there, forgets no heap; a release, or a change of a
/// block's size, just those of which it frees a byte, and those in them. So does the removal of an
/// instance, with the block that its private word names, where that is given back; the actions of a
/// plan that give no block back forget none. A release changes no byte but those of the words of
/// the area's new list.
pub fn area_calls_forget_heaps()
    ensures calls { AreaCallsForgetHeaps }
    ensures removals { RemovalsForgetHeaps }
    ensures acts { OtherActsForgetNone }
    ensures bytes { ReleasesKeepBytes }
{}
