//! Laws of slides: blocks keep their bytes, and free room becomes one. Each is the contract of a
//! function that does nothing.

ghost use Rattle.rma.specs.heap_slide.Laws.{SlideClears, SlideDescribes, SlideFits, SlideKeeps, SlideKeepsBlocks};

/// A slide keeps the bytes of each live item, at its new place.
#[tactic(auto, using(crate::proofs::HeapSlideLemmas::LawLemmas::slide_keeps))]
pub fn slides_keep_contents()
    ensures { SlideKeeps }
{}

/// A live block is live after a slide, where it went, with the bytes that it held.
pub fn slides_keep_blocks()
    ensures { SlideKeepsBlocks }
{}

/// After a slide no two free items are side by side, the last item is live, and the heap is no
/// larger.
#[tactic(auto, using(crate::proofs::HeapSlideLemmas::LawLemmas::slide_fits))]
pub fn slides_leave_spaced_items()
    ensures { SlideFits }
{}

/// Where no live item is fixed, none is free after a slide.
#[tactic(auto, using(crate::proofs::HeapSlideLemmas::LawLemmas::slide_clears))]
pub fn slides_leave_no_free_item()
    ensures { SlideClears }
{}

/// And the largest block that can be claimed is all that is free, without its length word.
pub fn slides_join_free_room()
    ensures { SlideDescribes }
{}
