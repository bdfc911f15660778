//! Laws of areas: the gap and the number that are chosen, and the pages that go. Each is the
//! contract of a function that does nothing.

ghost use Rattle.dynamic_areas.specs.Laws.{LeastNumberIsChosen, LowestGapIsChosen, ShrinksToFirstHeld};
ghost use Rattle.dynamic_areas.specs.PageCounts.{AreasCountPages};

/// Where a call is to choose an address, it takes the lowest page address of the window where the
/// area, with its maximum, meets no other.
pub fn the_lowest_gap_is_chosen()
    ensures { LowestGapIsChosen }
{}

/// Where a call is to choose a number, it takes the least that no area has.
pub fn the_least_number_is_chosen()
    ensures { LeastNumberIsChosen }
{}

/// An area that shrinks loses its pages from the top, up to the first that must stay.
pub fn pages_go_down_to_the_first_that_stays()
    ensures { ShrinksToFirstHeld }
{}

/// Where areas stand on a memory, it has as many pages as the machine that they are of.
#[tactic(auto, using(crate::proofs::PageCounting::areas_count_pages))]
pub fn areas_count_pages()
    ensures { AreasCountPages }
{}
