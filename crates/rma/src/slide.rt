//! OS_Module 8: the movable blocks of the module area slide together.

ghost use Rattle.dynamic_areas.specs.MemoryMap.{module_area_start};
ghost use Rattle.std.specs.Prelude.{◌≡◌};
ghost use Rattle.dynamic_areas.specs.Memory.{regions};
ghost use Rattle.dynamic_areas.specs.Moves.{moved_regions};
ghost use Rattle.dynamic_areas.specs.Store.{store_of};
ghost use Rattle.rma.specs.heap_slide.Slide.{MaySlide, IsHeapSlid};
ghost use Rattle.dynamic_areas.specs.Sound.{IsSoundMap};
ghost use Rattle.rma.specs.Kept.{KeepsMapped};

use crate::area::Rma;
use crate::heap_slide::{Moves, slide};
use dynamic_areas::{AddressMap, RMA_START};

impl Rma {
    /// Slides blocks of the module area towards its start. `movable` has the addresses of those
    /// that can be moved, in order, at most 128, none of which holds an anchor of the flex store or
    /// a heap. Each of these goes to the end of the block before it, or to the place of the first
    /// item, where there is none; all others stay. The blocks keep their bytes, and the records of
    /// module images follow them.
    ///
    /// The answer has the old and the new address of each block that moved.
    ///
    /// RISC OS 3 Programmer's Reference Manual, "OS_Module", reason 8; which blocks can be moved is
    /// this project's own.
    pub fn slide(&self, map: &mut AddressMap, movable: &[u32]) -> Moves
        requires state { IsSoundMap map.old }
        requires movable { MaySlide (store_of map.old) module_area_start movable.now }
        ensures slid { IsHeapSlid (store_of map.old) module_area_start movable.now
            (store_of map.new) result.items }
        ensures kept { KeepsMapped map.old map.new }
        ensures regions { regions map.new ≡ moved_regions result.items (regions map.old) }
    {
        slide(map, RMA_START, movable)
    }
}
