//! The slide of a heap's blocks, with the records of module images, and the moves that it answers.

ghost use Rattle.std.specs.Prelude.{◌≡◌};
ghost use Rattle.dynamic_areas.specs.Memory.{regions};
ghost use Rattle.dynamic_areas.specs.Moves.{moved_regions};
ghost use Rattle.dynamic_areas.specs.Store.{store_of};
ghost use Rattle.rma.specs.heap_slide.Slide.{MaySlide, IsHeapSlid};
ghost use Rattle.dynamic_areas.specs.Sound.{IsSoundMap};
ghost use Rattle.rma.specs.Kept.{KeepsMapped};

use crate::heap_slide::steps::slide_items;
use arrayvec::ArrayVec;
use dynamic_areas::{AddressMap, BlockMove};

/// The most blocks that a slide can move.
pub const MOST_MOVES: usize = 128;

/// The blocks that a slide moved.
pub type Moves = ArrayVec<BlockMove, MOST_MOVES>;

/// Slides blocks of the heap that starts at `heap` towards its start. `movable` has the addresses
/// of those that can be moved, in order, at most 128, none of which holds an anchor of the flex
/// store or a heap. Each of these goes to the end of the block before it, or to the place of the
/// first item, where there is none; all others stay. What lies between becomes free, and the base
/// is the end of the last block. The blocks keep their bytes, and the records of module images
/// follow them.
///
/// The answer has the old and the new address of each block that moved.
///
/// RISC OS 3 Programmer's Reference Manual, "OS_Module", reason 8; which blocks can be moved is
/// this project's own.
pub fn slide(map: &mut AddressMap, heap: u32, movable: &[u32]) -> Moves
    requires state { IsSoundMap map.old }
    requires movable { MaySlide (store_of map.old) heap movable.now }
    ensures slid { IsHeapSlid (store_of map.old) heap movable.now (store_of map.new) result.items }
    ensures kept { KeepsMapped map.old map.new }
    ensures regions { regions map.new ≡ moved_regions result.items (regions map.old) }
{
    let moves = slide_items(map, heap, movable);
    map.follow(moves.as_slice());
    moves
}
