//! Blocks that were moved, and the records of module images, which follow them.

ghost use Rattle.std.specs.Prelude.{◌≡◌};
ghost use Rattle.address_map.specs.Moves.{AreDown, moved_place, moved_region, moved_regions, moved_to};

use crate::map::AddressMap;
use crate::region::{Kind, Region};
use arrayvec::ArrayVec;

/// A block that was moved: the addresses of its first byte before and after.
#[derive(Clone, Copy, Default)]
pub struct BlockMove {
    pub from: u32,
    pub to: u32,
}

/// Where the block at an address is after some moves, or the address itself, where no block was
/// moved from there.
pub fn moved_to(moves: &[BlockMove], block: u32) -> u32
    ensures { result ≡ moved_to moves.now block }
{
    for moved in moves {
        if moved.from == block {
            return moved.to;
        }
    }
    block
}

impl Region {
    /// The record after some moves: that of an image follows the block that it is of.
    fn after(&self, moves: &[BlockMove]) -> Region
        ensures { result ≡ moved_region moves.now self.now }
    {
        let at = match self.kind {
            Kind::Image => moved_to(moves, self.at),
            _ => self.at,
        };
        Region { at, ..*self }
    }
}

impl AddressMap {
    ghost use Rattle.address_map.specs.Memory.{mapping, byte_at, class_of, regions};

    /// The records of module images follow the blocks that were moved, which went to lower
    /// addresses of whole words. No byte is changed, and the records keep their order.
    #[tactic(auto, unfolding(crate::specs::Memory::regions, crate::specs::Memory::place, crate::specs::Memory::byte_at, crate::specs::Memory::free_pages, crate::specs::Memory::class_of))]
    pub fn follow(&mut self, moves: &[BlockMove])
        requires { AreDown moves.now }
        ensures regions { regions self.new ≡ moved_regions moves.now (regions self.old) }
        ensures mapping { mapping self.new ≡ mapping self.old }
        ensures bytes { byte_at self.new ≡ byte_at self.old }
        ensures marks { class_of self.new ≡ class_of self.old }
    {
        let mut moved = ArrayVec::new();
        for region in self.regions.as_slice() {
            moved.push(region.after(moves));
        }
        self.regions = moved;
    }
}
