//! OS_Module 7: a block is given back.

ghost use Rattle.dynamic_areas.specs.Outcome.{Gives};
ghost use Rattle.dynamic_areas.specs.Memory.{regions};
ghost use Rattle.dynamic_areas.specs.Store.{store_of};
ghost use Rattle.dynamic_areas.specs.Areas.{AreaTable};
ghost use Rattle.dynamic_areas.specs.Ground.{area_store_of};
ghost use Rattle.rma.specs.Calls.{rma_freed};
ghost use Rattle.dynamic_areas.specs.Sound.{IsSoundMap};
ghost use Rattle.rma.specs.Kept.{FreesRoom};

use crate::area::Rma;
use crate::errors::rma_error;
use dynamic_areas::{AddressMap, ErrorNumber, Heaps, RMA_START};

impl Rma {
    /// Gives the block whose first byte is at `block` back to the module area, which keeps its
    /// size. The heaps that lie in the block are forgotten.
    ///
    /// # Errors
    ///
    /// `RmaNotABlock` where no block's bytes begin at `block`, or they are a module image;
    /// `RmaHoldsAnchor` where an anchor of the flex store lies in the block. Nothing is changed
    /// then.
    ///
    /// RISC OS 3 Programmer's Reference Manual, "OS_Module", reason 7.
    pub fn free(&self, map: &mut AddressMap, block: u32) -> Result<(), ErrorNumber>
        requires state { IsSoundMap map.old }
        ensures freed { (l : AreaTable)
            → Gives (area_store_of map.old l) (rma_freed (area_store_of map.old l) block) result
            (area_store_of map.new l) }
        ensures kept { FreesRoom map.old map.new (regions map.old) (store_of map.old).others }
    {
        match Heaps::new().free(map, RMA_START, block).answer {
            Ok(()) => Ok(()),
            Err(error) => Err(rma_error(error)),
        }
    }
}
