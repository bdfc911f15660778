//! Blocks of the module area recorded as module images, and given back as such.

ghost use Rattle.dynamic_areas.specs.MemoryMap.{module_area_start};
ghost use Rattle.std.specs.Prelude.{◌≡◌, IfOk, MatchResult};
ghost use Rattle.dynamic_areas.specs.Memory.{regions};
ghost use Rattle.dynamic_areas.specs.Records.{without_region};
ghost use Rattle.dynamic_areas.specs.Kind.TheVariants.{Image};
ghost use Rattle.dynamic_areas.specs.Calls.{block_sized};
ghost use Rattle.dynamic_areas.specs.Order.{AddsRecord, KeepsOrder};
ghost use Rattle.dynamic_areas.specs.Store.{store_of, IsSound};
ghost use Rattle.rma.specs.flex_frame.Keeping.{RangeHasNoAnchor, KeepsFlex};
ghost use Rattle.rma.specs.Images.{image_dropped, image_freed, image_recorded, CanRecord};
ghost use Rattle.dynamic_areas.specs.Sound.{IsSoundMap};
ghost use Rattle.rma.specs.Kept.{KeepsAreaStores, KeepsFlexAreas, FreesRoom};

use crate::area::Rma;
use dynamic_areas::{AddressMap, Heaps, Kind, RMA_START};

impl Rma {
    /// Records the block whose first byte is at `at`, in which no heap lies, as a module image,
    /// over all bytes that it holds; no call gives it back or moves it then, but a slide, which the
    /// record follows. Where no block of a guest's is there, nothing is done.
    pub fn record_image(&self, map: &mut AddressMap, at: u32)
        requires sound { IsSound (store_of map.old) }
        requires may { CanRecord (store_of map.old) at }
        ensures store { store_of map.new ≡ image_recorded (store_of map.old) at }
        ensures kept { KeepsAreaStores map.old map.new }
        ensures order { MatchResult (block_sized (store_of map.old) module_area_start at)
            (λ _. AddsRecord map.old map.new Image at) (λ _. KeepsOrder map.old map.new) }
        ensures flex { IfOk (block_sized (store_of map.old) module_area_start at)
            (λ len. RangeHasNoAnchor (store_of map.old) at len)
            → KeepsFlex (store_of map.old) (store_of map.new) }
    {
        match Heaps::new().block_size(map, RMA_START, at).answer {
            Ok(len) => map.own(Kind::Image, at, len),
            Err(_) => {}
        }
    }

    /// Takes the record of the image at an address away, if there is one: a block there is a
    /// guest's then, and can be given back.
    pub fn drop_image(&self, map: &mut AddressMap, at: u32)
        requires { IsSound (store_of map.old) }
        ensures store { store_of map.new ≡ image_dropped (store_of map.old) at }
        ensures kept { KeepsFlexAreas map.old map.new }
        ensures regions { regions map.new ≡ without_region (regions map.old) Image at }
    {
        map.disown(Kind::Image, at);
    }

    /// Gives the block of a module image back: its record goes, and its room is free then. The same
    /// is done to a block that is no image, and the heaps in it are forgotten; where there is no
    /// block, nothing more is done.
    pub fn free_image(&self, map: &mut AddressMap, at: u32)
        requires state { IsSoundMap map.old }
        ensures store { store_of map.new ≡ image_freed (store_of map.old) at }
        ensures kept { FreesRoom map.old map.new (without_region (regions map.old) Image at)
            (without_region (store_of map.old).others Image at) }
    {
        self.drop_image(map, at);
        let _ = Heaps::new().free(map, RMA_START, at).answer;
    }
}
