//! Images that stay where they lie: whether a range may be one, and its record.

ghost use Rattle.std.specs.Prelude.{◌≡◌, ◌<◌, true, length};
ghost use Rattle.dynamic_areas.specs.Kind.TheVariants.{Image};
ghost use Rattle.dynamic_areas.specs.Order.{AddsRecord};
ghost use Rattle.dynamic_areas.specs.Ranges.{are_bytes_mapped, meets_any};
ghost use Rattle.dynamic_areas.specs.Store.{store_of, IsSound};
ghost use Rattle.dynamic_areas.specs.Areas.{AreaTable};
ghost use Rattle.dynamic_areas.specs.Ground.{area_store_of};
ghost use Rattle.rma.specs.Calls.{with_store};
ghost use Rattle.rma.specs.NewImages.{may_be_in_place, with_image_in_place};
ghost use Rattle.rma.specs.Kept.{KeepsFlexAreas};

use crate::area::Rma;
use dynamic_areas::{AddressMap, Kind};

impl Rma {
    /// Whether the `len` bytes from an address on may be an image in place: they begin at a whole
    /// word, all are mapped, and none lies in a recorded range or an anchor.
    ///
    /// RISC OS 3 Programmer's Reference Manual, "OS_Module", reason 10; that it meets nothing is
    /// this project's own.
    pub fn may_be_in_place(&self, map: &AddressMap, at: u32, len: u32) -> bool
        ensures { result ≡ may_be_in_place (store_of map.now) at len }
    {
        at % 4 == 0 && are_mapped(map, at, len) && !meets_any(map, at, len)
    }

    /// Records the `len` bytes from an address on as an image in place, over exactly these bytes.
    pub fn record_in_place(&self, map: &mut AddressMap, at: u32, len: u32)
        requires sound { IsSound (store_of map.old) }
        requires may { may_be_in_place (store_of map.old) at len ≡ true }
        requires some { 0 < len }
        requires room { length (store_of map.old).others < 68 }
        ensures placed { (l : AreaTable)
            → area_store_of map.new l ≡ with_store (area_store_of map.old l)
            (with_image_in_place (store_of map.old) at len) }
        ensures kept { KeepsFlexAreas map.old map.new }
        ensures order { AddsRecord map.old map.new Image at }
    {
        map.own(Kind::Image, at, len);
    }
}

/// Whether each of the `len` bytes from an address on is mapped.
pub(crate) fn are_mapped(map: &AddressMap, at: u32, len: u32) -> bool
    ensures { result ≡ are_bytes_mapped (store_of map.now).bytes.mapped at len }
{
    map.maps(at, len)
}

/// Whether a range meets a recorded one, or holds an anchor.
fn meets_any(map: &AddressMap, at: u32, len: u32) -> bool
    ensures { result ≡ meets_any at len (store_of map.now) }
{
    map.meets_record(at, len) || map.anchor_in(at, len)
}
