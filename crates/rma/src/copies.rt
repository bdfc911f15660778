//! Whether a range of memory may be copied into the module area as an image.

ghost use Rattle.std.specs.Prelude.{◌≡◌};
ghost use Rattle.dynamic_areas.specs.Ground.{area_store_of, IsAreaStore};
ghost use Rattle.rma.specs.Copies.{has_bare, may_be_copied};

use crate::area::Rma;
use crate::growth::area_size;
use crate::in_place::are_mapped;
use dynamic_areas::{AddressMap, Areas, Heaps, Payload, RMA_START};

impl Rma {
    /// Whether a module image may be a copy of the `len` bytes from an address on: all are mapped,
    /// and those of the module area lie in what one live block holds.
    ///
    /// RISC OS 3 Programmer's Reference Manual, "OS_Module", reason 11; the part about the module
    /// area is this project's own.
    pub fn may_be_copied(&self, map: &AddressMap, areas: &Areas, at: u32, len: u32) -> bool
        requires { IsAreaStore (area_store_of map.now areas.now) }
        ensures { result ≡ may_be_copied (area_store_of map.now areas.now) at len }
    {
        are_mapped(map, at, len) && !has_bare(map, areas, at, len)
    }
}

/// Whether one of the `len` bytes from an address on is in the module area, but in nothing that a
/// live block holds. A length word stands between any two blocks, so those of the bytes that are in
/// the area must all lie in one block.
fn has_bare(map: &AddressMap, areas: &Areas, at: u32, len: u32) -> bool
    requires { IsAreaStore (area_store_of map.now areas.now) }
    ensures { result ≡ has_bare (area_store_of map.now areas.now) at len }
{
    let first = at.max(RMA_START);
    let end = u64::from(RMA_START) + u64::from(area_size(areas));
    let to = (u64::from(at) + u64::from(len)).min(end);
    if u64::from(first) >= to {
        return false;
    }
    match Heaps::new().live_payload_in(map, RMA_START, first) {
        Payload::Inside {
            at: block,
            len: held,
        } => u64::from(block) + u64::from(held) < to,
        _ => true,
    }
}
