//! The module area, and OS_Module 5: what is free in it.

ghost use Rattle.std.specs.Prelude.{◌≡◌, Ok};
ghost use Rattle.dynamic_areas.specs.Store.{store_of, IsSound};
ghost use Rattle.rma.specs.Calls.{rma_described};

use dynamic_areas::{AddressMap, ErrorNumber, Heaps, RMA_START};

/// The module area's heap. It stands in the words of memory alone.
#[derive(Clone, Copy, Default)]
pub struct Rma;

impl Rma {
    /// The module area of a machine at its start.
    pub fn new() -> Rma {
        Rma
    }

    /// The bytes of the largest block that can be claimed as the area stands, and all that are
    /// free. It is never refused.
    ///
    /// RISC OS 3 Programmer's Reference Manual, "OS_Module", reason 5.
    #[tactic(auto, unfolding(crate::specs::Calls::rma_described))]
    pub fn describe(&self, map: &AddressMap) -> Result<(u32, u32), ErrorNumber>
        requires { IsSound (store_of map.now) }
        ensures { result ≡ Ok (rma_described (store_of map.now)) }
    {
        match Heaps::new().describe(map, RMA_START).answer {
            Ok(room) => Ok(room),
            Err(_) => Ok((0, 0)),
        }
    }
}
