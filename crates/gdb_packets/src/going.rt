//! What a run is for.

ghost use Rattle.std.specs.Prelude.{◌≡◌};
ghost use Rattle.gdb_packets.specs.Going.{has_left};

use crate::requests::PlaceRange;

/// What a run is for.
#[derive(Clone, Copy)]
pub enum Going {
    /// One step.
    Once,
    /// Steps, as long as the program stands in a range of addresses.
    Within(PlaceRange),
    /// To go on until something stops it.
    On,
}

/// Whether the program has left the range in which it is to take steps.
pub fn has_left(going: Going, address: u32) -> bool
    ensures { result ≡ has_left going address }
{
    match going {
        Going::Within(places) => address < places.start || address >= places.end,
        Going::Once | Going::On => false,
    }
}
