//! The blocks that are a guest's: those that are no module images.

ghost use Rattle.std.specs.Prelude.{◌≡◌, ◌+◌};
ghost use Rattle.os_heap_words.specs.lists.Counts.{begun_below};
ghost use Rattle.os_heap_words.specs.Outcomes.{HasHeapAt, items_at};
ghost use Rattle.os_heap.specs.GuestBlocks.{FindsGuestBlock};
ghost use Rattle.os_heap.specs.Store.{has_image, is_image};

use os_heap_words::walk::{Walk, find_block};
use os_heap_words::{AddressMap, Kind, Region};

/// The guest's block whose bytes begin at `block`: where a module image is recorded there is none.
pub(crate) fn find_guest_block(map: &AddressMap, heap: u32, block: u32) -> Walk
    requires { HasHeapAt map.now heap }
    ensures block { FindsGuestBlock map.now heap block result.hit }
    ensures probes { result.probes ≡ begun_below block (heap + 16) (items_at map.now heap) }
{
    let walk = find_block(map, heap, block);
    if has_image(map.regions(), block) {
        return Walk { hit: None, ..walk };
    }
    walk
}

/// Whether a module image is recorded at an address.
fn has_image(regions: &[Region], at: u32) -> bool
    ensures { result ≡ has_image at regions.now }
{
    for region in regions {
        if is_image(region.kind) && region.at == at {
            return true;
        }
    }
    false
}

/// Whether a range of that kind is a module image.
fn is_image(kind: Kind) -> bool
    ensures { result ≡ is_image kind }
{
    matches!(kind, Kind::Image)
}
