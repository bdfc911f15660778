//! How many bytes a change of an area's size can move, and which pages must stay.

ghost use Rattle.profile.specs.MemoryMap.{module_area_start};
ghost use Rattle.std.specs.Prelude.{◌≡◌, ◌≤◌, ◌+◌, ◌*◌};
ghost use Rattle.os_heap.specs.Memory.{free_pages};
ghost use Rattle.os_heap.specs.Store.{store_of, find_heap};
ghost use Rattle.dynamic_areas.specs.Changing.{change_answer, growth_room, heap_base, held_from, is_growth, loose_pages, moving, must_stay, pages_asked};
ghost use Rattle.dynamic_areas.specs.Creating.{pages_for};
ghost use Rattle.dynamic_areas.specs.Ground.{AreAreas};
ghost use Rattle.dynamic_areas.specs.Kept.{HasAreaHeap};
ghost use Rattle.dynamic_areas.specs.Rooms.{IsAreaRoom};

use crate::area::{Area, Changed};
use crate::areas::Areas;
use crate::table::{MODULE_AREA, find};
use os_heap::AddressMap;
use profile::ErrorNumber;
use profile::memory_map::{PAGE_SIZE, RMA_START};

/// Where in a heap's descriptor its base stands, counted from its start.
const BASE_WORD: u32 = 8;

impl Areas {
    /// What `change` would answer.
    pub fn measure(&self, map: &AddressMap, number: u32, amount: u32) -> Changed
        requires { AreAreas (store_of map.now) (free_pages map.now) self.now }
        ensures { result ≡ change_answer self.now.areas (store_of map.now)
            (free_pages map.now) number amount }
    {
        let Some(area) = find(self.list(), number) else {
            return Changed {
                bytes: 0,
                error: Some(ErrorNumber::AreaUnknown),
            };
        };
        let asked = pages_asked(amount);
        if is_growth(amount) {
            moving(
                asked,
                growth_room(map.free_pages(), area),
                ErrorNumber::AreaNoPages,
            )
        } else {
            moving(asked, loose_pages(map, area), ErrorNumber::AreaInUse)
        }
    }
}

/// As many of the pages asked for as can move, in bytes, and the error where these are fewer.
fn moving(asked: u32, room: u32, error: ErrorNumber) -> Changed
    requires { asked ≤ 524288 }
    ensures { result ≡ moving asked room error }
{
    Changed {
        bytes: PAGE_SIZE * asked.min(room),
        error: if room < asked { Some(error) } else { None },
    }
}

/// Whether a change, a signed word in two's complement, is not negative.
pub(crate) fn is_growth(amount: u32) -> bool
    ensures { result ≡ is_growth amount }
{
    amount < 0x8000_0000
}

/// The magnitude of a change, rounded up to pages.
fn pages_asked(amount: u32) -> u32
    ensures value { result ≡ pages_asked amount }
    ensures most { result ≤ 524288 }
{
    if is_growth(amount) {
        pages_for(amount)
    } else {
        pages_for(0x8000_0000 - (amount - 0x8000_0000))
    }
}

/// Bytes rounded up to pages.
pub(crate) fn pages_for(bytes: u32) -> u32
    ensures { result ≡ pages_for bytes }
{
    ((u64::from(bytes) + 4095) / 4096) as u32
}

/// How many pages an area can get.
fn growth_room(free: u32, area: &Area) -> u32
    requires { 4096 * area.now.pages ≤ area.now.maximum }
    ensures { result ≡ growth_room free area.now }
{
    (area.maximum / PAGE_SIZE - area.pages).min(free)
}

/// How many pages an area can lose.
pub(crate) fn loose_pages(map: &AddressMap, area: &Area) -> u32
    requires state { HasAreaHeap (store_of map.now) }
    requires room { IsAreaRoom area.now }
    ensures { result ≡ loose_pages (store_of map.now) area.now }
{
    area.pages - held_pages(map, area)
}

/// How many pages are left where those at the top go, up to the first that must stay.
fn held_pages(map: &AddressMap, area: &Area) -> u32
    requires state { HasAreaHeap (store_of map.now) }
    requires room { IsAreaRoom area.now }
    ensures value { result
        ≡ held_from (must_stay (store_of map.now) area.now.number) area.now.base area.now.pages }
    ensures most { result ≤ area.now.pages }
{
    let mut pages = area.pages;
    while pages > 0 {
        if must_stay(map, area.number, area.base + PAGE_SIZE * (pages - 1)) {
            return pages;
        }
        pages -= 1;
    }
    0
}

/// Whether the page at an address must stay an area's: it has a byte of a recorded range or of an
/// anchor, or, in the module area, of what lies below its heap's base.
fn must_stay(map: &AddressMap, number: u32, page: u32) -> bool
    requires state { HasAreaHeap (store_of map.now) }
    ensures { result ≡ must_stay (store_of map.now) number page }
{
    if number == MODULE_AREA {
        page < heap_base(map)
    } else {
        map.meets_record(page, PAGE_SIZE) || map.anchor_in(page, PAGE_SIZE)
    }
}

/// The address after the last item of the module area's heap.
fn heap_base(map: &AddressMap) -> u32
    requires state { HasAreaHeap (store_of map.now) }
    ensures { result ≡ heap_base (find_heap module_area_start (store_of map.now).heaps) }
{
    match map.load_word(RMA_START + BASE_WORD) {
        Ok(base) => RMA_START + base,
        Err(_) => RMA_START,
    }
}
