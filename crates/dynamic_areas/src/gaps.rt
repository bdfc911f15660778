//! Where a new area has room among the others, and which texts can name one.

ghost use Rattle.std.specs.Prelude.{◌≡◌, ◌≤◌, ◌<◌, ◌%◌, ◌&&◌};
ghost use Rattle.dynamic_areas.specs.Rooms.{meets_area, can_name_area, is_area_name_byte, is_in_window};
ghost use Rattle.dynamic_areas.specs.Creating.{gap_count, lowest_gap};
ghost use Rattle.std.specs.List.{list_all};

use crate::area::{Area, MOST_NAME_BYTES};
use os_heap::do_meet;
use profile::memory_map::{AREA_WINDOW_END, AREA_WINDOW_START, PAGE_SIZE};

/// Whether a range shares an address with an area's, taken with its maximum.
pub(crate) fn meets_area(areas: &[Area], base: u32, maximum: u32) -> bool
    ensures { result ≡ meets_area base maximum areas.now }
{
    for area in areas {
        if do_meet(base, maximum, area.base, area.maximum) {
            return true;
        }
    }
    false
}

/// Whether a range lies in the window of the created areas.
pub(crate) fn is_in_window(base: u32, maximum: u32) -> bool
    ensures { result ≡ is_in_window base maximum }
{
    base >= AREA_WINDOW_START && u64::from(base) + u64::from(maximum) <= u64::from(AREA_WINDOW_END)
}

/// The lowest gap of the window that holds an area of that maximum.
pub(crate) fn lowest_gap(areas: &[Area], maximum: u32) -> Option<u32>
    requires { maximum ≤ 16777216 }
    ensures { result ≡ lowest_gap areas.now maximum }
{
    let count = gap_count(maximum);
    for page in 0..count {
        let base = AREA_WINDOW_START + PAGE_SIZE * page;
        if !meets_area(areas, base, maximum) {
            return Some(base);
        }
    }
    None
}

/// At how many page addresses of the window an area of that maximum fits.
fn gap_count(maximum: u32) -> u32
    requires { maximum ≤ 16777216 }
    ensures value { result ≡ gap_count maximum }
    ensures few { result ≤ 4097 }
{
    (AREA_WINDOW_END - AREA_WINDOW_START - maximum) / PAGE_SIZE + 1
}

/// Whether a text can name an area: 1 to 31 bytes from space to `~`.
pub(crate) fn is_name(name: &[u8]) -> bool
    ensures { result ≡ can_name_area name.now }
{
    !name.is_empty() && name.len() <= MOST_NAME_BYTES && are_name_bytes(name)
}

fn are_name_bytes(name: &[u8]) -> bool
    ensures { result ≡ list_all is_area_name_byte name.now }
{
    name.iter().all(|byte| *byte >= 32 && *byte <= 126)
}
