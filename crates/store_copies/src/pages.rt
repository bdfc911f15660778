//! The pages of a machine's memory that are mapped, found without a look at each that isn't.

ghost use Rattle.std.specs.Prelude.{ℕ, ◌≡◌, ◌≤◌, ◌<◌, ◌*◌, ◌^◌, false};
ghost use Rattle.swi_dispatch_guest.specs.DynamicAreasAreas.{AreaTable};
ghost use Rattle.address_map.specs.Memory.{is_mapped};
ghost use Rattle.store_copies.specs.Pages.{AreUnmappedPages, IsNoStartBetween};

use profile::memory_map::{ADDRESS_LIMIT, APPLICATION_START, PAGE_SIZE, SYSTEM_START};
use swi_dispatch_guest::{Area, Machine};

/// How many pages the address space has.
pub(crate) const PAGES: u32 = ADDRESS_LIMIT / PAGE_SIZE;

/// The first page from one on that may be mapped: those before it aren't.
pub(crate) fn past_unmapped(machine: &Machine, page: u32) -> u32
    requires { page ≤ 16384 }
    ensures from { page ≤ result }
    ensures limit { result ≤ 16384 }
    ensures unmapped { AreUnmappedPages machine.now.guest.map page result }
{
    machine.known();
    if page == PAGES || machine.memory().translate(PAGE_SIZE * page).is_some() {
        return page;
    }
    next_start(machine.areas().list(), PAGE_SIZE * page) / PAGE_SIZE
}

// The next address after one at which a range of memory starts, or the end of all addresses.
fn next_start(areas: &[Area], at: u32) -> u32
    requires { at < 2 ^ 26 }
    ensures above { at < result }
    ensures limit { result ≤ 2 ^ 26 }
    ensures none { IsNoStartBetween areas.now at result }
{
    let first = nearer(at, ADDRESS_LIMIT, APPLICATION_START);
    let mut next = nearer(at, first, SYSTEM_START);
    for area in areas {
        next = nearer(at, next, area.base);
    }
    next
}

// The nearer to an address of two after it; the second may lie before it.
fn nearer(at: u32, next: u32, start: u32) -> u32
    requires { at < next }
    ensures above { at < result }
    ensures no_more { result ≤ next }
    ensures start { at < start → result ≤ start }
{
    if at < start && start < next {
        start
    } else {
        next
    }
}
