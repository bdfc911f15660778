//! OS_DynamicArea 0: a new area, with number, base and maximum as asked for or chosen.

ghost use Rattle.std.specs.Prelude.{◌≡◌, ◌≤◌, ◌*◌, length, MatchResult};
ghost use Rattle.profile.specs.Outcome.{Gives};
ghost use Rattle.os_heap.specs.Memory.{free_pages};
ghost use Rattle.os_heap.specs.Store.{store_of};
ghost use Rattle.dynamic_areas.specs.Creating.{are_good_sizes, area_wanted, area_table_after_create, is_good, is_good_base, is_good_number, pages_for, wanted_base, wanted_maximum, wanted_number};
ghost use Rattle.dynamic_areas.specs.Kept.{IsAreaMap, KeepsRegions};
ghost use Rattle.dynamic_areas.specs.Remapped.{with_pages_at};

use crate::area::{Area, Created, Wanted};
use crate::areas::{Areas, name_of};
use crate::gaps::{is_in_window, is_name, lowest_gap, meets_area};
use crate::measure::pages_for;
use crate::table::{MINUS_ONE, MOST_AREAS, has_area, is_created, least_number};
use os_heap::AddressMap;
use profile::memory_map::PAGE_SIZE;
use profile::{Config, ErrorNumber};

/// The most bytes of an area that is created.
const MOST_BYTES: u64 = 16_777_216;

impl Areas {
    /// Makes an area, and maps pages for it, all bytes of which are zero.
    ///
    /// # Errors
    ///
    /// The first of these, and nothing is changed then: `AreaBad` where the number is not within
    /// &100 to &7FFFFFFF, the size is greater than the maximum, the maximum is 0 or greater than
    /// 16,777,216, the handler is not 0, the base is no page address from which the maximum lies in
    /// the window, or the name doesn't have 1 to 31 bytes from space to `~`; `AreaTaken` where an
    /// area has the number or an address, or no gap holds the maximum; `AreaTableFull` where there
    /// are 32 areas; `AreaNoPages` where the pool is smaller.
    ///
    /// RISC OS 3 Programmer's Reference Manual, supplement, "OS_DynamicArea", reason 0.
    pub fn create(
        &mut self,
        map: &mut AddressMap,
        wanted: &Wanted,
        name: &[u8],
    ) -> Result<Created, ErrorNumber>
        requires state { IsAreaMap map.old self.old }
        ensures area_table { Gives self.old
            (area_table_after_create self.old (free_pages map.old) wanted.now name.now) result self.new }
        ensures store { MatchResult result
            (λ made. store_of map.new
            ≡ with_pages_at (store_of map.old) made.base (4096 * pages_for wanted.now.size))
            (λ _. store_of map.new ≡ store_of map.old) }
        ensures kept { KeepsRegions map.old map.new self.old self.new }
    {
        let mut area = self.area_wanted(map.free_pages(), wanted, name)?;
        let made = Created {
            number: area.number,
            base: area.base,
            maximum: area.maximum,
        };
        let pages = area.pages;
        area.pages = 0;
        self.put_area(area);
        self.grow(map, made.number, pages);
        Ok(made)
    }

    /// The area that `create` would make of the words of a call where `free` pages are in the pool.
    ///
    /// # Errors
    ///
    /// Those of `create`, in their order.
    pub fn area_wanted(&self, free: u32, wanted: &Wanted, name: &[u8]) -> Result<Area, ErrorNumber>
        ensures { result ≡ area_wanted self.now free wanted.now name.now }
    {
        let maximum = wanted_maximum(self.sizes(), wanted.maximum);
        if !is_good(maximum, wanted, name) {
            return Err(ErrorNumber::AreaBad);
        }
        let areas = self.list();
        let number = wanted_number(areas, wanted.number);
        if has_area(areas, number) {
            return Err(ErrorNumber::AreaTaken);
        }
        let base = wanted_base(areas, wanted.base, maximum as u32).ok_or(ErrorNumber::AreaTaken)?;
        if areas.len() >= MOST_AREAS {
            return Err(ErrorNumber::AreaTableFull);
        }
        let pages = pages_for(wanted.size);
        if free < pages {
            return Err(ErrorNumber::AreaNoPages);
        }
        Ok(Area {
            number,
            name: name_of(name),
            base,
            pages,
            maximum: maximum as u32,
            flags: wanted.flags,
            workspace: wanted.workspace,
        })
    }
}

/// The maximum that a word means, in bytes: -1 is all memory of the machine.
fn wanted_maximum(sizes: Config, word: u32) -> u64
    ensures { result ≡ wanted_maximum sizes word }
{
    if word == MINUS_ONE {
        u64::from(PAGE_SIZE) * u64::from(sizes.pages())
    } else {
        u64::from(PAGE_SIZE) * u64::from(pages_for(word))
    }
}

/// The number that a word means: -1 is the least that is free.
fn wanted_number(areas: &[Area], word: u32) -> u32
    requires { length areas.now ≤ 32 }
    ensures { result ≡ wanted_number areas.now word }
{
    if word == MINUS_ONE {
        least_number(areas)
    } else {
        word
    }
}

/// The base that a word means, where no area has an address from it up to the maximum: -1 is the
/// lowest such.
fn wanted_base(areas: &[Area], word: u32, maximum: u32) -> Option<u32>
    requires { maximum ≤ 16777216 }
    ensures { result ≡ wanted_base areas.now word maximum }
{
    if word == MINUS_ONE {
        return lowest_gap(areas, maximum);
    }
    if meets_area(areas, word, maximum) {
        None
    } else {
        Some(word)
    }
}

/// Whether the words of a call, and a name, are those of an area that may be.
fn is_good(maximum: u64, wanted: &Wanted, name: &[u8]) -> bool
    ensures { result ≡ is_good maximum wanted.now name.now }
{
    if !are_good_sizes(maximum, wanted.size) {
        return false;
    }
    if !is_good_number(wanted.number) || wanted.handler != 0 {
        return false;
    }
    is_good_base(wanted.base, maximum as u32) && is_name(name)
}

fn are_good_sizes(maximum: u64, size: u32) -> bool
    ensures { result ≡ are_good_sizes maximum size }
{
    1 <= maximum
        && maximum <= MOST_BYTES
        && u64::from(PAGE_SIZE) * u64::from(pages_for(size)) <= maximum
}

fn is_good_number(word: u32) -> bool
    ensures { result ≡ is_good_number word }
{
    word == MINUS_ONE || is_created(word)
}

fn is_good_base(word: u32, maximum: u32) -> bool
    ensures { result ≡ is_good_base word maximum }
{
    word == MINUS_ONE || word % PAGE_SIZE == 0 && is_in_window(word, maximum)
}
