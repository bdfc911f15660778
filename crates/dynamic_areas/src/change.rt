//! OS_ChangeDynamicArea: an area grows or shrinks by pages.

ghost use Rattle.std.specs.Prelude.{ℕ, ◌≡◌, ◌≤◌, ◌+◌, ◌-◌, ◌*◌, Some};
ghost use Rattle.os_heap.specs.Memory.{free_pages};
ghost use Rattle.os_heap.specs.Store.{store_of};
ghost use Rattle.dynamic_areas.specs.declared.area.Area.{Area};
ghost use Rattle.dynamic_areas.specs.Areas.{find_area};
ghost use Rattle.dynamic_areas.specs.Changing.{change_answer, area_table_changed, area_table_more, area_table_less, loose_pages, store_changed, store_extended, store_more, store_less, store_reduced, AreLoose};
ghost use Rattle.dynamic_areas.specs.Kept.{IsAreaMap, IsGroundMap, KeepsAreaOrder, KeepsGround};

use crate::area::Changed;
use crate::areas::Areas;
use crate::measure::is_growth;
use crate::table::{MODULE_AREA, find};
use os_heap::{AddressMap, Heaps};
use profile::memory_map::PAGE_SIZE;

impl Areas {
    /// Changes the size of an area by `amount` bytes, a signed word in two's complement, its
    /// magnitude rounded up to pages. It grows out of the pool, by pages that are zero, and gives
    /// pages back to it; no other page moves. The module area's heap ends where the area does.
    /// Where not all pages can move, as many do as can: up to the maximum and out of the pool, or
    /// from the top down to the first that must stay.
    ///
    /// The answer has an error where fewer bytes moved than were asked for: `AreaUnknown` where no
    /// area has the number, `AreaInUse` at a shrink, `AreaNoPages` at a growth.
    ///
    /// RISC OS 3 Programmer's Reference Manual, "OS_ChangeDynamicArea".
    pub fn change(&mut self, map: &mut AddressMap, number: u32, amount: u32) -> Changed
        requires state { IsAreaMap map.old self.old }
        ensures answer { result
            ≡ change_answer self.old.areas (store_of map.old) (free_pages map.old) number amount }
        ensures area_table { self.new ≡ area_table_changed self.old number amount result.bytes }
        ensures store { store_of map.new
            ≡ store_changed (store_of map.old) self.old.areas number amount result.bytes }
        ensures kept { KeepsAreaOrder map.old map.new self.old self.new }
    {
        let answer = self.measure(map, number, amount);
        let count = answer.bytes / PAGE_SIZE;
        if is_growth(amount) {
            self.extend(map, number, count);
        } else {
            self.reduce(map, number, count);
        }
        answer
    }

    /// Maps `count` pages for an area, after those that it has, and gives the module area's heap
    /// its end.
    fn extend(&mut self, map: &mut AddressMap, number: u32, count: u32)
        requires state { IsAreaMap map.old self.old }
        requires room { (a : Area) → find_area number self.old.areas ≡ Some a
            → 4096 * (a.pages + count) ≤ a.maximum }
        requires pool { (a : Area) → find_area number self.old.areas ≡ Some a → count ≤ free_pages map.old }
        ensures area_table { self.new ≡ area_table_more self.old number count }
        ensures store { store_of map.new
            ≡ store_extended (store_of map.old) number count (find_area number self.old.areas) }
        ensures kept { KeepsAreaOrder map.old map.new self.old self.new }
    {
        let Some(area) = find(self.list(), number) else {
            return;
        };
        let pages = area.pages + count;
        self.grow(map, number, count);
        if number == MODULE_AREA {
            Heaps::new().set_module_area_end(map, PAGE_SIZE * pages);
        }
    }

    /// Takes `count` pages away from the top of an area, once the module area's heap has its end.
    fn reduce(&mut self, map: &mut AddressMap, number: u32, count: u32)
        requires state { IsAreaMap map.old self.old }
        requires loose { (a : Area) → find_area number self.old.areas ≡ Some a
            → count ≤ loose_pages (store_of map.old) a }
        ensures area_table { self.new ≡ area_table_less self.old number count }
        ensures store { store_of map.new
            ≡ store_reduced (store_of map.old) number count (find_area number self.old.areas) }
        ensures kept { KeepsAreaOrder map.old map.new self.old self.new }
    {
        let Some(area) = find(self.list(), number) else {
            return;
        };
        if number == MODULE_AREA {
            Heaps::new().set_module_area_end(map, PAGE_SIZE * (area.pages - count));
        }
        self.shrink(map, number, count);
    }

    /// Maps `count` pages for an area, after those that it has.
    pub(crate) fn grow(&mut self, map: &mut AddressMap, number: u32, count: u32)
        requires state { IsGroundMap map.old self.old }
        requires room { (a : Area) → find_area number self.old.areas ≡ Some a
            → 4096 * (a.pages + count) ≤ a.maximum }
        requires pool { count ≤ free_pages map.old }
        ensures area_table { self.new ≡ area_table_more self.old number count }
        ensures store { store_of map.new
            ≡ store_more (store_of map.old) count (find_area number self.old.areas) }
        ensures kept { KeepsGround map.old map.new self.old self.new }
    {
        let Some(area) = find(self.list(), number) else {
            return;
        };
        let pages = area.pages;
        map.map_pages(area.base + PAGE_SIZE * pages, count);
        self.set_pages(number, pages + count);
    }

    /// Takes `count` pages away from the top of an area.
    pub(crate) fn shrink(&mut self, map: &mut AddressMap, number: u32, count: u32)
        requires state { IsGroundMap map.old self.old }
        requires loose { (a : Area) → find_area number self.old.areas ≡ Some a
            → AreLoose (store_of map.old) a count }
        ensures area_table { self.new ≡ area_table_less self.old number count }
        ensures store { store_of map.new
            ≡ store_less (store_of map.old) count (find_area number self.old.areas) }
        ensures kept { KeepsGround map.old map.new self.old self.new }
    {
        let Some(area) = find(self.list(), number) else {
            return;
        };
        let pages = area.pages - count;
        map.unmap_pages(area.base + PAGE_SIZE * pages, count);
        self.set_pages(number, pages);
    }
}
