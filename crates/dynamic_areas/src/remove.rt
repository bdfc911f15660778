//! OS_DynamicArea 1: an area is taken away, and its pages go back to the pool.

ghost use Rattle.std.specs.Prelude.{◌≡◌, MatchResult};
ghost use Rattle.profile.specs.Outcome.{Leaves};
ghost use Rattle.os_heap.specs.Store.{store_of};
ghost use Rattle.dynamic_areas.specs.Areas.{find_area};
ghost use Rattle.dynamic_areas.specs.Changing.{area_table_after_remove, store_emptied};
ghost use Rattle.dynamic_areas.specs.Kept.{IsAreaMap, KeepsRegions};

use crate::areas::Areas;
use crate::measure::loose_pages;
use crate::table::{MODULE_AREA, find};
use os_heap::AddressMap;
use profile::ErrorNumber;

impl Areas {
    /// Takes an area away; its pages are in the pool then.
    ///
    /// # Errors
    ///
    /// The first of these, and nothing is changed then: `AreaUnknown` where no area has the number;
    /// `AreaInUse` where it is the module area, or one of its pages must stay.
    ///
    /// RISC OS 3 Programmer's Reference Manual, supplement, "OS_DynamicArea", reason 1.
    pub fn remove(&mut self, map: &mut AddressMap, number: u32) -> Result<(), ErrorNumber>
        requires state { IsAreaMap map.old self.old }
        ensures area_table { Leaves self.old (area_table_after_remove self.old (store_of map.old) number)
            result
            self.new }
        ensures store { MatchResult result
            (λ _. store_of map.new ≡ store_emptied (store_of map.old) (find_area number self.old.areas))
            (λ _. store_of map.new ≡ store_of map.old) }
        ensures kept { KeepsRegions map.old map.new self.old self.new }
    {
        let Some(area) = find(self.list(), number) else {
            return Err(ErrorNumber::AreaUnknown);
        };
        let pages = area.pages;
        if number == MODULE_AREA {
            return Err(ErrorNumber::AreaInUse);
        }
        if loose_pages(map, area) < pages {
            return Err(ErrorNumber::AreaInUse);
        }
        self.shrink(map, number, pages);
        self.drop_area(number);
        Ok(())
    }
}
