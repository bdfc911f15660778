//! The table of areas, and the calls that read it or give an area another number.

ghost use Rattle.std.specs.Prelude.{◌≡◌, ◌≤◌, ◌<◌, length, Ok, Err, MatchResult};
ghost use Rattle.profile.specs.Outcome.{Leaves};
ghost use Rattle.os_heap.specs.Memory.{free_pages};
ghost use Rattle.dynamic_areas.specs.Areas.{area_in, asked_number, extent_of, extent_asked, next_number, module_area, start_area_table, areas_after_renumber, with_area, with_areas, with_pages, without_area};
ghost use Rattle.dynamic_areas.specs.Kept.{KeepsAreaTable};
ghost use Rattle.dynamic_areas.specs.Rooms.{IsAreaTable};

use crate::area::{Area, Extent, MOST_NAME_BYTES};
use crate::table::{
    MINUS_ONE, MODULE_AREA, MOST_AREAS, find, next_above, put_area, renumber, set_pages, take_area,
};
use arrayvec::ArrayVec;
use os_heap::AddressMap;
use profile::memory_map::{PAGE_SIZE, RMA_MAXIMUM, RMA_START};
use profile::{Config, ErrorNumber};
use std::marker::Model;

/// The dynamic areas of a machine, at most 32, in the order of their numbers. The first is the
/// module area.
#[derive(Drop)]
pub struct Areas {
    sizes: Config,
    list: ArrayVec<Area, MOST_AREAS>,
}

impl Model for Areas {
    ghost use Rattle.dynamic_areas.specs.Areas.{AreaTable};

    ghost Value = { AreaTable };

    ghost view = { λ a. record { sizes = a.sizes; areas = a.list.items } };
}

impl Areas {
    /// The areas of a machine at its start: the module area, with the pages that the sizes give it.
    pub fn new(sizes: Config) -> Areas
        ensures area_table { result ≡ start_area_table sizes }
        ensures table { IsAreaTable result.areas }
    {
        let mut list = ArrayVec::new();
        list.push(module_area(sizes.rma()));
        Areas { sizes, list }
    }

    /// All areas, in the order of their numbers.
    pub fn list(&self) -> &[Area]
        ensures value { result.now ≡ self.now.areas }
        ensures few { length result.now ≤ 32 }
    {
        self.list.as_slice()
    }

    /// The area of a number, as OS_DynamicArea, reason 2, shows it.
    ///
    /// # Errors
    ///
    /// `AreaUnknown` where no area has the number.
    ///
    /// RISC OS 3 Programmer's Reference Manual, supplement, "OS_DynamicArea".
    pub fn info(&self, number: u32) -> Result<&Area, ErrorNumber>
        ensures { MatchResult result
            (λ a. area_in self.now.areas number ≡ Ok a.now)
            (λ e. area_in self.now.areas number ≡ Err e) }
    {
        find(self.list(), number).ok_or(ErrorNumber::AreaUnknown)
    }

    /// Where an area lies, in bytes, as OS_ReadDynamicArea shows it: from 128 to 255 a number means
    /// the area that is 128 less; from 128 on the answer has the maximum too.
    ///
    /// # Errors
    ///
    /// `AreaUnknown` where no area has the number.
    ///
    /// RISC OS 3 Programmer's Reference Manual, "OS_ReadDynamicArea".
    pub fn read(&self, word: u32) -> Result<Extent, ErrorNumber>
        requires { IsAreaTable self.now.areas }
        ensures { result ≡ extent_asked self.now.areas word }
    {
        let area = self.info(asked_number(word))?;
        Ok(Extent {
            base: area.base,
            size: PAGE_SIZE * area.pages,
            maximum: if word >= 128 {
                Some(area.maximum)
            } else {
                None
            },
        })
    }

    /// The next greater number of an area, or the least where the given one is -1; the answer is -1
    /// after the last.
    ///
    /// # Errors
    ///
    /// `AreaUnknown` where no area has the number.
    ///
    /// RISC OS 3 Programmer's Reference Manual, supplement, "OS_DynamicArea", reason 3.
    pub fn next(&self, number: u32) -> Result<u32, ErrorNumber>
        ensures { result ≡ next_number self.now.areas number }
    {
        if number == MINUS_ONE {
            return Ok(next_above(self.list(), 0));
        }
        self.info(number)?;
        Ok(next_above(self.list(), number))
    }

    /// Gives an area another number.
    ///
    /// # Errors
    ///
    /// The first of these, and nothing is changed then: `AreaUnknown` where no area has the number;
    /// `AreaBad` where it is the module area, or the new number is not within &100 to &7FFFFFFF;
    /// `AreaTaken` where an area has the new number, this one included. What holds of the areas and
    /// the memory holds afterwards too.
    ///
    /// RISC OS 3 Programmer's Reference Manual, supplement, "OS_DynamicArea", reason 4.
    pub fn renumber(&mut self, old: u32, new: u32) -> Result<(), ErrorNumber>
        requires { IsAreaTable self.old.areas }
        ensures areas { Leaves self.old.areas (areas_after_renumber self.old.areas old new) result
            self.new.areas }
        ensures kept { KeepsAreaTable self.old self.new }
    {
        renumber(&mut self.list, old, new)
    }

    /// Gives an area another count of pages, if there is one of that number.
    pub(crate) fn set_pages(&mut self, number: u32, pages: u32)
        ensures { self.new ≡ with_areas self.old (with_pages number pages self.old.areas) }
    {
        set_pages(&mut self.list, number, pages);
    }

    /// Puts an area in, at its place by number.
    pub(crate) fn put_area(&mut self, area: Area)
        requires { length self.old.areas < 32 }
        ensures { self.new ≡ with_areas self.old (with_area area self.old.areas) }
    {
        put_area(&mut self.list, area);
    }

    /// Takes the area of a number out, if there is one.
    pub(crate) fn drop_area(&mut self, number: u32)
        ensures { self.new ≡ with_areas self.old (without_area number self.old.areas) }
    {
        let _ = take_area(&mut self.list, number);
    }

    /// The sizes of the machine.
    pub(crate) fn sizes(&self) -> Config
        ensures { result ≡ self.now.sizes }
    {
        self.sizes
    }

    /// How many pages are in the pool, out of which areas grow.
    pub fn pool(&self, map: &AddressMap) -> u32
        ensures { result ≡ free_pages map.now }
    {
        map.free_pages()
    }
}

/// Which area a word of OS_ReadDynamicArea means.
fn asked_number(word: u32) -> u32
    ensures { result ≡ asked_number word }
{
    if (128..256).contains(&word) {
        word - 128
    } else {
        word
    }
}

/// The module area, with so many pages.
fn module_area(pages: u32) -> Area
    ensures { result ≡ module_area pages }
{
    Area {
        number: MODULE_AREA,
        name: name_of(b"RMA"),
        base: RMA_START,
        pages,
        maximum: RMA_MAXIMUM,
        flags: 0,
        workspace: 0,
    }
}

/// A name of these bytes.
pub(crate) fn name_of(bytes: &[u8]) -> ArrayVec<u8, MOST_NAME_BYTES>
    requires { length bytes.now ≤ 31 }
    ensures { result.items ≡ bytes.now }
{
    let mut name = ArrayVec::new();
    name.try_extend_from_slice(bytes).unwrap();
    name
}
