//! The list of areas, kept in order of number: looked up, put in, taken out and renumbered.

ghost use Rattle.std.specs.Prelude.{ℕ, ◌≡◌, ◌≤◌, ◌<◌, ◌+◌, length, MatchOption, Some, None, is_some};
ghost use Rattle.profile.specs.Outcome.{Leaves};
ghost use Rattle.std.specs.List.{insert};
ghost use Rattle.std.specs.Option.{option_copied};
ghost use Rattle.dynamic_areas.specs.declared.area.Area.{Area};
ghost use Rattle.dynamic_areas.specs.Areas.{find_area, with_area, without_area, with_pages, next_above, is_created, areas_after_renumber};
ghost use Rattle.dynamic_areas.specs.Creating.{least_number};
ghost use Rattle.dynamic_areas.specs.Places.{IsPlaceOf};
ghost use Rattle.dynamic_areas.specs.Rooms.{IsAreaTable};

use crate::area::Area;
use arrayvec::ArrayVec;
use profile::ErrorNumber;

/// The most areas, the module area among them.
pub const MOST_AREAS: usize = 32;

/// The number of the module area.
pub const MODULE_AREA: u32 = 1;

/// The word -1, which stands for no area.
pub(crate) const MINUS_ONE: u32 = u32::MAX;

/// The area of a number.
pub(crate) fn find(areas: &[Area], number: u32) -> Option<&Area>
    ensures { option_copied result ≡ find_area number areas.now }
{
    for area in areas {
        if area.number == number {
            return Some(area);
        }
    }
    None
}

/// Whether an area has a number.
pub(crate) fn has_area(areas: &[Area], number: u32) -> bool
    ensures { result ≡ is_some (find_area number areas.now) }
{
    find(areas, number).is_some()
}

/// Where in the list the area of a number is.
pub(crate) fn index_of(areas: &[Area], number: u32) -> Option<usize>
    ensures { MatchOption result (find_area number areas.now ≡ None) (λ i. IsPlaceOf number areas.now i) }
{
    for (index, area) in areas.iter().enumerate() {
        if area.number == number {
            return Some(index);
        }
    }
    None
}

/// Where in the list an area of that number belongs.
pub(crate) fn place_of(areas: &[Area], number: u32) -> usize
    ensures place { (area : Area) → area.number ≡ number
        → with_area area areas.now ≡ insert areas.now result area }
    ensures within { result ≤ length areas.now }
{
    for (index, area) in areas.iter().enumerate() {
        if number < area.number {
            return index;
        }
    }
    areas.len()
}

/// The first number in the list that is greater, or -1.
pub(crate) fn next_above(areas: &[Area], number: u32) -> u32
    ensures { result ≡ next_above number areas.now }
{
    for area in areas {
        if number < area.number {
            return area.number;
        }
    }
    MINUS_ONE
}

/// The least number of a created area that none has.
pub(crate) fn least_number(areas: &[Area]) -> u32
    requires { length areas.now ≤ 32 }
    ensures { result ≡ least_number 256 areas.now }
{
    let mut number = 256;
    for area in areas {
        if number < area.number {
            return number;
        }
        if area.number == number {
            number += 1;
        }
    }
    number
}

/// Whether a created area may have that number.
pub(crate) fn is_created(number: u32) -> bool
    ensures { result ≡ is_created number }
{
    (0x100..=0x7FFF_FFFF).contains(&number)
}

/// Gives the area of a number another count of pages, if there is one.
pub(crate) fn set_pages(areas: &mut ArrayVec<Area, MOST_AREAS>, number: u32, pages: u32)
    ensures { areas.new.items ≡ with_pages number pages areas.old.items }
{
    if let Some(index) = index_of(areas.as_slice(), number) {
        areas[index].pages = pages;
    }
}

/// Takes the area of a number out, if there is one.
pub(crate) fn take_area(areas: &mut ArrayVec<Area, MOST_AREAS>, number: u32) -> Option<Area>
    ensures taken { find_area number areas.old.items ≡ result }
    ensures rest { areas.new.items ≡ without_area number areas.old.items }
    ensures room { (a : Area) → result ≡ Some a → length areas.new.items < 32 }
{
    let index = index_of(areas.as_slice(), number)?;
    Some(areas.remove(index))
}

/// Puts an area in, at its place by number.
pub(crate) fn put_area(areas: &mut ArrayVec<Area, MOST_AREAS>, area: Area)
    requires { length areas.old.items < 32 }
    ensures { areas.new.items ≡ with_area area areas.old.items }
{
    let place = place_of(areas.as_slice(), area.number);
    areas.insert(place, area);
}

/// Gives an area another number. Nothing is changed where this is refused.
#[tactic(auto, unfolding(crate::specs::Areas::areas_after_renumber))]
pub(crate) fn renumber(
    areas: &mut ArrayVec<Area, MOST_AREAS>,
    old: u32,
    new: u32,
) -> Result<(), ErrorNumber>
    requires { IsAreaTable areas.old.items }
    ensures areas { Leaves areas.old.items (areas_after_renumber areas.old.items old new) result
        areas.new.items }
    ensures table { IsAreaTable areas.new.items }
{
    if !has_area(areas.as_slice(), old) {
        return Err(ErrorNumber::AreaUnknown);
    }
    if old == MODULE_AREA || !is_created(new) {
        return Err(ErrorNumber::AreaBad);
    }
    if has_area(areas.as_slice(), new) {
        return Err(ErrorNumber::AreaTaken);
    }
    if let Some(mut area) = take_area(areas, old) {
        area.number = new;
        put_area(areas, area);
    }
    Ok(())
}
