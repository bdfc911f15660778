//! The dynamic areas and the size of the pool, where they differ.

ghost use Rattle.std.specs.Prelude.{◌≡◌, ◌↔◌, ◌≤◌, IsTrue, length, map};
ghost use Rattle.address_map.specs.Memory.{free_pages};
ghost use Rattle.trace_moments.specs.Areas.{shown_area, shown_areas};
ghost use Rattle.trace_moments.specs.Difference.{IsDifference};

use address_map::AddressMap;
use arrayvec::ArrayVec;
use dynamic_areas::{Area, Areas, MOST_NAME_BYTES};

/// How many areas a machine has at most.
const AREAS: usize = 32;

/// What records show of a dynamic area: its number, its name, its base, its pages, and the bytes that
/// it may have at most.
#[derive(Default, Drop)]
pub struct ShownArea {
    pub number: u32,
    pub name: ArrayVec<u8, MOST_NAME_BYTES>,
    pub base: u32,
    pub pages: u32,
    pub maximum: u32,
}

/// All areas, in the order of their numbers, and how many pages are in the pool.
#[derive(Drop)]
pub struct ShownAreas {
    pub list: ArrayVec<ShownArea, AREAS>,
    pub pool: u32,
}

/// The areas and the pool of a machine.
pub fn shown_areas(areas: &Areas, memory: &AddressMap) -> ShownAreas
    ensures { result ≡ shown_areas areas.now.areas (free_pages memory.now) }
{
    ShownAreas {
        list: copied_areas(areas.list()),
        pool: memory.free_pages(),
    }
}

fn copied_areas(areas: &[Area]) -> ArrayVec<ShownArea, AREAS>
    requires { length areas.now ≤ 32 }
    ensures { result.items ≡ map shown_area areas.now }
{
    let mut copies = ArrayVec::new();
    for area in areas {
        copies.push(copied_area(area));
    }
    copies
}

fn copied_area(area: &Area) -> ShownArea
    ensures { result ≡ shown_area area.now }
{
    ShownArea {
        number: area.number,
        name: ArrayVec::try_from(area.name.as_slice()).unwrap(),
        base: area.base,
        pages: area.pages,
        maximum: area.maximum,
    }
}

/// The areas and the pool as they are, where they aren't what they were.
pub fn changed_areas(before: &ShownAreas, areas: &Areas, memory: &AddressMap) -> Option<ShownAreas>
    ensures { IsDifference before.now (shown_areas areas.now.areas (free_pages memory.now)) result }
{
    let after = shown_areas(areas, memory);
    if before.pool == after.pool && are_same(before.list.as_slice(), after.list.as_slice()) {
        None
    } else {
        Some(after)
    }
}

fn are_same(old: &[ShownArea], new: &[ShownArea]) -> bool
    ensures { IsTrue result ↔ (old.now ≡ new.now) }
{
    if old.len() != new.len() {
        return false;
    }
    for (index, area) in old.iter().enumerate() {
        if !is_same(area, &new[index]) {
            return false;
        }
    }
    true
}

fn is_same(old: &ShownArea, new: &ShownArea) -> bool
    ensures { IsTrue result ↔ (old.now ≡ new.now) }
{
    old.number == new.number
        && old.name.as_slice() == new.name.as_slice()
        && old.base == new.base
        && old.pages == new.pages
        && old.maximum == new.maximum
}
