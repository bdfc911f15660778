//! One module of the table.
ghost use Rattle.std.specs.Prelude.{◌≡◌, ◌<◌, ◌≤◌, length, IfSome, ◌==◌, ◌-◌, ◌%◌, ◌&&◌, not, [], option_map, codes, slice_get};
ghost use Rattle.std.specs.List.{list_any, position};
ghost use Rattle.std.specs.Option.{option_copied};
ghost use Rattle.std.specs.Str.{str_eq_ignore_ascii_case};
ghost use Rattle.instances_table.specs.Changes.{new_module, without_first_passing};
ghost use Rattle.instances_table.specs.Table.{Names, name_of_slot, all_slots, titled_slots, module_of, heir};
ghost use Rattle.instances_table.specs.Lookup.{handled_in, shown_of_module, instance_meant};

use crate::names::name_of;
use crate::parts::{Handler, Image, ModuleInfo, Name};
use arrayvec::ArrayVec;
use profile::images::module_header::Header;

/// The most instances of all modules, and so the most modules.
pub const MOST_INSTANCES: usize = 64;

/// A module. Its instances stand by their slots, oldest first; their names stand in the table.
#[derive(Default, Drop)]
pub(crate) struct Loaded {
    pub(crate) header: Header,
    pub(crate) image: Image,
    pub(crate) slots: ArrayVec<u32, MOST_INSTANCES>,
    pub(crate) preferred: u32,
}

impl Loaded {
    pub(crate) fn has_title(&self, title: &[u8]) -> bool
        ensures { result ≡ str_eq_ignore_ascii_case self.now.header.title.items title.now }
    {
        self.header.title.as_slice().eq_ignore_ascii_case(title)
    }

    pub(crate) fn reported(&self) -> ModuleInfo
        ensures { result ≡ shown_of_module (module_of [] self.now) }
    {
        ModuleInfo {
            title: name_of(self.header.title.as_slice()),
            image: self.image.at,
            len: self.image.len,
            start: self.header.start,
            chunk: self.header.chunk,
            handler: self.header.handler,
        }
    }

    /// Where the module handles its SWIs.
    pub(crate) fn handled(&self) -> Handler
        ensures { result ≡ handled_in (module_of [] self.now) }
    {
        Handler {
            at: self.image.at.wrapping_add(self.header.handler),
            slot: self.preferred,
        }
    }

    /// Where among the instances the one of a name is, or without a name the preferred one.
    pub(crate) fn place_meant(&self, names: &[Name], name: Option<&[u8]>) -> Option<usize>
        ensures value { result ≡ instance_meant (option_map (λ n. n.now) name.entry)
            (module_of names.now self.now) }
        ensures within { IfSome result (λ i. i < 64) }
    {
        match name {
            Some(name) => place_of_name(names, self.slots.as_slice(), name),
            None => place_of_slot(self.slots.as_slice(), self.preferred),
        }
    }

    /// Takes the instance of a slot out. If it was preferred, the oldest one left becomes so.
    pub(crate) fn drop_slot(&mut self, slot: u32)
        ensures slots { self.new.slots.items ≡ without_first_passing (λ s. s == slot) self.old.slots.items }
        ensures preferred { self.new.preferred ≡ heir slot self.old.preferred self.new.slots.items }
        ensures header { self.new.header ≡ self.old.header }
        ensures image { self.new.image ≡ self.old.image }
    {
        take_slot(&mut self.slots, slot);
        if self.preferred == slot
            && let Some(oldest) = self.slots.as_slice().first()
        {
            self.preferred = *oldest;
        }
    }

    pub(crate) fn has_slot(&self, slot: u32) -> bool
        ensures { result ≡ list_any (λ s. s == slot) self.now.slots.items }
    {
        self.slots.as_slice().iter().any(|held| *held == slot)
    }
}

/// Takes a slot out of a list, if it is there.
fn take_slot(slots: &mut ArrayVec<u32, MOST_INSTANCES>, slot: u32)
    ensures { slots.new.items ≡ without_first_passing (λ s. s == slot) slots.old.items }
{
    if let Some(place) = place_of_slot(slots.as_slice(), slot) {
        slots.remove(place);
    }
}

pub(crate) fn place_of_slot(slots: &[u32], slot: u32) -> Option<usize>
    ensures value { result ≡ position (λ s. s == slot) slots.now }
    ensures within { IfSome result (λ i. i < length slots.now) }
{
    slots.iter().position(|held| *held == slot)
}

/// A new module, with its first instance.
pub(crate) fn new_module(header: Header, image: Image, slot: u32) -> Loaded
    ensures { (names : Names) → name_of_slot names slot ≡ codes "Base"
        → module_of names result ≡ new_module header image slot }
{
    let mut slots = ArrayVec::new();
    slots.push(slot);
    Loaded {
        header,
        image,
        slots,
        preferred: slot,
    }
}

/// The module of a number, if there is one.
pub(crate) fn loaded_at(modules: &[Loaded], number: usize) -> Option<&Loaded>
    ensures { option_copied result ≡ slice_get modules.now number }
{
    modules.get(number)
}

/// Where in a list of modules the one of a title is.
pub(crate) fn number_of_title(modules: &[Loaded], title: &[u8]) -> Option<usize>
    ensures { result ≡ position (λ l. str_eq_ignore_ascii_case l.header.title.items title.now) modules.now }
{
    modules.iter().position(|loaded| loaded.has_title(title))
}

pub(crate) fn has_title(modules: &[Loaded], title: &[u8]) -> bool
    ensures { result ≡ list_any (λ l. str_eq_ignore_ascii_case l.header.title.items title.now) modules.now }
{
    modules.iter().any(|loaded| loaded.has_title(title))
}

/// Where in a list of modules the first with a SWI is.
pub(crate) fn number_of_call(modules: &[Loaded], call: u32) -> Option<usize>
    ensures { result ≡ position (λ l. l.header.chunk == call - call % 64
        && not (l.header.handler == 0)) modules.now }
{
    modules.iter().position(|loaded| loaded.header.chunk == call - call % 64
        && loaded.header.handler != 0)
}

/// The slots of all modules, one after another.
pub(crate) fn all_slots(modules: &[Loaded]) -> ArrayVec<u32, MOST_INSTANCES>
    requires { length (all_slots modules.now) ≤ 64 }
    ensures { result.items ≡ all_slots modules.now }
{
    let mut slots = ArrayVec::new();
    for loaded in modules {
        slots
            .try_extend_from_slice(loaded.slots.as_slice())
            .unwrap();
    }
    slots
}

/// The slots of the module of a title, if there is one.
pub(crate) fn slots_of_title(modules: &[Loaded], title: &[u8]) -> ArrayVec<u32, MOST_INSTANCES>
    ensures { result.items ≡ titled_slots title.now modules.now }
{
    for loaded in modules {
        if loaded.has_title(title) {
            return copy_of(&loaded.slots);
        }
    }
    ArrayVec::new()
}

fn copy_of(slots: &ArrayVec<u32, MOST_INSTANCES>) -> ArrayVec<u32, MOST_INSTANCES>
    ensures { result.items ≡ slots.now.items }
{
    let mut copy = ArrayVec::new();
    copy.try_extend_from_slice(slots.as_slice()).unwrap();
    copy
}

/// Whether an instance of a module of another title has a slot.
pub(crate) fn is_held_beside(modules: &[Loaded], title: &[u8], slot: u32) -> bool
    ensures { result
        ≡ list_any (λ l. not (str_eq_ignore_ascii_case l.header.title.items title.now)
        && list_any (λ s. s == slot) l.slots.items) modules.now }
{
    modules
        .iter()
        .any(|loaded| !loaded.has_title(title) && loaded.has_slot(slot))
}

/// Whether an instance has a slot.
pub(crate) fn is_held(modules: &[Loaded], slot: u32) -> bool
    ensures { result ≡ list_any (λ l. list_any (λ s. s == slot) l.slots.items) modules.now }
{
    modules.iter().any(|loaded| loaded.has_slot(slot))
}

/// Where in a list of modules the one with the instance of a slot is.
pub(crate) fn number_of_slot(modules: &[Loaded], slot: u32) -> Option<usize>
    ensures value { result ≡ position (λ l. list_any (λ s. s == slot) l.slots.items) modules.now }
    ensures within { IfSome result (λ number. number < length modules.now) }
{
    modules.iter().position(|loaded| loaded.has_slot(slot))
}

/// The name of the instance of a slot.
pub(crate) fn name_at(names: &[Name], slot: u32) -> &[u8]
    ensures value { result.now ≡ name_of_slot names.now slot }
    ensures fits { length result.now ≤ 31 }
{
    match names.get(slot as usize) {
        Some(name) => name.as_slice(),
        None => &[],
    }
}

/// Where among slots the one of an instance of that name is.
pub(crate) fn place_of_name(names: &[Name], slots: &[u32], name: &[u8]) -> Option<usize>
    ensures value { result ≡ position (λ s. str_eq_ignore_ascii_case
        (name_of_slot names.now s) name.now) slots.now }
    ensures within { IfSome result (λ i. i < length slots.now) }
{
    slots
        .iter()
        .position(|slot| name_at(names, *slot).eq_ignore_ascii_case(name))
}

/// Whether an instance of one of the slots has that name.
pub(crate) fn is_named(names: &[Name], slots: &[u32], name: &[u8]) -> bool
    ensures { result ≡ list_any (λ s. str_eq_ignore_ascii_case (name_of_slot names.now s) name.now)
        slots.now }
{
    slots
        .iter()
        .any(|slot| name_at(names, *slot).eq_ignore_ascii_case(name))
}
