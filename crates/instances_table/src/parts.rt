//! What the table is asked for, and what it answers.

use arrayvec::ArrayVec;

/// The most bytes of a title, and of an instance's name.
pub const MOST_NAME_BYTES: usize = 31;

/// A title, or an instance's name: 1 to 31 characters from `!` to `~`, and no `%`.
pub type Name = ArrayVec<u8, MOST_NAME_BYTES>;

/// Where a module's image stands: its address, and its length in bytes. One in the module area is a
/// block there, and any other was inserted in place.
#[derive(Clone, Copy, Default)]
pub struct Image {
    pub at: u32,
    pub len: u32,
}

/// An instance, as OS_Module shows it: the number of its module, and its own in it, both from 0.
#[derive(Clone, Copy)]
pub struct Place {
    pub number: u32,
    pub instance: u32,
}

/// What OS_Module 12 reports an instance: the place after it, its module's image, and the slot of
/// its private word.
#[derive(Clone, Copy)]
pub struct Information {
    pub next: Place,
    pub image: u32,
    pub slot: u32,
}

/// A module: its title, its image's address and length, and its header's words.
#[derive(Drop)]
pub struct ModuleInfo {
    pub title: Name,
    pub image: u32,
    pub len: u32,
    pub start: u32,
    pub chunk: u32,
    pub handler: u32,
}

/// Where a SWI of a module is handled: the address of its handler, and the slot of its preferred
/// instance.
#[derive(Clone, Copy)]
pub struct Handler {
    pub at: u32,
    pub slot: u32,
}

/// Where a new instance is to go: the number of its module, its name, and its slot.
#[derive(Drop)]
pub struct NewInstance {
    pub number: u32,
    pub name: Name,
    pub slot: u32,
}

/// An instance: its name, the slot of its private word, and whether it is the preferred one of its
/// module.
#[derive(Drop)]
pub struct InstanceInfo {
    pub name: Name,
    pub slot: u32,
    pub preferred: bool,
}
