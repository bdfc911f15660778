//! What the calls that read of modules answer.

use instances_table::Place;

/// What OS_Module 18 finds: where an instance is, the address of its module's image, and the value
/// of its private word.
#[derive(Clone, Copy)]
pub struct Found {
    pub place: Place,
    pub image: u32,
    pub word: u32,
}

/// What OS_Module 12 reports an instance: the place after it, the address of its module's image,
/// and the value of its private word.
#[derive(Clone, Copy)]
pub struct Reported {
    pub next: Place,
    pub image: u32,
    pub word: u32,
}

/// Where the module of an instance is entered as a program, if it has a start, and the instance's
/// slot.
#[derive(Clone, Copy)]
pub struct Start {
    pub at: Option<u32>,
    pub slot: u32,
}
