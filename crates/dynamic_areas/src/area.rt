//! A dynamic area, and what the calls on areas are asked for and answer.

use arrayvec::ArrayVec;
use profile::ErrorNumber;

/// The most bytes of an area's name.
pub const MOST_NAME_BYTES: usize = 31;

/// A dynamic area: `pages` pages of 4096 bytes from the address `base` on are mapped for it, and no
/// other area gets an address up to its `maximum`, in bytes. What flags and workspace mean is up to
/// whoever made the area.
#[derive(Default, Drop)]
pub struct Area {
    pub number: u32,
    pub name: ArrayVec<u8, MOST_NAME_BYTES>,
    pub base: u32,
    pub pages: u32,
    pub maximum: u32,
    pub flags: u32,
    pub workspace: u32,
}

/// Where an area lies, in bytes. The maximum is there where it was asked for.
#[derive(Clone, Copy)]
pub struct Extent {
    pub base: u32,
    pub size: u32,
    pub maximum: Option<u32>,
}

/// The words of a call for a new area. A number, a base or a maximum of -1 leaves it to the call;
/// sizes are in bytes.
#[derive(Clone, Copy)]
pub struct Wanted {
    pub number: u32,
    pub size: u32,
    pub base: u32,
    pub flags: u32,
    pub maximum: u32,
    pub handler: u32,
    pub workspace: u32,
}

/// The number, the base and the maximum, in bytes, that a new area has got.
#[derive(Clone, Copy)]
pub struct Created {
    pub number: u32,
    pub base: u32,
    pub maximum: u32,
}

/// How many bytes a change of an area's size has moved, to the area or from it; and where these are
/// not all that were asked for, why.
#[derive(Clone, Copy)]
pub struct Changed {
    pub bytes: u32,
    pub error: Option<ErrorNumber>,
}
