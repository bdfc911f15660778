//! A module's header: the words of an image and its title, read and checked.

ghost use Rattle.std.specs.Prelude.{◌≡◌, ◌≤◌, length};
ghost use Rattle.profile.specs.images.module_header.Swis.{has_swis, is_chunk_base};

use crate::ImageBytes;
use crate::images::module_header::fault::HeaderFault;
use crate::images::module_header::title::{MAX_TITLE, title_at};
use crate::images::module_header::words::{entry_at, word_at};
use crate::word::is_bit_set;
use arrayvec::ArrayVec;

// Where the words of a header stand.
const START: usize = 0x00;

const INITIALISE: usize = 0x04;

const FINALISE: usize = 0x08;

const TITLE: usize = 0x10;

const CHUNK_BASE: usize = 0x1C;

const HANDLER: usize = 0x20;

// The fewest bytes of a header, and of one that has SWIs.
const MIN_BYTES: usize = 28;

const MIN_BYTES_WITH_SWIS: usize = 36;

/// A module's header ("Modules" in the RISC OS 3 Programmer's Reference Manual). An entry is an
/// offset in the image, and 0 where the module has none.
#[derive(Default, Drop)]
pub struct Header {
    /// The module's name: 1 to 31 characters from `!` to `~`, and no `%`.
    pub title: ArrayVec<u8, MAX_TITLE>,
    /// Where the module starts as a program.
    pub start: u32,
    /// The entry that makes an instance.
    pub initialise: u32,
    /// The entry that ends an instance.
    pub finalise: u32,
    /// The number of the first of its 64 SWIs, or 0 where it has none.
    pub chunk: u32,
    /// The entry that handles them, or 0.
    pub handler: u32,
}

impl Header {
    ghost use Rattle.profile.specs.images.module_header.Header.{header_of};

    /// The same header once more.
    pub fn copied(&self) -> Header
        ensures { result ≡ self.now }
    {
        Header {
            title: ArrayVec::try_from(self.title.as_slice()).unwrap(),
            start: self.start,
            initialise: self.initialise,
            finalise: self.finalise,
            chunk: self.chunk,
            handler: self.handler,
        }
    }

    /// The header of an image.
    ///
    /// # Errors
    ///
    /// The first of [`HeaderFault`] that holds.
    pub fn read_from<B: ImageBytes>(image: &B) -> Result<Header, HeaderFault>
        ensures { result ≡ header_of (B.bytes image.now) }
    {
        if image.len() < MIN_BYTES {
            return Err(HeaderFault::Short);
        }
        let initialise = entry_at(image, INITIALISE).ok_or(HeaderFault::Initialise)?;
        let finalise = entry_at(image, FINALISE).ok_or(HeaderFault::Finalise)?;
        let title = title_at(image, word_at(image, TITLE) as usize).ok_or(HeaderFault::Title)?;
        let has_swis = has_swis(image);
        Ok(Header {
            title,
            start: entry_at(image, START).unwrap_or(0),
            initialise,
            finalise,
            chunk: if has_swis {
                word_at(image, CHUNK_BASE)
            } else {
                0
            },
            handler: if has_swis { word_at(image, HANDLER) } else { 0 },
        })
    }

    /// The header of an image that is a slice, as `read_from` reads it.
    pub fn read(image: &[u8]) -> Result<Header, HeaderFault>
        ensures { result ≡ header_of image.now }
    {
        Header::read_from(&image)
    }
}

fn has_swis<B: ImageBytes>(image: &B) -> bool
    ensures { result ≡ has_swis (B.bytes image.now) }
{
    image.len() >= MIN_BYTES_WITH_SWIS
        && is_chunk_base(word_at(image, CHUNK_BASE))
        && entry_at(image, HANDLER).unwrap_or(0) != 0
}

// Whether SWIs of a module can begin at a number: the flex calls' own chunk is taken, and bit 17 is
// the X bit of a call.
fn is_chunk_base(number: u32) -> bool
    ensures { result ≡ is_chunk_base number }
{
    number % 64 == 0
        && number >= 0x200
        && number <= 0xFFFFC0
        && !is_bit_set(number, 17)
        && number != 0xC0000
}
