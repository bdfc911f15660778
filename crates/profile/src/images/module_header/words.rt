//! The words of an image, and the offsets among them.
ghost use Rattle.std.specs.Prelude.{◌≡◌, ◌≤◌, ◌+◌, length};
ghost use Rattle.profile.specs.images.module_header.Words.{image_word_at, entry_at, is_entry};

use crate::ImageBytes;
use byteorder::{ByteOrder, LittleEndian};

/// The word at a place, its lowest byte first.
pub(crate) fn word_at<B: ImageBytes>(image: &B, at: usize) -> u32
    requires inside { at + 4 ≤ length (B.bytes image.now) }
    requires header { at ≤ 32 }
    ensures { result ≡ image_word_at (B.bytes image.now) at }
{
    LittleEndian::read_u32(&[
        image.byte(at),
        image.byte(at + 1),
        image.byte(at + 2),
        image.byte(at + 3),
    ])
}

/// The offset of an entry that the word at a place gives, 0 for no entry, or `None` where it is not
/// the offset of a word in the image.
pub(crate) fn entry_at<B: ImageBytes>(image: &B, at: usize) -> Option<u32>
    requires inside { at + 4 ≤ length (B.bytes image.now) }
    requires header { at ≤ 32 }
    ensures { result ≡ entry_at (B.bytes image.now) at }
{
    let offset = word_at(image, at);
    if is_entry(image, offset) {
        Some(offset)
    } else {
        None
    }
}

fn is_entry<B: ImageBytes>(image: &B, offset: u32) -> bool
    ensures { result ≡ is_entry (B.bytes image.now) offset }
{
    offset % 4 == 0 && offset as usize + 4 <= image.len()
}
