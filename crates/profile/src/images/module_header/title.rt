//! The title of a module.
ghost use Rattle.std.specs.Prelude.{◌≡◌, option_map};
ghost use Rattle.profile.specs.images.module_header.Title.{is_title_byte, title_at};

use crate::ImageBytes;
use arrayvec::ArrayVec;

/// The most bytes of a title.
pub(crate) const MAX_TITLE: usize = 31;

/// The title that begins at a place, if a good one does.
#[tactic(auto, using(crate::proofs::ImagesLemmas::ModuleHeaderLemmas::TitleLemmas::title_steps))]
pub(crate) fn title_at<B: ImageBytes>(image: &B, at: usize) -> Option<ArrayVec<u8, MAX_TITLE>>
    ensures { option_map (λ title. title.items) result ≡ title_at (B.bytes image.now) at }
{
    let mut title = ArrayVec::new();
    for place in at..image.len() {
        let byte = image.byte(place);
        if !is_title_byte(byte) {
            return if byte == 0 && !title.is_empty() {
                Some(title)
            } else {
                None
            };
        }
        if title.is_full() {
            return None;
        }
        title.push(byte);
    }
    None
}

/// Whether a title may hold that character: printing ASCII other than the space and `%`.
pub fn is_title_byte(byte: u8) -> bool
    ensures { result ≡ is_title_byte byte }
{
    byte.is_ascii_graphic() && byte != b'%'
}
