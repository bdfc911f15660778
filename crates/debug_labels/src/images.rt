//! Where an image stands that was assembled.

ghost use Rattle.std.specs.Prelude.{◌≡◌};
ghost use Rattle.debug_labels.specs.Images.{image_place, image_place_if_named, image_place_in};

use crate::labels::LabelledImage;
use crate::words::PlaceNames;
use debugger::Instances;

/// Where an image stands now, and how many bytes it has.
#[derive(Clone, Copy)]
pub struct ImagePlace {
    /// The address of its first byte.
    pub start: u32,
    /// How many bytes it has.
    pub size: usize,
}

impl PlaceNames<'_> {
    /// Where the image of a name stands now, of those that were assembled.
    pub fn image_place(&self, image: &[u8]) -> Option<ImagePlace>
        ensures { result ≡ image_place self.now image.now }
    {
        image_place_in(self.labels.images(), self.modules, image)
    }
}

#[tactic(auto, using(crate::proofs::WalkLemmas::first_steps))]
fn image_place_in(images: &[LabelledImage], modules: &Instances, name: &[u8]) -> Option<ImagePlace>
    ensures { result ≡ image_place_in modules.now name.now images.now }
{
    for image in images {
        if let Some(place) = image.place_if_named(modules, name) {
            return Some(place);
        }
    }
    None
}

impl LabelledImage {
    // Where the image stands now, if this is its name.
    fn place_if_named(&self, modules: &Instances, name: &[u8]) -> Option<ImagePlace>
        ensures { result ≡ image_place_if_named modules.now name.now self.now }
    {
        if self.is_of(name) {
            Some(ImagePlace {
                start: self.start(modules),
                size: self.size,
            })
        } else {
            None
        }
    }
}
