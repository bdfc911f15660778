//! An address by the label that stands there, or nearest below it.

ghost use Rattle.std.specs.Prelude.{◌≡◌, ◌≤◌, IfSome, None, option_map};
ghost use Rattle.std.specs.Option.{option_copied};
ghost use Rattle.debug_labels.specs.Places.{nearer_label, nearest_label, place_now_of, shown_of_place_label};
ghost use Rattle.debug_labels.specs.Words.{last_with};

use crate::labels::{Label, LabelledImage};
use crate::words::PlaceNames;
use debugger::Instances;

/// A label of an image, and how many bytes behind it.
#[derive(Clone, Copy)]
pub struct PlaceLabel<'a> {
    /// The image's name.
    pub image: &'a [u8],
    /// The label.
    pub label: &'a [u8],
    /// How many bytes behind the label.
    pub offset: u32,
}

impl<'a> PlaceNames<'a> {
    ghost use Rattle.debug_labels.specs.Places.{place_of};

    /// The label that stands at an address, or nearest below it in the image that stands there: of
    /// two labels at one place the first, and of two images the one that was assembled last.
    pub fn label_at(&self, address: u32) -> Option<PlaceLabel<'a>>
        ensures { option_map shown_of_place_label result ≡ place_of self.now address }
    {
        label_at(self.labels.images(), self.modules, address)
    }
}

#[tactic(auto, using(crate::proofs::WalkLemmas::last_steps))]
fn label_at<'a>(
    images: &'a [LabelledImage],
    modules: &Instances,
    address: u32,
) -> Option<PlaceLabel<'a>>
    ensures { option_map shown_of_place_label result
        ≡ last_with (place_now_of modules.now address) images.now }
{
    let mut found = None;
    for image in images {
        let start = image.start(modules);
        found = image.place_from(start, address).or(found);
    }
    found
}

impl LabelledImage {
    ghost use Rattle.debug_labels.specs.Places.{place_from, place_in_image};

    // The label at an address or nearest below, where the image starts there.
    fn place_from(&self, start: u32, address: u32) -> Option<PlaceLabel<'_>>
        ensures { option_map shown_of_place_label result ≡ place_from start self.now address }
    {
        if start <= address && ((address - start) as usize) < self.size {
            self.place_at(address - start)
        } else {
            None
        }
    }

    // The label at a place or nearest below, so many bytes from the image's start.
    fn place_at(&self, at: u32) -> Option<PlaceLabel<'_>>
        ensures { option_map shown_of_place_label result ≡ place_in_image self.now at }
    {
        let label = nearest_label(self.labels.as_slice(), at)?;
        Some(PlaceLabel {
            image: self.image.as_slice(),
            label: label.name.as_slice(),
            offset: at - label.offset,
        })
    }
}

fn nearest_label(labels: &[Label], at: u32) -> Option<&Label>
    ensures found { option_copied result ≡ nearest_label at None labels.now }
    ensures below { IfSome result (λ label. label.now.1 ≤ at) }
{
    let mut best = None;
    for label in labels {
        best = nearer_label(at, best, label);
    }
    best
}

fn nearer_label<'a>(at: u32, best: Option<&'a Label>, label: &'a Label) -> Option<&'a Label>
    requires { IfSome best (λ best. best.now.1 ≤ at) }
    ensures found { option_copied result ≡ nearer_label at (option_copied best.entry) label.now }
    ensures below { IfSome result (λ label. label.now.1 ≤ at) }
{
    if label.offset > at {
        return best;
    }
    match best {
        Some(best) if best.offset >= label.offset => Some(best),
        _ => Some(label),
    }
}
