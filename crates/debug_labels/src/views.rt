//! Labels and places as text.

ghost use Rattle.std.specs.Prelude.{◌≡◌, Some};
ghost use Rattle.std.specs.List.{flat_map, list_any};
ghost use Rattle.profile.specs.Output.{Writes};
ghost use Rattle.debug_labels.specs.Places.{place_of, shown_of_place_label};
ghost use Rattle.debug_labels.specs.Views.{label_line, labels_text, first_names_of, has_labels, hinted_text, label_hint, last_names_text, labels_text_from, labels_text_of, no_label_text, place_line, spaced_name, spaced_place_text};

use crate::labels::{Label, LabelledImage};
use crate::places::PlaceLabel;
use crate::words::PlaceNames;
use debugger::Instances;
use itoa::Buffer;
use profile::{HexText, Sink, WriteFault, push_all, push_parts};

// Of so many images labels are shown where a name is none, and so many of each.
const HINTED_IMAGES: usize = 2;

const HINTED_LABELS: usize = 8;

impl PlaceNames<'_> {
    /// Writes a line for each label with the address at which it stands now, `01800050 double:swi`,
    /// image by image in the order in which they were assembled.
    pub fn show_labels<W: Sink>(&self, sink: &mut W) -> Result<(), WriteFault>
        ensures { Writes W.contents W.has_failed sink.old sink.new result (labels_text self.now) }
    {
        show_images(self.labels.images(), self.modules, sink)
    }

    /// Writes where an address is: `at &8004 countdown:loop+4`, or `at &8004` where no label is
    /// near.
    pub fn show_place<W: Sink>(&self, address: u32, sink: &mut W) -> Result<(), WriteFault>
        ensures { Writes W.contents W.has_failed sink.old sink.new result (place_line self.now address) }
    {
        push_all(sink, b"at &")?;
        push_all(sink, HexText::number(address).as_slice())?;
        self.push_place(address, sink)?;
        push_all(sink, b"\n")
    }

    /// Writes a space and the label that stands at an address or near below it, with the bytes
    /// between them, ` countdown:loop+4`; or nothing.
    pub fn push_place<W: Sink>(&self, address: u32, sink: &mut W) -> Result<(), WriteFault>
        ensures { Writes W.contents W.has_failed sink.old sink.new result
            (spaced_place_text (place_of self.now address)) }
    {
        match self.label_at(address) {
            None => Ok(()),
            Some(place) => push_place_label(place, sink),
        }
    }
}

impl PlaceNames<'_> {
    /// Writes that a name is no label, and labels of the images that were assembled last, of two of
    /// them at most the first eight: `no label x (labels: loop swi; LABELS lists all)`.
    pub fn push_no_label<W: Sink>(&self, name: &[u8], sink: &mut W) -> Result<(), WriteFault>
        ensures { Writes W.contents W.has_failed sink.old sink.new result
            (no_label_text self.now.labels name.now) }
    {
        push_parts(sink, &[b"no label ".as_slice(), name])?;
        push_hint(self.labels.images(), sink)
    }
}

// Labels that there are.
fn push_hint<W: Sink>(images: &[LabelledImage], sink: &mut W) -> Result<(), WriteFault>
    ensures { Writes W.contents W.has_failed sink.old sink.new result (label_hint images.now) }
{
    match images {
        [] => push_all(sink, b" (none are there: ASM blocks have them)"),
        [_image, ..] => push_last_names(images, sink),
    }
}

// Labels of the images that were assembled last.
fn push_last_names<W: Sink>(images: &[LabelledImage], sink: &mut W) -> Result<(), WriteFault>
    ensures { Writes W.contents W.has_failed sink.old sink.new result (last_names_text images.now) }
{
    let last = &images[images.len() - images.len().min(HINTED_IMAGES)..];
    if have_labels(last) {
        push_hinted(last, sink)
    } else {
        push_all(sink, b" (the last blocks have none; LABELS lists all)")
    }
}

fn have_labels(images: &[LabelledImage]) -> bool
    ensures { result ≡ list_any has_labels images.now }
{
    images.iter().any(|image| image.labels.len() > 0)
}

// Labels of some images, and which line lists all.
fn push_hinted<W: Sink>(images: &[LabelledImage], sink: &mut W) -> Result<(), WriteFault>
    ensures { Writes W.contents W.has_failed sink.old sink.new result (hinted_text images.now) }
{
    push_all(sink, b" (labels:")?;
    push_images_names(images, sink)?;
    push_all(sink, b"; LABELS lists all)")
}

fn push_images_names<W: Sink>(images: &[LabelledImage], sink: &mut W) -> Result<(), WriteFault>
    ensures { Writes W.contents W.has_failed sink.old sink.new result
        (flat_map first_names_of images.now) }
{
    for image in images {
        image.push_first_names(sink)?;
    }
    Ok(())
}

// Names, a space before each.
fn push_names<W: Sink>(labels: &[Label], sink: &mut W) -> Result<(), WriteFault>
    ensures { Writes W.contents W.has_failed sink.old sink.new result
        (flat_map spaced_name labels.now) }
{
    for label in labels {
        push_parts(sink, &[b" ".as_slice(), label.name.as_slice()])?;
    }
    Ok(())
}

fn show_images<W: Sink>(
    images: &[LabelledImage],
    modules: &Instances,
    sink: &mut W,
) -> Result<(), WriteFault>
    ensures { Writes W.contents W.has_failed sink.old sink.new result
        (flat_map (labels_text_of modules.now) images.now) }
{
    for image in images {
        image.show(modules, sink)?;
    }
    Ok(())
}

impl LabelledImage {
    fn push_first_names<W: Sink>(&self, sink: &mut W) -> Result<(), WriteFault>
        ensures { Writes W.contents W.has_failed sink.old sink.new result (first_names_of self.now) }
    {
        let labels = self.labels.as_slice();
        push_names(&labels[..labels.len().min(HINTED_LABELS)], sink)
    }

    // A line for each label of the image.
    fn show<W: Sink>(&self, modules: &Instances, sink: &mut W) -> Result<(), WriteFault>
        ensures { Writes W.contents W.has_failed sink.old sink.new result
            (labels_text_of modules.now self.now) }
    {
        let start = self.start(modules);
        show_from(start, self.image.as_slice(), self.labels.as_slice(), sink)
    }
}

// The lines of an image that starts there.
fn show_from<W: Sink>(
    start: u32,
    image: &[u8],
    labels: &[Label],
    sink: &mut W,
) -> Result<(), WriteFault>
    ensures { Writes W.contents W.has_failed sink.old sink.new result
        (labels_text_from start image.now labels.now) }
{
    for label in labels {
        show_label(
            start.wrapping_add(label.offset),
            image,
            label.name.as_slice(),
            sink,
        )?;
    }
    Ok(())
}

fn show_label<W: Sink>(
    address: u32,
    image: &[u8],
    label: &[u8],
    sink: &mut W,
) -> Result<(), WriteFault>
    ensures { Writes W.contents W.has_failed sink.old sink.new result
        (label_line address image.now label.now) }
{
    push_parts(
        sink,
        &[
            HexText::word(address).as_slice(),
            b" ".as_slice(),
            image,
            b":".as_slice(),
            label,
            b"\n".as_slice(),
        ],
    )
}

fn push_place_label<W: Sink>(place: PlaceLabel, sink: &mut W) -> Result<(), WriteFault>
    ensures { Writes W.contents W.has_failed sink.old sink.new result
        (spaced_place_text (Some (shown_of_place_label place.entry))) }
{
    push_parts(
        sink,
        &[b" ".as_slice(), place.image, b":".as_slice(), place.label],
    )?;
    if place.offset == 0 {
        return Ok(());
    }
    let mut digits = Buffer::new();
    push_parts(
        sink,
        &[b"+".as_slice(), digits.format(place.offset).as_bytes()],
    )
}
