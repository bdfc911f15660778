//! The labels of images that were assembled.

ghost use Rattle.std.specs.Prelude.{◌≡◌, ◌++◌, ◌∷◌, [], bytes_eq, IfOk, OnOk, OnErr};
ghost use Rattle.debug_labels.specs.Labels.{labels_behind, labels_of_image, ok_of, without_labels};
ghost use Rattle.profile.specs.images.module_header.Header.{header_of};

use assembler_text::naming::Labels;
use profile::images::module_header::Header;
use std::alloc::{AllocError, Global};
use std::marker::Model;

/// A label, and how many bytes of its image stand before it.
#[derive(Drop)]
pub(crate) struct Label {
    pub(crate) name: Vec<u8>,
    pub(crate) offset: u32,
}

impl Model for Label {
    ghost use Rattle.std.specs.Prelude.{ℕ, List};

    ghost Value = { List ℕ × ℕ };

    ghost view = { λ l. (l.name.items, l.offset) };
}

impl Label {
    /// Whether the label has this name.
    pub(crate) fn is_named(&self, name: &[u8]) -> bool
        ensures { result ≡ bytes_eq name.now self.now.0 }
    {
        name == self.name.as_slice()
    }
}

/// The labels of an image.
#[derive(Drop)]
pub(crate) struct LabelledImage {
    pub(crate) image: Vec<u8>,
    pub(crate) header: Option<Header>,
    pub(crate) origin: u32,
    pub(crate) size: usize,
    pub(crate) labels: Vec<Label>,
}

impl Model for LabelledImage {
    ghost use Rattle.debug_labels.specs.Labels.{ImageLabels};

    ghost Value = { ImageLabels };

    ghost view = { λ i. record {
      image = i.image.items;
      header = i.header;
      origin = i.origin;
      size = i.size;
      labels = i.labels.items;
    } };
}

impl LabelledImage {
    // Whether the image has this name.
    pub(crate) fn is_of(&self, image: &[u8]) -> bool
        ensures { result ≡ bytes_eq self.now.image image.now }
    {
        self.image.as_slice() == image
    }

    // The labels of an image of these bytes.
    fn new(
        alloc: Global,
        image: &[u8],
        bytes: &[u8],
        origin: u32,
        labels: &Labels,
    ) -> Result<LabelledImage, AllocError>
        ensures { IfOk result (λ i. i ≡ labels_of_image image.now bytes.now origin labels.now) }
    {
        let image = Vec::from_slice(alloc, image)?;
        Ok(LabelledImage {
            labels: labels_behind(alloc, origin, labels)?,
            image,
            header: header_in(bytes),
            origin,
            size: bytes.len(),
        })
    }
}

fn header_in(bytes: &[u8]) -> Option<Header>
    ensures { result ≡ ok_of (header_of bytes.now) }
{
    match Header::read(bytes) {
        Ok(header) => Some(header),
        Err(_) => None,
    }
}

// Labels of a program that begins there, with copies of their names.
fn labels_behind(alloc: Global, origin: u32, labels: &Labels) -> Result<Vec<Label>, AllocError>
    ensures { IfOk result (λ copies. copies.items ≡ labels_behind origin labels.now) }
{
    let mut copies = Vec::new(alloc);
    for place in 0..labels.count() {
        let Some((name, address)) = labels.entry(place) else {
            return Ok(copies);
        };
        let name = Vec::from_slice(alloc, name)?;
        let offset = address.saturating_sub(origin);
        copies.push(Label { name, offset })?;
    }
    Ok(copies)
}

/// The labels of the images that were assembled, in the order in which they were. They grow with
/// the images, in memory of the allocator that [`LabelTable::new`] is handed.
#[derive(Drop)]
pub struct LabelTable {
    alloc: Global,
    images: Vec<LabelledImage>,
}

impl Model for LabelTable {
    ghost use Rattle.std.specs.Prelude.{List};
    ghost use Rattle.debug_labels.specs.Labels.{ImageLabels};

    ghost Value = { List ImageLabels };

    ghost view = { λ t. t.images.items };
}

impl LabelTable {
    /// No labels.
    pub fn new(alloc: Global) -> LabelTable
        ensures { result ≡ [] }
    {
        LabelTable {
            alloc,
            images: Vec::new(alloc),
        }
    }

    /// Adds the labels of an image of that name and those bytes, with their addresses in it where
    /// it was assembled.
    ///
    /// # Errors
    ///
    /// Memory ran out, and no label was added then.
    pub fn add(
        &mut self,
        image: &[u8],
        bytes: &[u8],
        origin: u32,
        labels: &Labels,
    ) -> Result<(), AllocError>
        ensures added { OnOk result (self.new
            ≡ self.old ++ labels_of_image image.now bytes.now origin labels.now ∷ []) }
        ensures refused { OnErr result (self.new ≡ self.old) }
    {
        let added = LabelledImage::new(self.alloc, image, bytes, origin, labels)?;
        self.images.push(added)?;
        Ok(())
    }

    /// Takes the labels of the images of that name out, if there are some; the others stay in their
    /// order.
    pub fn remove(&mut self, image: &[u8])
        ensures { self.new ≡ without_labels self.old image.now }
    {
        self.images.retain(|labels| !labels.is_of(image));
    }

    pub(crate) fn images(&self) -> &[LabelledImage]
        ensures { result.now ≡ self.now }
    {
        self.images.as_slice()
    }
}
