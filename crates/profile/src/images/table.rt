//! The images of a machine by name: added, looked up and refused.

ghost use Rattle.std.specs.Prelude.{◌≡◌, ◌≤◌, ◌<◌, [], length, MatchOption, IfOk, IfSome, OnOk, OnErr, IsOkUnless, is_some, option_map};
ghost use Rattle.std.specs.List.{list_all, position};
ghost use Rattle.std.specs.Str.{bytes_eq};
ghost use Rattle.profile.specs.images.Entries.{bytes_of_image, can_name_image, is_image_name_byte, refusal_for, with_entry, without_entry, IsImageTable};
ghost use Rattle.profile.specs.images.Table.{entries_of};

use crate::images::error::ImageError;
use crate::images::image::Image;
use crate::memory_map::MOST_BYTES;
use arrayvec::ArrayVec;
use std::alloc::Global;
use std::marker::Model;

/// The most bytes of a name.
pub const MOST_NAME_BYTES: usize = 63;

/// The most images.
pub const MOST_IMAGES: usize = 64;

/// The images that a machine can boot and load, by name: at most 64, each of at most 1,048,576
/// bytes. Their names all differ; a name is 1 to 63 bytes from `!` to `~` and compares exactly.
///
/// Each image keeps the allocator that its `add` was handed.
#[derive(Drop)]
pub struct Images {
    list: ArrayVec<Image, MOST_IMAGES>,
}

impl Model for Images {
    ghost use Rattle.std.specs.Prelude.{List};
    ghost use Rattle.profile.specs.images.Entries.{Entry, IsImageTable};
    ghost use Rattle.profile.specs.images.Table.{entries_of};

    ghost Value = { List Entry };

    ghost view = { λ t. entries_of t.list.items };

    ghost invariant = { λ t. IsImageTable (entries_of t.list.items) };
}

impl Images {
    /// No images.
    pub fn new() -> Images
        ensures { result ≡ [] }
    {
        Images {
            list: ArrayVec::new(),
        }
    }

    /// The bytes of the image of that name, if there is one.
    pub fn get(&self, name: &[u8]) -> Option<&[u8]>
        ensures bytes { option_map (λ bytes. bytes.now) result ≡ bytes_of_image self.now name.now }
        ensures table { IsImageTable self.now }
    {
        find(self.list.as_slice(), name)
    }

    /// Why `add` would refuse an image of that name and of `len` bytes, want of memory aside.
    pub fn refusal(&self, name: &[u8], len: usize) -> Option<ImageError>
        ensures { result ≡ refusal_for self.now name.now len }
    {
        if !is_image_name(name) {
            return Some(ImageError::BadName);
        }
        if self.get(name).is_some() {
            return Some(ImageError::NameTaken);
        }
        if len > MOST_BYTES {
            return Some(ImageError::TooLarge);
        }
        if self.list.is_full() {
            return Some(ImageError::TableFull);
        }
        None
    }

    /// Takes a copy of `bytes` under that name, in memory of `alloc`.
    ///
    /// Refused as [`ImageError`] says, in the order of its list; nothing is changed then.
    pub fn add(&mut self, alloc: Global, name: &[u8], bytes: &[u8]) -> Result<(), ImageError>
        ensures refused { MatchOption (refusal_for self.old name.now (length bytes.now))
            (IsOkUnless result ImageError.Memory) (λ e. result ≡ Err e) }
        ensures ok { OnOk result (self.new ≡ with_entry self.old name.now bytes.now) }
        ensures err { OnErr result (self.new ≡ self.old) }
    {
        if let Some(error) = self.refusal(name, bytes.len()) {
            return Err(error);
        }
        let image = Image::new(alloc, name, bytes)?;
        self.list.push(image);
        Ok(())
    }

    /// Takes the image of that name out, if there is one, and answers whether there was. The others
    /// stay in their order.
    pub fn remove(&mut self, name: &[u8]) -> bool
        ensures was_there { result ≡ is_some (bytes_of_image self.old name.now) }
        ensures left { self.new ≡ without_entry self.old name.now }
    {
        let Some(place) = place_of(self.list.as_slice(), name) else {
            return false;
        };
        self.list.remove(place);
        true
    }
}

/// Whether a text can name an image.
pub fn is_image_name(name: &[u8]) -> bool
    ensures { result ≡ can_name_image name.now }
{
    !name.is_empty() && name.len() <= MOST_NAME_BYTES && are_name_bytes(name)
}

fn are_name_bytes(name: &[u8]) -> bool
    ensures { result ≡ list_all is_image_name_byte name.now }
{
    name.iter().all(|byte| byte.is_ascii_graphic())
}

// The place of the image of that name.
fn place_of(images: &[Image], name: &[u8]) -> Option<usize>
    ensures place { result ≡ position (λ image. bytes_eq image.name.items name.now) images.now }
    ensures within { IfSome result (λ i. i < length images.now) }
{
    images
        .iter()
        .position(|image| image.name.as_slice() == name)
}

fn find<'a>(images: &'a [Image], name: &[u8]) -> Option<&'a [u8]>
    ensures { option_map (λ bytes. bytes.now) result ≡ bytes_of_image (entries_of images.now) name.now }
{
    for image in images {
        if image.name.as_slice() == name {
            return Some(image.bytes());
        }
    }
    None
}
