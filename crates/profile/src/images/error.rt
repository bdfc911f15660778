//! Why an image is not taken.

ghost use Rattle.std.specs.Prelude.{◌≡◌, Some};
ghost use Rattle.profile.specs.declared.images.error.ImageError.TheVariants.{Memory};
ghost use Rattle.profile.specs.images.ErrorNames.{image_error_name};

use std::alloc::AllocError;
use std::error::Error;
use std::fmt;

/// Why an image is not taken. Where several reasons hold, the first of this list is given.
#[derive(Clone, Copy, Debug)]
pub enum ImageError {
    /// The name is not of 1 to 63 printing ASCII characters, or holds a space.
    BadName,
    /// An image of that name is there already.
    NameTaken,
    /// The image has more than 1,048,576 bytes.
    TooLarge,
    /// There are 64 images already.
    TableFull,
    /// The host has no memory for the bytes.
    Memory,
}

impl ImageError {
    /// The refusal's name, as the script language prints it.
    pub fn name(self) -> &'static str
        ensures { result.now ≡ image_error_name self }
    {
        match self {
            ImageError::BadName => "BadName",
            ImageError::NameTaken => "NameTaken",
            ImageError::TooLarge => "TooLarge",
            ImageError::TableFull => "TableFull",
            ImageError::Memory => "Memory",
        }
    }
}

/// The refusal's name.
impl fmt::Display for ImageError {
    ghost output = { λ error. Some (image_error_name error) };

    fn fmt<W: fmt::Write>(&self, f: &mut fmt::Formatter<W>) -> fmt::Result {
        f.write_str(self.name())
    }
}

impl Error for ImageError {}

impl From<AllocError> for ImageError {
    ghost from_gives = { λ _ e. e ≡ Memory };

    fn from(_error: AllocError) -> ImageError {
        ImageError::Memory
    }
}
