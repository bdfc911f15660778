//! Why an image has no header.

ghost use Rattle.std.specs.Prelude.{Some};
ghost use Rattle.profile.specs.images.module_header.FaultTexts.{header_fault_text};

use std::error::Error;
use std::fmt;

/// Why an image has no header. Where several reasons hold, the first of this list is given.
#[derive(Clone, Copy, Debug)]
pub enum HeaderFault {
    /// The image has fewer than 28 bytes.
    Short,
    /// The word at &04 is not the offset of a word in the image.
    Initialise,
    /// The word at &08 is not the offset of a word in the image.
    Finalise,
    /// No title of 1 to 31 characters stands where the word at &10 says.
    Title,
}

/// What the image lacks, in a sentence's words.
impl fmt::Display for HeaderFault {
    ghost output = { λ fault. Some (header_fault_text fault) };

    fn fmt<W: fmt::Write>(&self, f: &mut fmt::Formatter<W>) -> fmt::Result {
        match self {
            HeaderFault::Short => f.write_str("the image is shorter than a module's header"),
            HeaderFault::Initialise => {
                f.write_str("the initialisation entry is no word of the image")
            }
            HeaderFault::Finalise => f.write_str("the finalisation entry is no word of the image"),
            HeaderFault::Title => f.write_str("the image has no good title"),
        }
    }
}

impl Error for HeaderFault {}
