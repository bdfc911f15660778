//! The images of two names, compared.

ghost use Rattle.std.specs.Prelude.{◌≡◌, IfOk};
ghost use Rattle.debug_listing.specs.Comparing.{images_compared};

use debug_listing::push_comparison;
use debug_modes::refused_line;
use profile::images::Images;
use profile::text_sink::TextSink;
use std::alloc::{AllocError, Global};

/// Where the images of two names differ, or that one of them is none.
///
/// # Errors
///
/// Memory ran out.
pub(crate) fn images_compared(
    alloc: Global,
    images: &Images,
    one: &[u8],
    other: &[u8],
) -> Result<Vec<u8>, AllocError>
    ensures { IfOk result (λ text. text.items ≡ images_compared images.now one.now other.now) }
{
    let Some(first) = images.get(one) else {
        return refused_line(alloc, b"NoImage");
    };
    let Some(second) = images.get(other) else {
        return refused_line(alloc, b"NoImage");
    };
    let mut text = TextSink::new(alloc);
    match push_comparison(&mut text, first, second) {
        Ok(()) => Ok(text.into_bytes()),
        Err(_) => Err(AllocError),
    }
}
