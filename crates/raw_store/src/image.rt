//! What an image's bytes are read through, wherever they stand.

ghost use Rattle.std.specs.Prelude.{◌≡◌, ◌<◌, ℕ, List, length, slice_index};

/// The bytes of an image, wherever they stand: in a slice, or in a guest's memory.
pub trait ImageBytes {
    // All bytes of the image, the first at place 0.
    ghost bytes: { Self → List ℕ };

    /// How many bytes the image has.
    fn len(&self) -> usize
        ensures { result ≡ length (bytes self.now) };

    /// The byte at a place.
    fn byte(&self, at: usize) -> u8
        requires { at < length (bytes self.now) }
        ensures { result ≡ slice_index (bytes self.now) at };
}

impl<'a> ImageBytes for &'a [u8] {
    ghost bytes = { λ s. s.now };

    fn len(&self) -> usize {
        (**self).len()
    }

    fn byte(&self, at: usize) -> u8 {
        self[at]
    }
}
