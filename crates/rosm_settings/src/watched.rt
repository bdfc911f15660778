//! A source that can say whether it has given anything.

use profile::{ReadFault, Source};

/// A source, and whether it has given a byte yet.
#[derive(Drop)]
pub struct Watched<S> {
    inner: S,
    has_given: bool,
}

impl<S: Source> Watched<S> {
    ghost use Rattle.std.specs.Prelude.{◌≡◌, false};

    /// The source, which is as it was, and has given nothing yet.
    pub fn new(inner: S) -> Watched<S>
        ensures inner { result.inner ≡ inner }
        ensures none { result.has_given ≡ false }
    {
        Watched {
            inner,
            has_given: false,
        }
    }

    /// Whether it has given a byte.
    pub fn has_given(&self) -> bool
        ensures { result ≡ self.now.has_given }
    {
        self.has_given
    }
}

impl<S: Source> Source for Watched<S> {
    ghost remaining = { λ w. S.remaining w.inner };

    ghost has_failed = { λ w. S.has_failed w.inner };

    ghost pulls = { λ w. S.pulls w.inner };

    fn pull(&mut self, buffer: &mut [u8]) -> Result<usize, ReadFault> {
        let count = self.inner.pull(buffer)?;
        self.has_given = self.has_given || count > 0;
        Ok(count)
    }
}
