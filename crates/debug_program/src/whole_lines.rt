//! A source whose last line has its end.

ghost use Rattle.std.specs.Prelude.{◌≡◌};
ghost use Rattle.debug_program.specs.GoingOn.{is_open_behind};

use profile::{ReadFault, Source};

/// A source that is lent, with a line feed behind its last byte, where that is none.
#[derive(Drop)]
pub struct WholeLines<'a, S> {
    /// What gives the bytes.
    pub inner: &'a mut S,
    /// Whether the last byte that it gave was no line feed.
    pub is_line_open: bool,
}

impl<S: Source> Source for WholeLines<'_, S> {
    ghost use Rattle.std.specs.Prelude.{option_map};
    ghost use Rattle.debug_program.specs.GoingOn.{with_line_end};

    ghost remaining = { λ w. option_map (with_line_end w.is_line_open) (S.remaining w.inner.now) };

    ghost has_failed = { λ w. S.has_failed w.inner.now };

    fn pull(&mut self, buffer: &mut [u8]) -> Result<usize, ReadFault> {
        let count = self.inner.pull(buffer)?;
        if count > 0 {
            self.is_line_open = is_open_behind(self.is_line_open, &buffer[..count]);
            return Ok(count);
        }
        if self.is_line_open {
            self.is_line_open = false;
            buffer[0] = b'\n';
            return Ok(1);
        }
        Ok(0)
    }
}

/// Whether a line is open behind a piece, by whether one was open before it.
pub(crate) fn is_open_behind(was_open: bool, piece: &[u8]) -> bool
    ensures { result ≡ is_open_behind was_open piece.now }
{
    let mut is_open = was_open;
    for byte in piece {
        is_open = *byte != b'\n';
    }
    is_open
}
