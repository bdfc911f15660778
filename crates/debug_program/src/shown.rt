//! What a terminal shows: how steps ended, on a line of its own behind what the guest printed.

ghost use Rattle.std.specs.Prelude.{◌≡◌, OnOk};
ghost use Rattle.std.specs.Io.KnownBytes.{Appends};
ghost use Rattle.debug_program.specs.GoingOn.{is_open_behind as is_open_behind_shown};
ghost use Rattle.debug_program.specs.Shown.{shown_piece};

use crate::whole_lines::is_open_behind;
use debug_session::begins_ending;
use std::io;
use std::io::Write;

/// A writer that may be a terminal's. There how steps ended begins a line, where what the guest printed
/// leaves one open. What goes elsewhere is written as it is.
#[derive(Drop)]
pub struct ShownAnswers<W> {
    inner: W,
    is_terminal: bool,
    // Whether the last byte that was written since a line was typed is no line feed.
    is_line_open: bool,
}

impl<W> ShownAnswers<W> {
    /// A writer that has written nothing.
    pub fn new(inner: W, is_terminal: bool) -> ShownAnswers<W>
        ensures inner { result.inner ≡ inner }
        ensures terminal { result.is_terminal ≡ is_terminal }
    {
        ShownAnswers {
            inner,
            is_terminal,
            is_line_open: false,
        }
    }
}

impl<W: Write> ShownAnswers<W> {
    // Writes a piece as a terminal shows it: how steps ended is a whole line.
    fn show(&mut self, piece: &[u8]) -> io::Result<()>
        ensures text { OnOk result (Appends (W.contents self.old.inner) (W.contents self.new.inner)
            (shown_piece self.old.is_line_open piece.now)) }
        ensures open { OnOk result (self.new.is_line_open
            ≡ is_open_behind_shown self.old.is_line_open piece.now) }
        ensures terminal { self.new.is_terminal ≡ self.old.is_terminal }
    {
        if self.is_line_open && begins_ending(piece) && !is_open_behind(false, piece) {
            self.inner.write_all(b"\n")?;
        }
        self.inner.write_all(piece)?;
        self.is_line_open = is_open_behind(self.is_line_open, piece);
        Ok(())
    }
}

impl<W: Write> Write for ShownAnswers<W> {
    ghost use Rattle.debug_program.specs.GoingOn.{known_unless};

    // What a terminal shows has line feeds that nobody wrote.
    ghost contents = { λ s. known_unless s.is_terminal (W.contents s.inner) };

    fn write(&mut self, bytes: &[u8]) -> io::Result<usize> {
        if !self.is_terminal {
            return self.inner.write(bytes);
        }
        self.show(bytes)?;
        Ok(bytes.len())
    }

    // Behind what is handed on a line is typed, which ends the line that is open.
    fn flush(&mut self) -> io::Result<()> {
        self.is_line_open = false;
        self.inner.flush()
    }
}
