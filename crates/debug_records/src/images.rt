//! Where images stand, in records.

ghost use Rattle.std.specs.Prelude.{◌≡◌, OnOk};

use crate::recorder::Twin;
use debug_session::DebugSession;
use std::alloc::{AllocError, Global};
use trace_effects::record_text::{Bracket, RecordText};

/// An image that was assembled, and where it stands as far as it was told.
#[derive(Drop)]
pub struct KnownImage {
    name: Vec<u8>,
    at: Option<u32>,
}

// Takes in where the images stand now, and answers whether one stands elsewhere than before. One that was
// assembled for no address stands nowhere until it is loaded.
fn follow_images(known_images: &mut [KnownImage], session: &DebugSession) -> bool {
    let mut has_moved = false;
    for known in known_images.iter_mut() {
        let at = match session.image_place(known.name.as_slice()) {
            Some(place) if place.start != 0 => Some(place.start),
            _ => None,
        };
        if known.at != at {
            known.at = at;
            has_moved = true;
        }
    }
    has_moved
}

impl Twin {
    /// Takes in an image that was assembled.
    pub(crate) fn know(&mut self, name: &[u8]) -> Result<(), AllocError>
        ensures { OnOk result (self.new.changes ≡ self.old.changes) }
    {
        if self.known.iter().any(|known| known.name.as_slice() == name) {
            return Ok(());
        }
        let name = Vec::from_slice(self.alloc, name)?;
        self.known.push(KnownImage { name, at: None })?;
        Ok(())
    }

    /// Writes where images stand, if one stands elsewhere than it was told: in the session, or else in the
    /// twin.
    pub(crate) fn push_places(&mut self, session: Option<&DebugSession>) -> Result<(), AllocError>
        ensures changes { OnOk result (self.new.changes ≡ self.old.changes) }
        ensures front { OnOk result (self.new.front ≡ self.old.front) }
        ensures session { OnOk result (self.new.session ≡ self.old.session) }
    {
        let has_moved = match session {
            Some(session) => follow_images(&mut self.known, session),
            None => follow_images(&mut self.known, &self.session),
        };
        if !has_moved {
            return Ok(());
        }
        push_known(&mut self.text, self.known.as_slice())
    }
}

fn push_known(text: &mut RecordText, known_images: &[KnownImage]) -> Result<(), AllocError> {
    text.open_field(b"places", Bracket::List)?;
    for known in known_images {
        push_place(text, known)?;
    }
    text.close(Bracket::List)
}

fn push_place(text: &mut RecordText, known: &KnownImage) -> Result<(), AllocError> {
    text.open(Bracket::List)?;
    text.string(known.name.as_slice())?;
    match known.at {
        Some(at) => text.number(u64::from(at))?,
        None => text.word(b"null")?,
    }
    text.close(Bracket::List)
}
