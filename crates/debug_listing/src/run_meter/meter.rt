//! What a person is shown of a run that goes on.

ghost use Rattle.std.specs.Prelude.{◌≡◌};
ghost use Rattle.debug_listing.specs.run_meter.Meters.{silent_meter};

use itoa::Buffer;
use profile::{Device, push_all, push_parts};
use std::rt::Stderr;

/// Says how far a run is, in one line of standard error that goes again.
#[derive(Clone, Copy)]
pub struct RunMeter {
    errors: Option<Stderr>,
}

impl RunMeter {
    /// One that shows nothing.
    pub fn silent() -> RunMeter
        ensures { result ≡ silent_meter }
    {
        RunMeter { errors: None }
    }

    /// One for a terminal, which standard error is.
    pub fn at_terminal(errors: Stderr) -> RunMeter {
        RunMeter {
            errors: Some(errors),
        }
    }

    // That so many steps are taken. Standard error may be closed: what it is told is no answer.
    pub(crate) fn print(self, taken: u64) {
        if let Some(errors) = self.errors {
            let mut digits = Buffer::new();
            let millions = digits.format(taken / 1_000_000).as_bytes();
            let _ = push_parts(
                &mut Device::new(errors),
                &[b"\r".as_slice(), millions, b" million steps".as_slice()],
            );
        }
    }

    // The line that shows it goes.
    pub(crate) fn clear(self) {
        if let Some(errors) = self.errors {
            let _ = push_all(&mut Device::new(errors), b"\r\x1B[K");
        }
    }
}
