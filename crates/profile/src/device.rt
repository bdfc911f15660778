//! Readers and writers of the standard library as sources and sinks, with a flag that tells that
//! one has failed.

ghost use Rattle.std.specs.Prelude.{◌≡◌, Bool, true, false, not, IfOk, is_err, is_ok};
ghost use Rattle.std.specs.Io.Buffered.{writer_contents};
ghost use Rattle.std.specs.Io.KnownBytes.{Keeps};
ghost use Rattle.profile.specs.Devices.{device_inner, device_failed, is_interrupted};

use crate::sink::WriteFault;
use std::io::{BufWriter, ErrorKind, Write};

/// A reader or a writer of the standard library as a source or a sink.
///
/// Its flag goes up at the first call that fails, and stays up.
#[derive(Drop)]
pub struct Device<T> {
    pub(crate) inner: T,
    pub(crate) has_failed: bool,
}

impl<T> Device<T> {
    /// The device, which has not failed yet.
    pub fn new(inner: T) -> Device<T>
        ensures inner { device_inner result ≡ inner }
        ensures flag { device_failed result ≡ false }
    {
        Device {
            inner,
            has_failed: false,
        }
    }
}

impl<T: Write> Device<T> {
    /// Hands on all that the writer holds back.
    ///
    /// # Errors
    ///
    /// `WriteFault` where this fails, or a call before it did.
    pub fn flush(&mut self) -> Result<(), WriteFault>
        ensures flag { device_failed self.new ≡ is_err result }
        ensures stays { device_failed self.old ≡ true → device_failed self.new ≡ true }
        ensures bytes { Keeps (T.contents (device_inner self.old)) (T.contents (device_inner self.new)) }
    {
        if self.has_failed {
            return Err(WriteFault);
        }
        for _tries in 0..u64::MAX {
            match self.inner.flush() {
                Ok(()) => return Ok(()),
                Err(error) => {
                    if !is_passing(error.kind()) {
                        break;
                    }
                }
            }
        }
        self.has_failed = true;
        Err(WriteFault)
    }
}

impl<T: Write + Drop> Device<BufWriter<T>> {
    /// Hands on all that the buffer holds, and gives the writer below it as a device.
    ///
    /// # Errors
    ///
    /// `WriteFault` where this fails, or a call before it did.
    pub fn unbuffered(self) -> Result<Device<T>, WriteFault>
        ensures bytes { IfOk result (λ below. Keeps (writer_contents T.contents (device_inner self))
            (T.contents (device_inner below))) }
        ensures flag { IfOk result (λ below. device_failed below ≡ false) }
        ensures failed { device_failed self ≡ true → is_err result ≡ true }
    {
        if self.has_failed {
            return Err(WriteFault);
        }
        match self.inner.into_inner() {
            Ok(inner) => Ok(Device::new(inner)),
            Err(_) => Err(WriteFault),
        }
    }
}

/// Whether a call that failed so is to be tried again: it was interrupted.
pub(crate) fn is_passing(kind: ErrorKind) -> bool
    ensures { result ≡ is_interrupted kind }
{
    kind == ErrorKind::Interrupted
}
