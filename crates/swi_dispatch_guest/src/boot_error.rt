//! Why a program was not booted.

ghost use Rattle.std.specs.Prelude.{Some};
ghost use Rattle.swi_dispatch_guest.specs.BootErrors.{boot_error_name};

use std::error::Error;
use std::fmt;

/// Why a program was not copied into the application space.
#[derive(Clone, Copy, Debug)]
pub enum BootError {
    /// The machine is no longer as it was made.
    Booted,
    /// The program is longer than the application space.
    TooLarge,
}

/// The refusal's name.
impl fmt::Display for BootError {
    ghost output = { λ error. Some (boot_error_name error) };

    fn fmt<W: fmt::Write>(&self, f: &mut fmt::Formatter<W>) -> fmt::Result {
        match self {
            BootError::Booted => f.write_str("Booted"),
            BootError::TooLarge => f.write_str("TooLarge"),
        }
    }
}

impl Error for BootError {}
