//! Why a script is not read to its end.

ghost use Rattle.std.specs.Prelude.{◌≡◌};
ghost use Rattle.command_shell_lines.specs.declared.error.ReadingError.TheVariants.{Memory, ReadFault as IsReadFault};

use assembler_text::ReadFault;
use std::alloc::AllocError;
use thiserror::Error;

/// Why a script wasn't read to its end.
#[derive(Clone, Copy, Debug, Error)]
pub enum ReadingError {
    /// The host has no memory for the script.
    #[error("no memory for the script")]
    Memory,
    /// The script can't be read.
    #[error("the script can't be read")]
    ReadFault,
    /// The script has more than 1,048,576 bytes.
    #[error("the script has more than 1,048,576 bytes")]
    ScriptTooLong,
}

impl From<AllocError> for ReadingError {
    ghost from_gives = { λ _ e. e ≡ Memory };

    fn from(_error: AllocError) -> ReadingError {
        ReadingError::Memory
    }
}

impl From<ReadFault> for ReadingError {
    ghost from_gives = { λ _ e. e ≡ IsReadFault };

    fn from(_fault: ReadFault) -> ReadingError {
        ReadingError::ReadFault
    }
}
