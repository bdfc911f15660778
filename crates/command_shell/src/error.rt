//! Why the run of a script ended before its end.

ghost use Rattle.std.specs.Prelude.{◌≡◌, Some};
ghost use Rattle.command_shell.specs.declared.error.RunError.TheVariants.{Memory, WriteFault as IsWriteFault};
ghost use Rattle.command_shell.specs.Error.{reading_end, run_error_text, written_end};

use command_shell_lines::ReadingError;
use profile::WriteFault;
use std::alloc::AllocError;
use std::error::Error;
use std::fmt;

/// Why the run of a script ended before its end.
#[derive(Clone, Copy, Debug, PartialEq, Eq)]
pub enum RunError {
    /// The host has no memory for the script, the machine or an image.
    Memory,
    /// The script can't be read.
    ReadFault,
    /// The answers can't be written.
    WriteFault,
    /// The script has more than 1,048,576 bytes.
    ScriptTooLong,
}

impl fmt::Display for RunError {
    ghost output = { λ error. Some (run_error_text error) };

    fn fmt<W: fmt::Write>(&self, f: &mut fmt::Formatter<W>) -> fmt::Result {
        match self {
            RunError::Memory => f.write_str("no memory for the script, the machine or an image"),
            RunError::ReadFault => f.write_str("the script can't be read"),
            RunError::WriteFault => f.write_str("the answers can't be written"),
            RunError::ScriptTooLong => f.write_str("the script has more than 1,048,576 bytes"),
        }
    }
}

impl Error for RunError {}

impl From<AllocError> for RunError {
    ghost from_gives = { λ _ e. e ≡ Memory };

    fn from(_error: AllocError) -> RunError {
        RunError::Memory
    }
}

impl From<ReadingError> for RunError {
    ghost from_gives = { λ error e. e ≡ reading_end error };

    fn from(error: ReadingError) -> RunError {
        match error {
            ReadingError::Memory => RunError::Memory,
            ReadingError::ReadFault => RunError::ReadFault,
            ReadingError::ScriptTooLong => RunError::ScriptTooLong,
        }
    }
}

impl From<WriteFault> for RunError {
    ghost from_gives = { λ _ e. e ≡ IsWriteFault };

    fn from(_fault: WriteFault) -> RunError {
        RunError::WriteFault
    }
}

// How a line ends that has nothing left to do but to be written.
pub(crate) fn written(done: Result<(), WriteFault>) -> Result<(), RunError>
    ensures { result ≡ written_end done }
{
    match done {
        Ok(()) => Ok(()),
        Err(WriteFault) => Err(RunError::WriteFault),
    }
}
