//! Why serving GDB ends early.

ghost use Rattle.std.specs.Prelude.{◌≡◌};

use command_shell::RunError;
use profile::{ReadFault, WriteFault};
use thiserror::Error;

/// Why serving ended before the debugger was gone, and before the end of what it sends.
#[derive(Clone, Copy, Debug, Error)]
pub enum ServeError {
    /// Memory ran out.
    #[error("no memory for an answer to GDB")]
    Memory,
    /// What GDB sends can't be read.
    #[error("what GDB sends can't be read")]
    ReadFault,
    /// The answers can't be written.
    #[error("the answers to GDB can't be written")]
    WriteFault,
    /// GDB sends more pieces than can be counted.
    #[error("GDB sends more than can be counted")]
    TooMuch,
}

impl From<ReadFault> for ServeError {
    ghost use Rattle.rosm_settings.specs.declared.gdb.serve_error.ServeError.TheVariants as why;

    ghost from_gives = { λ _ e. e ≡ why.ReadFault };

    fn from(_fault: ReadFault) -> ServeError {
        ServeError::ReadFault
    }
}

impl From<WriteFault> for ServeError {
    ghost use Rattle.rosm_settings.specs.declared.gdb.serve_error.ServeError.TheVariants as why;

    ghost from_gives = { λ _ e. e ≡ why.WriteFault };

    fn from(_fault: WriteFault) -> ServeError {
        ServeError::WriteFault
    }
}

impl From<RunError> for ServeError {
    ghost use Rattle.rosm_settings.specs.gdb.ServeErrors.{serve_error};

    ghost from_gives = { λ error e. e ≡ serve_error error };

    fn from(error: RunError) -> ServeError {
        match error {
            RunError::Memory => ServeError::Memory,
            RunError::ReadFault => ServeError::ReadFault,
            RunError::WriteFault => ServeError::WriteFault,
            RunError::ScriptTooLong => ServeError::TooMuch,
        }
    }
}
