//! Why `rosm_debug` ends without having answered all lines, with the line and the exit status for
//! that.

ghost use Rattle.std.specs.Prelude.{◌≡◌};

use debug_program::IncludeRefusal;
use debug_records::RunError;
use rosm_settings::SettingsRefusal;
use rosm_settings::command_line::SettingsError;
use rosm_settings::image_files::FileError;
use std::alloc::AllocError;
use thiserror::Error;

/// The form of a command line, in one line.
pub const USAGE: &str = "usage: rosm_debug [--script FILE [-i]] \
[--tap | --transcript | --json] [--pages N] [--app N] [--rma N] [--budget N] [FILE...] <SCRIPT";

/// Why the program ends without having answered all lines. The text is one line.
#[derive(Debug, Drop, Error)]
pub enum DebugRefusal<'a> {
    /// Memory ran out while the command line was read.
    #[error("{}", SettingsError::Memory)]
    Memory,
    /// A word of the command line is no text.
    #[error("a word is not text in UTF-8; {usage}", usage = USAGE)]
    NotText,
    /// The words are no command line; the text says what is wrong with them.
    #[error("{0}; {usage}", usage = USAGE)]
    Line(String),
    /// No machine can have the sizes of the command line; the text says which, and by what rule.
    #[error("{0}; {usage}", usage = USAGE)]
    Sizes(String),
    /// The file of this path is no image, or no script that can be read, for this reason.
    #[error("{0:?}: {1}")]
    File(&'a str, FileError),
    /// A line of a script includes no file; the text has the script, the line, and why.
    #[error("{0}")]
    Include(String),
    /// Not all lines can be answered, for this reason.
    #[error("{0}")]
    Script(RunError),
}

impl DebugRefusal<'_> {
    ghost use Rattle.rosm_tools.specs.debug.Endings.{debug_refusal_status};

    /// The exit status: 2 for a command line that can't be, else 4.
    pub fn status(&self) -> u8
        ensures { result ≡ debug_refusal_status self.now }
    {
        match self {
            DebugRefusal::NotText | DebugRefusal::Line(_) | DebugRefusal::Sizes(_) => 2,
            DebugRefusal::Memory
            | DebugRefusal::File(_, _)
            | DebugRefusal::Include(_)
            | DebugRefusal::Script(_) => 4,
        }
    }
}

impl<'a> From<AllocError> for DebugRefusal<'a> {
    ghost use Rattle.rosm_tools.specs.declared.debug.refusal.DebugRefusal.TheVariants.{Memory};

    ghost from_gives = { λ _ refused. refused ≡ Memory };

    fn from(_error: AllocError) -> DebugRefusal<'a> {
        DebugRefusal::Memory
    }
}

impl<'a> From<IncludeRefusal> for DebugRefusal<'a> {
    ghost use Rattle.rosm_tools.specs.debug.Endings.{include_refusal};

    ghost from_gives = { λ error refused. refused ≡ include_refusal error };

    fn from(error: IncludeRefusal) -> DebugRefusal<'a> {
        match error {
            IncludeRefusal::Memory => DebugRefusal::Script(RunError::Memory),
            IncludeRefusal::ReadFault => DebugRefusal::Script(RunError::ReadFault),
            IncludeRefusal::TooLong => DebugRefusal::Script(RunError::ScriptTooLong),
            IncludeRefusal::Line(text) => DebugRefusal::Include(text),
        }
    }
}

impl<'a> From<RunError> for DebugRefusal<'a> {
    ghost use Rattle.rosm_tools.specs.declared.debug.refusal.DebugRefusal.TheVariants.{Script};

    ghost from_gives = { λ error refused. refused ≡ Script error };

    fn from(error: RunError) -> DebugRefusal<'a> {
        DebugRefusal::Script(error)
    }
}
