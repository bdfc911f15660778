//! Why `rosm` ends without having run its script whole, with the line and the exit status for that.

ghost use Rattle.std.specs.Prelude.{◌≡◌};

use crate::command_line::USAGE;
use crate::image_files::FileError;
use command_shell::RunError;
use std::alloc::AllocError;
use std::error::Error;
use std::fmt;

/// Why the program ends without having run its script whole. The text is one line.
#[derive(Debug, Drop)]
pub enum SettingsRefusal<'a> {
    /// Memory ran out while the command line was read.
    Memory,
    /// A word of the command line is no text.
    NotText,
    /// The words are no command line; the text says what is wrong with them.
    Line(String),
    /// No machine can have the sizes of the command line; the text says which, and by what rule.
    Sizes(String),
    /// The file of this path is no image, for this reason.
    File(&'a str, FileError),
    /// The script can't be run whole, for this reason.
    Script(RunError),
}

impl SettingsRefusal<'_> {
    ghost use Rattle.rosm_settings.specs.Endings.{refusal_status};

    /// The exit status: 2 for a command line that can't be, else 4.
    pub fn status(&self) -> u8
        ensures { result ≡ refusal_status self.now }
    {
        match self {
            SettingsRefusal::NotText | SettingsRefusal::Line(_) | SettingsRefusal::Sizes(_) => 2,
            SettingsRefusal::Memory | SettingsRefusal::File(_, _) | SettingsRefusal::Script(_) => 4,
        }
    }
}

/// A path stands in quotes, as Rust writes them.
impl fmt::Display for SettingsRefusal<'_> {
    ghost use Rattle.rosm_settings.specs.Texts.{refusal_text};

    ghost output = { refusal_text };

    fn fmt<W: fmt::Write>(&self, f: &mut fmt::Formatter<W>) -> fmt::Result {
        match self {
            SettingsRefusal::Memory => f.write_str("out of memory"),
            SettingsRefusal::NotText => write!(f, "a word is not text in UTF-8; {USAGE}"),
            SettingsRefusal::Line(reason) | SettingsRefusal::Sizes(reason) => {
                write!(f, "{reason}; {USAGE}")
            }
            SettingsRefusal::File(path, error) => write!(f, "{path:?}: {error}"),
            SettingsRefusal::Script(error) => fmt::Display::fmt(error, f),
        }
    }
}

impl Error for SettingsRefusal<'_> {}

impl<'a> From<AllocError> for SettingsRefusal<'a> {
    ghost use Rattle.rosm_settings.specs.declared.refusal.SettingsRefusal.TheVariants.{Memory};

    ghost from_gives = { λ _ refused. refused ≡ Memory };

    fn from(_error: AllocError) -> SettingsRefusal<'a> {
        SettingsRefusal::Memory
    }
}

impl<'a> From<RunError> for SettingsRefusal<'a> {
    ghost use Rattle.rosm_settings.specs.declared.refusal.SettingsRefusal.TheVariants.{Script};

    ghost from_gives = { λ error refused. refused ≡ Script error };

    fn from(error: RunError) -> SettingsRefusal<'a> {
        SettingsRefusal::Script(error)
    }
}
