//! What a command line asks for, its form, and why one is refused.

ghost use Rattle.std.specs.Prelude.{◌≡◌, Some};
ghost use Rattle.rosm_settings.specs.declared.command_line.options.SettingsError.TheVariants.{Memory};
ghost use Rattle.rosm_settings.specs.command_line.Texts.{settings_error_text};

use crate::command_line::files::Files;
use profile::Config;
use std::alloc::AllocError;
use std::error::Error;
use std::fmt;

/// What the command line asks for.
#[derive(Drop)]
pub struct Settings {
    /// The sizes of the machine, in pages.
    pub config: Config,
    /// How many steps the script may take in all.
    pub budget: u64,
    /// The words that belong to no option, in order: the files of images.
    pub files: Files,
}

/// The form of a command line, in one line.
pub const USAGE: &str =
    "usage: rosm [--pages N] [--app N] [--rma N] [--budget N] [FILE...] <SCRIPT";

/// Why a command line is refused. The line comes before the sizes; memory may run out anywhere.
#[derive(Clone, Copy, Debug)]
pub enum SettingsError {
    /// Memory ran out.
    Memory,
    /// The words are no command line of this program, or ask for help.
    Line,
    /// No machine can have these sizes.
    Sizes,
}

impl fmt::Display for SettingsError {
    ghost output = { λ error. Some (settings_error_text error) };

    fn fmt<W: fmt::Write>(&self, f: &mut fmt::Formatter<W>) -> fmt::Result {
        f.write_str(match self {
            SettingsError::Memory => "out of memory",
            SettingsError::Line => USAGE,
            SettingsError::Sizes => {
                "sizes: --app and --rma at least 1, --pages at most 1024 and at least app + rma + 3"
            }
        })
    }
}

impl Error for SettingsError {}

impl From<AllocError> for SettingsError {
    ghost from_gives = { λ _ e. e ≡ Memory };

    fn from(_error: AllocError) -> SettingsError {
        SettingsError::Memory
    }
}
