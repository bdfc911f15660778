//! Why the subcommand `gdb` ends without having served GDB to its end, with the line and the exit status for that.

ghost use Rattle.std.specs.Prelude.{◌≡◌};

use crate::command_line::SettingsError;
use crate::gdb::serve_error::ServeError;
use crate::image_files::FileError;
use command_shell::RunError;
use std::alloc::AllocError;
use thiserror::Error;

/// The form of a command line, in one line.
pub const USAGE: &str = "usage: rosm_gdb [--script FILE] [--stay] \
[--pages N] [--app N] [--rma N] [--budget N] [FILE...]";

/// Why GDB isn't served to its end. The text is one line.
#[derive(Debug, Drop, Error)]
pub enum GdbRefusal<'a> {
    /// Memory ran out while the command line was read.
    #[error("{}", SettingsError::Memory)]
    Memory,
    /// A word of the command line is no text.
    #[error("a word is not text in UTF-8; {usage}", usage = USAGE)]
    NotText,
    /// The words are no command line; the text says what is wrong with them.
    #[error("{0}; {usage}", usage = USAGE)]
    Line(String),
    /// No machine can have the sizes of the command line; the text says which, and by what rule.
    #[error("{0}; {usage}", usage = USAGE)]
    Sizes(String),
    /// The file of this path is no image, or no script that can be read, for this reason.
    #[error("{0:?}: {1}")]
    File(&'a str, FileError),
    /// The file of this path is an ELF file, which is no image.
    #[error("{0:?}: an ELF file is for GDB; objcopy -O binary makes an image of it")]
    Elf(&'a str),
    /// The lines that a machine begins with can't be read, or not all be answered, for this reason.
    #[error("{0}")]
    Start(RunError),
    /// Serving ended, for this reason.
    #[error("{0}")]
    Served(ServeError),
}

impl GdbRefusal<'_> {
    ghost use Rattle.rosm_settings.specs.gdb.Endings.{gdb_refusal_status};

    /// The exit status: 2 for a command line that can't be, else 4.
    pub fn status(&self) -> u8
        ensures { result ≡ gdb_refusal_status self.now }
    {
        match self {
            GdbRefusal::NotText | GdbRefusal::Line(_) | GdbRefusal::Sizes(_) => 2,
            GdbRefusal::Memory
            | GdbRefusal::File(_, _)
            | GdbRefusal::Elf(_)
            | GdbRefusal::Start(_)
            | GdbRefusal::Served(_) => 4,
        }
    }
}

impl<'a> From<AllocError> for GdbRefusal<'a> {
    ghost use Rattle.rosm_settings.specs.declared.gdb.refusal.GdbRefusal.TheVariants.{Memory};

    ghost from_gives = { λ _ refused. refused ≡ Memory };

    fn from(_error: AllocError) -> GdbRefusal<'a> {
        GdbRefusal::Memory
    }
}

impl<'a> From<RunError> for GdbRefusal<'a> {
    ghost use Rattle.rosm_settings.specs.declared.gdb.refusal.GdbRefusal.TheVariants.{Start};

    ghost from_gives = { λ error refused. refused ≡ Start error };

    fn from(error: RunError) -> GdbRefusal<'a> {
        GdbRefusal::Start(error)
    }
}

impl<'a> From<ServeError> for GdbRefusal<'a> {
    ghost use Rattle.rosm_settings.specs.declared.gdb.refusal.GdbRefusal.TheVariants.{Served};

    ghost from_gives = { λ error refused. refused ≡ Served error };

    fn from(error: ServeError) -> GdbRefusal<'a> {
        GdbRefusal::Served(error)
    }
}
