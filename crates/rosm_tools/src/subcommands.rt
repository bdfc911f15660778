//! The tools, which the first word of a command line names.

ghost use Rattle.std.specs.Prelude.{◌≡◌};
ghost use Rattle.std.specs.Process.{exit_status};
ghost use Rattle.rosm_tools.specs.Subcommands.{subcommand_named};

use std::env::Env;
use std::process::ExitCode;

/// What the first word names.
#[derive(Clone, Copy)]
pub enum Subcommand {
    /// `debug`.
    Debug,
    /// `gdb`.
    Gdb,
}

// A word with more bytes than this names no subcommand.
const MOST_BYTES: usize = 8;

/// The subcommand that the first word of this process names, if it names one.
pub fn subcommand_asked<R: Env>(rt: &R) -> Option<Subcommand> {
    let mut word = [0u8; MOST_BYTES];
    match rt.arg(1, &mut word) {
        Ok(length) => subcommand_of(&word[..length]),
        Err(_) => None,
    }
}

fn subcommand_of(word: &[u8]) -> Option<Subcommand>
    ensures { result ≡ subcommand_named word.now }
{
    if word == b"debug".as_slice() {
        Some(Subcommand::Debug)
    } else if word == b"gdb".as_slice() {
        Some(Subcommand::Gdb)
    } else {
        None
    }
}

/// The exit status where no subcommand is named, with one line on standard error that lists them.
pub fn refuse<R: Eprint>(rt: &R) -> ExitCode
    ensures { exit_status result ≡ 2 }
{
    let _ = eprintln!(rt;
        "rosm_tools: the first word is debug or gdb; usage: rosm_tools (debug | gdb) [WORD...]"
    );
    ExitCode::from(2)
}
