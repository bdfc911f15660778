//! A script, and behind it what is typed.

ghost use Rattle.std.specs.Prelude.{◌≡◌, IfOk, OnOk};
ghost use Rattle.profile.specs.Devices.{device_inner};
ghost use Rattle.debug_program.specs.GoingOn.{DebugsBoth, IsStatusOfBoth};

use crate::including_script::SavingSource;
use crate::talk::{answer_pieces, talk};
use crate::typing::DebugTyping;
use crate::whole_lines::WholeLines;
use debug_session::RunError;
use profile::images::Images;
use profile::{Device, Sink};
use std::io::Write;

/// Answers the lines of a script, each with its end, and then what a reader gives, as [`talk`] does,
/// and gives the exit status of both.
///
/// # Errors
///
/// As [`talk`].
pub fn talk_behind_script<F: SavingSource, R: SavingSource, W: Write, E: Sink>(
    mut typing: DebugTyping,
    images: &mut Images,
    script: &mut F,
    reader: &mut R,
    writer: &mut Device<W>,
    errors: &mut E,
    is_terminal: bool,
) -> Result<u8, RunError>
    ensures text { OnOk result (DebugsBoth typing images.old is_terminal (F.remaining script.old)
        (R.remaining reader.old)
        (W.contents (device_inner writer.old)) (W.contents (device_inner writer.new))) }
    ensures status { IfOk result (IsStatusOfBoth typing images.old (F.remaining script.old)
        (R.remaining reader.old)) }
{
    let mut script = WholeLines {
        inner: script,
        is_line_open: false,
    };
    match answer_pieces(&mut typing, images, &mut script, writer, errors, false) {
        Ok(()) => talk(typing, images, reader, writer, errors, is_terminal),
        Err(error) => Err(error),
    }
}
