//! A session: what is read is answered as it comes, line by line.

ghost use Rattle.std.specs.Prelude.{◌≡◌, ◌⊎◌, true, false, Err, IfOk, IfErr, OnOk, OnErr};
ghost use Rattle.std.specs.Io.KnownBytes.{IsAtEnd, Keeps};
ghost use Rattle.profile.specs.Devices.{device_failed, device_inner};
ghost use Rattle.debug_session.specs.Error.{IsLineError};
ghost use Rattle.debug_session.specs.DebugState.{IsDebugTypingError};
ghost use Rattle.debug_session.specs.Failing.{ReportsReadFault, ReportsWriteFault};
ghost use Rattle.debug_session.specs.DebugChecksReportForm.TheVariants.{Answers};
ghost use Rattle.debug_program.specs.Talking.{BeginsInput, BeginsWhereFailed, DebugsInput, HasTalked, IsStatusOfInput, TakesPiece, TakesPieceInPart};

use crate::including_script::SavingSource;
use crate::typing::DebugTyping;
use debug_session::{ReportForm, RunError, push_missing_end};
use profile::images::Images;
use profile::{Device, Sink, WriteFault, push_all};
use std::io::Write;

// The most bytes that are read at once.
const PIECE: usize = 4096;

/// Answers what a reader gives, each line as soon as it is whole, up to its end or a line QUIT, and
/// gives the exit status. At a terminal a prompt stands before each line. What the writer holds back
/// is handed on before the next piece is read. Of each block that lacks its END standard error shows,
/// or a comment of the protocol.
///
/// # Errors
///
/// `ReadFault`, `WriteFault`, `ScriptTooLong` and `Memory`, when a part of the answers may stand
/// written.
pub fn talk<R: SavingSource, W: Write, E: Sink>(
    mut typing: DebugTyping,
    images: &mut Images,
    reader: &mut R,
    writer: &mut Device<W>,
    errors: &mut E,
    is_terminal: bool,
) -> Result<u8, RunError>
    ensures text { OnOk result (DebugsInput typing images.old is_terminal (R.remaining reader.old)
        (W.contents (device_inner writer.old)) (W.contents (device_inner writer.new))) }
    ensures status { IfOk result (IsStatusOfInput typing images.old (R.remaining reader.old)) }
    ensures read_fault { ReportsReadFault R.has_failed reader.old reader.new result }
    ensures read_front { result ≡ Err RunError.ReadFault → BeginsInput typing images.old is_terminal
        (R.remaining reader.old) (W.contents (device_inner writer.old))
        (W.contents (device_inner writer.new)) }
    ensures memory { result ≡ Err RunError.Memory → BeginsInput typing images.old is_terminal
        (R.remaining reader.old) (W.contents (device_inner writer.old))
        (W.contents (device_inner writer.new)) }
    ensures long_front { result ≡ Err RunError.ScriptTooLong → BeginsInput typing images.old is_terminal
        (R.remaining reader.old) (W.contents (device_inner writer.old))
        (W.contents (device_inner writer.new)) }
    ensures write_fault { ReportsWriteFault device_failed writer.old writer.new result }
{
    talk_to_end(&mut typing, images, reader, writer, errors, is_terminal)
}

// The same, with a session that is lent.
fn talk_to_end<R: SavingSource, W: Write, E: Sink>(
    typing: &mut DebugTyping,
    images: &mut Images,
    reader: &mut R,
    writer: &mut Device<W>,
    errors: &mut E,
    is_terminal: bool,
) -> Result<u8, RunError>
    ensures text { OnOk result (DebugsInput typing.old images.old is_terminal (R.remaining reader.old)
        (W.contents (device_inner writer.old)) (W.contents (device_inner writer.new))) }
    ensures status { IfOk result (IsStatusOfInput typing.old images.old (R.remaining reader.old)) }
    ensures read_fault { ReportsReadFault R.has_failed reader.old reader.new result }
    ensures front { BeginsWhereFailed typing.old images.old is_terminal (R.remaining reader.old)
        (W.contents (device_inner writer.old)) (W.contents (device_inner writer.new)) result }
    ensures write_fault { ReportsWriteFault device_failed writer.old writer.new result }
{
    answer_pieces(typing, images, reader, writer, errors, is_terminal)?;
    print_missing_at_end(typing, writer, errors)?;
    typing.answer_waiting(images, writer)?;
    typing.session().print_summary(writer)?;
    hand_on(writer)?;
    Ok(typing.session().status())
}

// Answers all lines that are whole.
pub(crate) fn answer_pieces<R: SavingSource, W: Write, E: Sink>(
    typing: &mut DebugTyping,
    images: &mut Images,
    reader: &mut R,
    writer: &mut Device<W>,
    errors: &mut E,
    is_terminal: bool,
) -> Result<(), RunError>
    ensures talked { OnOk result (HasTalked typing.old typing.new images.old images.new
        (R.remaining reader.old) (R.remaining reader.new)
        (W.contents (device_inner writer.old)) (W.contents (device_inner writer.new)) is_terminal) }
    ensures ends { OnOk result ((IsAtEnd (R.remaining reader.new)) ⊎ (typing.new.session.has_quit ≡ true)) }
    ensures read_fault { ReportsReadFault R.has_failed reader.old reader.new result }
    ensures front { BeginsWhereFailed typing.old images.old is_terminal (R.remaining reader.old)
        (W.contents (device_inner writer.old)) (W.contents (device_inner writer.new)) result }
    ensures write_fault { ReportsWriteFault device_failed writer.old writer.new result }
    ensures read_flag { OnOk result (R.has_failed reader.old ≡ false → R.has_failed reader.new ≡ false) }
    ensures same_flag { OnOk result (device_failed writer.new ≡ device_failed writer.old) }
{
    let mut piece = [0u8; PIECE];
    for _pulls in 0..u64::MAX {
        if typing.session().has_quit() {
            return Ok(());
        }
        push_prompt(writer, is_terminal, typing.is_in_block())?;
        let Ok(count) = reader.pull(&mut piece) else {
            return Err(RunError::ReadFault);
        };
        if count == 0 {
            return Ok(());
        }
        answer_piece(typing, images, writer, errors, &piece[..count])?;
        hand_on(writer)?;
        reader.save_here(typing.session(), images)?;
    }
    Err(RunError::ScriptTooLong)
}

/// Hands on what a writer holds back.
///
/// # Errors
///
/// `WriteFault`.
pub fn hand_on<W: Write>(writer: &mut Device<W>) -> Result<(), RunError>
    ensures kept { Keeps (W.contents (device_inner writer.old)) (W.contents (device_inner writer.new)) }
    ensures errors { IfErr result (λ error. error ≡ RunError.WriteFault) }
    ensures flag { OnErr result (device_failed writer.new ≡ true) }
    ensures same_flag { OnOk result (device_failed writer.new ≡ device_failed writer.old) }
{
    match writer.flush() {
        Ok(()) => Ok(()),
        Err(_) => Err(RunError::WriteFault),
    }
}

// Reports blocks that turn out to lack their END, and answers what is whole then.
fn answer_piece<W: Sink, E: Sink>(
    typing: &mut DebugTyping,
    images: &mut Images,
    sink: &mut W,
    errors: &mut E,
    piece: &[u8],
) -> Result<(), RunError>
    ensures taken { OnOk result (TakesPiece typing.old typing.new images.old images.new
        (W.contents sink.old) (W.contents sink.new) piece.now) }
    ensures setting { typing.new.session.setting ≡ typing.old.session.setting }
    ensures front { IfErr result (λ error. (error ≡ RunError.WriteFault)
        ⊎ TakesPieceInPart typing.old images.old (W.contents sink.old) (W.contents sink.new) piece.now) }
    ensures errors { IfErr result IsDebugTypingError }
    ensures write_fault { ReportsWriteFault W.has_failed sink.old sink.new result }
    ensures same_flag { OnOk result (W.has_failed sink.new ≡ W.has_failed sink.old) }
{
    let read = typing.read(piece)?;
    let form = typing.session().setting.form;
    print_missing_ends(sink, errors, form, read.missing_ends.as_slice())?;
    typing.answer(images, sink, &read)
}

fn print_missing_at_end<W: Sink, E: Sink>(
    typing: &DebugTyping,
    sink: &mut W,
    errors: &mut E,
) -> Result<(), RunError>
    ensures plain { OnOk result (typing.now.session.setting.form ≡ Answers
        → W.contents sink.new ≡ W.contents sink.old) }
    ensures memory { result ≡ Err RunError.Memory → sink.new ≡ sink.old }
    ensures errors { IfErr result IsLineError }
    ensures write_fault { ReportsWriteFault W.has_failed sink.old sink.new result }
    ensures same_flag { OnOk result (W.has_failed sink.new ≡ W.has_failed sink.old) }
{
    if typing.session().has_quit() {
        return Ok(());
    }
    let begins = typing.missing_ends_at_end()?;
    let form = typing.session().setting.form;
    match print_missing_ends(sink, errors, form, begins.as_slice()) {
        Ok(()) => Ok(()),
        Err(WriteFault) => Err(RunError::WriteFault),
    }
}

// Standard error may be closed: what it is told is no answer.
fn print_missing_ends<W: Sink, E: Sink>(
    sink: &mut W,
    errors: &mut E,
    form: ReportForm,
    begins: &[usize],
) -> Result<(), WriteFault>
    ensures plain { OnOk result (form ≡ Answers → W.contents sink.new ≡ W.contents sink.old) }
    ensures flag { OnErr result (W.has_failed sink.new ≡ true) }
    ensures same_flag { OnOk result (W.has_failed sink.new ≡ W.has_failed sink.old) }
{
    match form {
        ReportForm::Answers => {
            let _ = push_missing_ends(errors, b"rosm_debug: ", begins);
            Ok(())
        }
        ReportForm::Tap => push_missing_ends(sink, b"# ", begins),
    }
}

fn push_missing_ends<W: Sink>(sink: &mut W, front: &[u8], lines: &[usize]) -> Result<(), WriteFault>
    ensures flag { OnErr result (W.has_failed sink.new ≡ true) }
    ensures same_flag { OnOk result (W.has_failed sink.new ≡ W.has_failed sink.old) }
{
    for line in lines {
        push_missing_end(sink, front, *line)?;
    }
    Ok(())
}

// At a terminal `> ` before a line, `| ` within a block; what the writer holds back is handed on.
fn push_prompt<W: Write>(
    writer: &mut Device<W>,
    is_terminal: bool,
    is_in_block: bool,
) -> Result<(), RunError>
    ensures plain { is_terminal ≡ false → Keeps (W.contents (device_inner writer.old))
        (W.contents (device_inner writer.new)) }
    ensures errors { IfErr result (λ error. error ≡ RunError.WriteFault) }
    ensures flag { OnErr result (device_failed writer.new ≡ true) }
    ensures same_flag { OnOk result (device_failed writer.new ≡ device_failed writer.old) }
{
    if is_terminal {
        push_all(writer, if is_in_block { b"| " } else { b"> " })?;
    }
    hand_on(writer)
}
