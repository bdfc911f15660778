//! GDB over two streams: each piece that is read is answered before the next one is read, and the files
//! are read anew for each `run`.

ghost use Rattle.std.specs.Prelude.{◌≡◌, false, true, Err, IfErr, OnErr, OnOk};
ghost use Rattle.debug_records.specs.Error.{IsLineError};
ghost use Rattle.profile.specs.Devices.{device_failed, device_inner};
ghost use Rattle.gdb_server.specs.Server.{server_state};
ghost use Rattle.rosm_tools.specs.gdb.Streams.{AnswersBytes, AnswersBytesFront, AnswersFront, AnswersInput, EndsWithInput};

use crate::gdb::renewed::renew;
use gdb_server::{GdbServer, RunError};
use profile::images::Images;
use profile::{Device, Sink, Source};
use rosm_settings::gdb::serve_error::ServeError;
use rosm_settings::gdb::words::WantedGdb;
use std::fs;
use std::io::Write;

// The most bytes that are read at once.
const PIECE: usize = 4096;

/// Answers what a reader gives, as it comes, up to its end or the end of the session, and reads the files
/// anew for each `run`. What the writer holds back is handed on before more is read.
///
/// # Errors
///
/// `ReadFault`, when all that was read is answered; `WriteFault` and `Memory`, when a front of the
/// answers to that stands written; `TooMuch` after 2^64 - 1 pieces.
pub fn serve<F, R, W>(
    files: &F,
    wanted: &WantedGdb,
    server: &mut GdbServer,
    images: &mut Images,
    reader: &mut R,
    writer: &mut Device<W>,
) -> Result<(), ServeError>
where
    F: AllocGlobal + Eprint + fs::Files,
    R: Source,
    W: Write,
    ensures read { OnOk result (EndsWithInput F.File.Read.remaining wanted.now
        (R.remaining reader.old) (R.remaining reader.new)
        (W.contents (device_inner writer.old)) (W.contents (device_inner writer.new))
        (server_state server.old images.old) (server_state server.new images.new)) }
    ensures read_fault { result ≡ Err ServeError.ReadFault → (R.has_failed reader.new ≡ true)
        × AnswersInput F.File.Read.remaining wanted.now
        (R.remaining reader.old) (R.remaining reader.new)
        (W.contents (device_inner writer.old)) (W.contents (device_inner writer.new))
        (server_state server.old images.old) (server_state server.new images.new) }
    ensures front { OnErr result (AnswersFront F.File.Read.remaining wanted.now
        (R.remaining reader.old) (R.remaining reader.new)
        (W.contents (device_inner writer.old)) (W.contents (device_inner writer.new))
        (server_state server.old images.old)) }
    ensures read_shown { R.has_failed reader.old ≡ false → R.has_failed reader.new ≡ true
        → result ≡ Err ServeError.ReadFault }
    ensures same_flag { OnOk result (device_failed writer.new ≡ device_failed writer.old) }
{
    let mut piece = [0u8; PIECE];
    for _pulls in 0..u64::MAX {
        if server.session().has_ended() {
            return Ok(());
        }
        let count = reader.pull(&mut piece)?;
        if count == 0 {
            return Ok(());
        }
        take_piece(files, wanted, server, images, writer, &piece[..count])?;
        writer.flush()?;
    }
    Err(ServeError::TooMuch)
}

// Answers a piece, and reads the files anew for each `run`.
fn take_piece<F, W>(
    files: &F,
    wanted: &WantedGdb,
    server: &mut GdbServer,
    images: &mut Images,
    sink: &mut W,
    piece: &[u8],
) -> Result<(), RunError>
where
    F: AllocGlobal + Eprint + fs::Files,
    W: Sink,
    ensures reported { OnOk result (AnswersBytes F.File.Read.remaining wanted.now piece.now
        (W.contents sink.old) (W.contents sink.new)
        (server_state server.old images.old) (server_state server.new images.new)) }
    ensures front { OnErr result (AnswersBytesFront F.File.Read.remaining wanted.now piece.now
        (W.contents sink.old) (W.contents sink.new) (server_state server.old images.old)) }
    ensures errors { IfErr result IsLineError }
    ensures same_flag { OnOk result (W.has_failed sink.new ≡ W.has_failed sink.old) }
{
    for byte in piece {
        renew(files, wanted, server, images);
        server.take(images, sink, &[*byte])?;
    }
    Ok(())
}
