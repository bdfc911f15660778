//! The subcommand's process: its standard streams and its exit status.

ghost use Rattle.std.specs.Prelude.{◌≡◌, false, IfErr, IfOk, OnOk};
ghost use Rattle.std.specs.Io.KnownBytes.{Appends};
ghost use Rattle.std.specs.Process.{exit_status};
ghost use Rattle.profile.specs.Devices.{device_failed, device_inner};
ghost use Rattle.rosm_settings.specs.gdb.Endings.{gdb_refusal_status, gdb_status_of};
ghost use Rattle.gdb_server.specs.Server.{server_state};
ghost use Rattle.rosm_tools.specs.gdb.Serving.{ServesGdb, ServesStream, StopsWithGdb, server_begun, start_shown};

use crate::gdb::renewed::{ReadFiles, read_files};
use crate::gdb::serve::serve;
use gdb_server::GdbServer;
use gdb_server::session::{GdbSession, GdbSettings};
use profile::images::Images;
use profile::stop::stop_status;
use profile::{Device, Sink, Source, Stop, push_all};
use rosm_settings::gdb::refusal::GdbRefusal;
use rosm_settings::gdb::serve_error::ServeError;
use rosm_settings::gdb::words::{WantedGdb, read_words};
use std::alloc::Global;
use std::env::Env;
use std::io::{BufWriter, Write};
use std::process::ExitCode;
use std::{fs, io};

/// Serves GDB, as the words of this process ask, over the standard streams, and gives the exit status.
/// What the lines that a machine begins with are answered goes to standard error, `errors`, which GDB
/// shows.
pub fn run<R, E>(rt: &R, errors: &mut E) -> ExitCode
where
    R: AllocGlobal + Env + fs::Files + Input + Print + Eprint,
    E: Sink,
{
    match read_words(rt) {
        Ok(wanted) => exit_code(rt, serve_on_standard_streams(rt, &wanted, errors)),
        Err(refusal) => exit_code(rt, Err(refusal)),
    }
}

/// Serves what standard input gives, writes the answers to standard output, and gives the last stop.
///
/// # Errors
///
/// As [`serve_to_stream`].
fn serve_on_standard_streams<'a, R, E>(
    rt: &R,
    wanted: &'a WantedGdb,
    errors: &mut E,
) -> Result<Option<Stop>, GdbRefusal<'a>>
where
    R: AllocGlobal + Eprint + fs::Files + Input + Print,
    E: Sink,
    ensures stop { IfOk result
        (StopsWithGdb R.File.Read.remaining R.Reader.Read.remaining wanted.entry.now) }
    ensures refused { IfErr result (λ e. gdb_refusal_status e ≡ 4) }
{
    let mut input = Device::new(rt.reader());
    let (last, _) = serve_to_stream(rt, wanted, &mut input, io::writer(rt), errors)?;
    Ok(last)
}

/// Takes in the files, answers the lines that a machine begins with, serves what the reader gives, up to
/// its end or the end of the session, with the files read anew for each `run`, writes the answers to a
/// stream, and gives the last stop and the stream, in which all of them stand.
///
/// # Errors
///
/// The first file that gives no image, or the script's file that can't be read, before anything is
/// served; else as [`serve`].
fn serve_to_stream<'a, F, R, W, E>(
    files: &F,
    wanted: &'a WantedGdb,
    reader: &mut R,
    stream: W,
    errors: &mut E,
) -> Result<(Option<Stop>, Device<W>), GdbRefusal<'a>>
where
    F: AllocGlobal + Eprint + fs::Files,
    R: Source,
    W: Write + Drop,
    E: Sink,
    ensures serves { IfOk result (λ ended. ServesGdb F.File.Read.remaining wanted.entry.now
        (R.remaining reader.old) (W.contents stream) (W.contents (device_inner ended.1))
        (E.contents errors.old) (E.contents errors.new) (E.has_failed errors.new) ended.0) }
    ensures well { IfOk result (λ ended. device_failed ended.1 ≡ false) }
    ensures refused { IfErr result (λ e. gdb_refusal_status e ≡ 4) }
{
    let mut read = read_files(files, wanted)?;
    let mut server = begun(files.alloc(), wanted, &mut read, errors)?;
    serve_buffered(files, wanted, &mut server, &mut read.images, reader, stream)
}

// A server on a machine whose first lines are answered; the answers are shown as far as they can be.
fn begun<'a, E: Sink>(
    alloc: Global,
    wanted: &'a WantedGdb,
    read: &mut ReadFiles,
    errors: &mut E,
) -> Result<GdbServer, GdbRefusal<'a>>
    ensures state { IfOk result (λ server. server_state server read.new.images
        ≡ server_begun wanted.entry.now read.old.start.items read.old.images) }
    ensures told { OnOk result (E.has_failed errors.new ≡ false
        → Appends (E.contents errors.old) (E.contents errors.new)
        (start_shown wanted.entry.now read.old.start.items read.old.images).text) }
    ensures refused { IfErr result (λ e. gdb_refusal_status e ≡ 4) }
{
    let setting = GdbSettings {
        config: wanted.settings.config,
        budget: wanted.settings.budget,
        most: wanted.most,
        stays: wanted.stays,
    };
    let mut session = GdbSession::new(alloc, setting, read.start.as_slice())?;
    let reported = session.begin(&mut read.images)?;
    print(errors, reported.as_slice());
    Ok(GdbServer::new(alloc, session))
}

// Serves what the reader gives, and gives the last stop and the stream, in which all answers stand.
fn serve_buffered<'a, F, R, W>(
    files: &F,
    wanted: &'a WantedGdb,
    server: &mut GdbServer,
    images: &mut Images,
    reader: &mut R,
    stream: W,
) -> Result<(Option<Stop>, Device<W>), GdbRefusal<'a>>
where
    F: AllocGlobal + Eprint + fs::Files,
    R: Source,
    W: Write + Drop,
    ensures serves { IfOk result (λ ended. ServesStream F.File.Read.remaining wanted.entry.now
        (R.remaining reader.old) (R.remaining reader.new)
        (W.contents stream) (W.contents (device_inner ended.1))
        (server_state server.old images.old) (server_state server.new images.new) ended.0) }
    ensures well { IfOk result (λ ended. device_failed ended.1 ≡ false) }
    ensures refused { IfErr result (λ e. gdb_refusal_status e ≡ 4) }
{
    let Ok(buffered) = BufWriter::new(files.alloc(), stream) else {
        return Err(GdbRefusal::Memory);
    };
    let mut writer = Device::new(buffered);
    serve(files, wanted, server, images, reader, &mut writer)?;
    match writer.unbuffered() {
        Ok(stream) => Ok((server.session().last(), stream)),
        Err(_) => Err(GdbRefusal::Served(ServeError::WriteFault)),
    }
}

// What can't be shown is left out.
fn print<E: Sink>(errors: &mut E, text: &[u8])
    ensures { E.has_failed errors.new ≡ false
        → Appends (E.contents errors.old) (E.contents errors.new) text.now }
{
    let _ = push_all(errors, text);
}

/// The exit status, with one line on standard error where the subcommand is refused.
fn exit_code<R: Eprint>(rt: &R, ending: Result<Option<Stop>, GdbRefusal<'_>>) -> ExitCode
    ensures { exit_status result ≡ gdb_status_of ending.entry }
{
    match ending {
        Ok(last) => ExitCode::from(stop_status(last)),
        Err(refusal) => {
            let _ = eprintln!(rt; "rosm_gdb: {refusal}");
            ExitCode::from(refusal.status())
        }
    }
}
