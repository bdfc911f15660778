//! The program's run between its settings and its exit status: files, script, answers.

ghost use Rattle.std.specs.Prelude.{◌≡◌, ◌<◌, false, true, length, Err, IfErr, IfOk, IfSome, IsErr, OnErr, OnOk};
ghost use Rattle.profile.specs.Devices.{device_failed, device_inner};
ghost use Rattle.rosm_settings.specs.Answering.{AnswersScript, EndsWithin, RefusesFiles, ShowsOfFile, is_of_run};
ghost use Rattle.rosm_settings.specs.Endings.{refusal_status};

use crate::command_line::Settings;
use crate::image_files::add_files;
use crate::refusal::SettingsRefusal;
use command_shell::{RunError, run_script};
use profile::images::Images;
use profile::{Device, Source, Stop};
use std::fs;
use std::io::{BufWriter, Write};

/// Takes in the settings' files, runs the script of `reader`, writes all of its answers, and gives
/// the last stop. What the writer holds back is handed on before that.
///
/// # Errors
///
/// The first file that gives no image, before anything is read or written; else as
/// [`run_script`], and `WriteFault` too where the last of the answers can't be handed on.
pub fn run<'a, F, R, W>(
    files: &F,
    settings: &'a Settings,
    reader: &mut R,
    writer: &mut Device<W>,
) -> Result<Option<Stop>, SettingsRefusal<'a>>
where
    F: AllocGlobal + fs::Files,
    R: Source,
    W: Write,
    ensures answers { IfOk result (AnswersScript F.File.Read.remaining settings.entry.now
        (R.remaining reader.old)
        (W.contents (device_inner writer.old)) (W.contents (device_inner writer.new))) }
    ensures well { OnOk result (device_failed writer.new ≡ false) }
    ensures failed { device_failed writer.old ≡ true → IsErr result }
    ensures refused { IfErr result (λ e. is_of_run e ≡ true) }
    ensures files { IfErr result
        (RefusesFiles F.File.Read.remaining settings.entry.now.files reader.old reader.new
        writer.old writer.new) }
    ensures memory { result ≡ Err (SettingsRefusal.Script RunError.Memory)
        → EndsWithin F.File.Read.remaining settings.entry.now (R.remaining reader.old)
        (W.contents (device_inner writer.old)) (W.contents (device_inner writer.new)) }
    ensures reported { R.has_failed reader.old ≡ false → R.has_failed reader.new ≡ true
        → result ≡ Err (SettingsRefusal.Script RunError.ReadFault) }
    ensures read_fault { result ≡ Err (SettingsRefusal.Script RunError.ReadFault)
        → (R.has_failed reader.new ≡ true) × (writer.new ≡ writer.old) }
    ensures too_long { result ≡ Err (SettingsRefusal.Script RunError.ScriptTooLong)
        → (writer.new ≡ writer.old) × IfSome (R.remaining reader.old) (λ script. 1048576 < length script) }
    ensures write_answer { device_failed writer.old ≡ false → device_failed writer.new ≡ true
        → result ≡ Err (SettingsRefusal.Script RunError.WriteFault) }
    ensures write_fault { result ≡ Err (SettingsRefusal.Script RunError.WriteFault) →
        device_failed writer.new ≡ true }
{
    let mut images = Images::new();
    add_files(files, &settings.files, &mut images)?;
    let alloc = files.alloc();
    let ran = run_script(
        alloc,
        reader,
        &mut images,
        writer,
        settings.config,
        settings.budget,
    );
    let last = ran?.last;
    match writer.flush() {
        Ok(()) => Ok(last),
        Err(_) => Err(SettingsRefusal::Script(RunError::WriteFault)),
    }
}

/// Runs as [`run`], writes the answers to a stream in large pieces, and gives the last stop and the
/// stream, in which all of them stand.
///
/// # Errors
///
/// As [`run`]; and `Memory` where there is none for the pieces.
pub fn run_to_stream<'a, F, R, W>(
    files: &F,
    settings: &'a Settings,
    reader: &mut R,
    stream: W,
) -> Result<(Option<Stop>, Device<W>), SettingsRefusal<'a>>
where
    F: AllocGlobal + fs::Files,
    R: Source,
    W: Write + Drop,
    ensures answers { IfOk result (λ ended. AnswersScript F.File.Read.remaining settings.entry.now
        (R.remaining reader.old) (W.contents stream) (W.contents (device_inner ended.1)) ended.0) }
    ensures well { IfOk result (λ ended. device_failed ended.1 ≡ false) }
    ensures refused { IfErr result (λ e. refusal_status e ≡ 4) }
    ensures files { IfErr result (ShowsOfFile F.File.Read.remaining settings.entry.now.files) }
    ensures read_fault { result ≡ Err (SettingsRefusal.Script RunError.ReadFault)
        → R.has_failed reader.new ≡ true }
    ensures too_long { result ≡ Err (SettingsRefusal.Script RunError.ScriptTooLong)
        → IfSome (R.remaining reader.old) (λ script. 1048576 < length script) }
{
    let Ok(buffered) = BufWriter::new(files.alloc(), stream) else {
        return Err(SettingsRefusal::Memory);
    };
    let mut writer = Device::new(buffered);
    let last = run(files, settings, reader, &mut writer)?;
    match writer.unbuffered() {
        Ok(stream) => Ok((last, stream)),
        Err(_) => Err(SettingsRefusal::Script(RunError::WriteFault)),
    }
}
