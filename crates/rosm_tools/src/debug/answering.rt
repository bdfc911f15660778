//! What readers give, answered on standard output in the form that is wanted.

ghost use Rattle.std.specs.Prelude.{◌≡◌, IfOk, OnOk};
ghost use Rattle.profile.specs.text_sink.Safe.{AddsSafe};
ghost use Rattle.debug_program.specs.GoingOn.{IsStatusOfBothScripts};
ghost use Rattle.debug_program.specs.Talking.{IsStatusOfScript};

use crate::debug::options::WantedForm;
use crate::debug::refusal::DebugRefusal;
use crate::debug::words::WantedSession;
use debug_program::talk::{hand_on, talk};
use debug_program::{DebugTyping, SavingSource, ShownAnswers, show_transcript, talk_behind_script};
use debug_records::{DebugSettings, ReportForm, RunError, RunMeter, read_script, record_script};
use profile::images::Images;
use profile::text_lines::cut;
use profile::{Device, Sink, Source};
use rosm_settings::SettingsRefusal;
use rosm_settings::image_files::add_files;
use std::alloc::Global;
use std::io::{BufWriter, Write};
use std::mem::replace;
use std::{fs, io};

/// Answers what a reader gives on a fresh machine, in the form that is wanted, on standard output.
pub fn answer_in_form<'a, R, S, E>(
    rt: &R,
    wanted: &'a WantedSession,
    images: &mut Images,
    reader: &mut S,
    errors: &mut E,
    is_terminal: bool,
    meter: RunMeter,
) -> Result<u8, DebugRefusal<'a>>
where
    R: AllocGlobal + fs::Files + Print,
    S: SavingSource,
    E: Sink,
{
    let Ok(buffered) = BufWriter::new(rt.alloc(), io::writer(rt)) else {
        return Err(DebugRefusal::Memory);
    };
    let shows_answers = is_terminal && wanted.form == WantedForm::Lines(ReportForm::Answers);
    let mut writer = Device::new(ShownAnswers::new(buffered, shows_answers));
    write_in_form(
        rt,
        wanted,
        images,
        reader,
        &mut writer,
        errors,
        is_terminal,
        meter,
    )
}

// The same, on a writer.
fn write_in_form<'a, R, S, W, E>(
    rt: &R,
    wanted: &'a WantedSession,
    images: &mut Images,
    reader: &mut S,
    writer: &mut Device<W>,
    errors: &mut E,
    is_terminal: bool,
    meter: RunMeter,
) -> Result<u8, DebugRefusal<'a>>
where
    R: AllocGlobal + fs::Files,
    S: SavingSource,
    W: Write,
    E: Sink,
{
    let alloc = rt.alloc();
    let setting = setting_of(wanted, lines_form(wanted.form), meter);
    match wanted.form {
        WantedForm::Lines(_) => {
            answer_lines(alloc, setting, images, reader, writer, errors, is_terminal)
        }
        WantedForm::Transcript => write_transcript(alloc, setting, images, reader, writer),
        WantedForm::Records => {
            let mut twin_images = images_of(rt, wanted)?;
            let name = name_of(wanted);
            write_records(
                alloc,
                setting,
                images,
                &mut twin_images,
                name,
                reader,
                writer,
            )
        }
    }
}

/// The form in which each line is answered.
pub fn lines_form(form: WantedForm) -> ReportForm {
    match form {
        WantedForm::Lines(form) => form,
        WantedForm::Transcript | WantedForm::Records => ReportForm::Answers,
    }
}

// Writes the transcript of what a reader gives.
fn write_transcript<'a, S: Source, W: Write>(
    alloc: Global,
    setting: DebugSettings,
    images: &mut Images,
    reader: &mut S,
    writer: &mut Device<W>,
) -> Result<u8, DebugRefusal<'a>> {
    let images = replace(images, Images::new());
    let ending = show_transcript(alloc, images, setting, reader, writer);
    handed_on(ending, writer)
}

// Writes the records of what a reader gives.
fn write_records<'a, S: Source, W: Write>(
    alloc: Global,
    setting: DebugSettings,
    images: &mut Images,
    twin_images: &mut Images,
    name: &[u8],
    reader: &mut S,
    writer: &mut Device<W>,
) -> Result<u8, DebugRefusal<'a>> {
    let images = replace(images, Images::new());
    let twin_images = replace(twin_images, Images::new());
    let ending = record(alloc, setting, images, twin_images, name, reader, writer);
    handed_on(ending, writer)
}

// Hands on what a writer holds back, behind what ended so.
fn handed_on<'a, W: Write>(
    ending: Result<u8, RunError>,
    writer: &mut Device<W>,
) -> Result<u8, DebugRefusal<'a>> {
    let status = ending?;
    hand_on(writer)?;
    Ok(status)
}

/// Answers the lines of two scripts, one behind the other, on standard output.
pub fn write_both<'a, R, F, S, E>(
    rt: &R,
    setting: DebugSettings,
    images: &mut Images,
    script: &mut F,
    reader: &mut S,
    errors: &mut E,
    is_terminal: bool,
) -> Result<u8, DebugRefusal<'a>>
where
    R: AllocGlobal + Print,
    F: SavingSource,
    S: SavingSource,
    E: Sink,
{
    let Ok(buffered) = BufWriter::new(rt.alloc(), io::writer(rt)) else {
        return Err(DebugRefusal::Memory);
    };
    let shows_answers = is_terminal && setting.form == ReportForm::Answers;
    let mut writer = Device::new(ShownAnswers::new(buffered, shows_answers));
    answer_both(
        rt.alloc(),
        setting,
        images,
        script,
        reader,
        &mut writer,
        errors,
        is_terminal,
    )
}

// Answers the lines of a script and those that are typed behind it, on a fresh machine.
fn answer_both<'a, F, S, W, E>(
    alloc: Global,
    setting: DebugSettings,
    images: &mut Images,
    script: &mut F,
    reader: &mut S,
    writer: &mut Device<W>,
    errors: &mut E,
    is_terminal: bool,
) -> Result<u8, DebugRefusal<'a>>
where
    F: SavingSource,
    S: SavingSource,
    W: Write,
    E: Sink,
    ensures { IfOk result (IsStatusOfBothScripts setting images.old (F.remaining script.old)
        (S.remaining reader.old)) }
{
    let typing = DebugTyping::new(alloc, setting)?;
    Ok(talk_behind_script(typing, images, script, reader, writer, errors, is_terminal)?)
}

// Reads a script whole, writes its records, and gives the exit status of its lines.
fn record<S: Source, W: Sink>(
    alloc: Global,
    setting: DebugSettings,
    images: Images,
    twin_images: Images,
    name: &[u8],
    reader: &mut S,
    sink: &mut W,
) -> Result<u8, RunError>
    ensures { OnOk result (AddsSafe (W.contents sink.old) (W.contents sink.new)) }
{
    let script = read_script(alloc, reader)?;
    record_script(
        alloc,
        setting,
        images,
        twin_images,
        name,
        script.as_slice(),
        sink,
    )
}

// The name of the script's file, without the folders that it is in; none of standard input.
fn name_of(wanted: &WantedSession) -> &[u8] {
    let Some(path) = &wanted.script else {
        return b"";
    };
    let mut name = path.as_str().as_bytes();
    for _folders in 0..usize::MAX {
        match cut(name, b'/') {
            (_folder, Some(rest)) => name = rest,
            (_name, None) => return name,
        }
    }
    name
}

// Answers the lines that a reader gives, on a fresh machine.
fn answer_lines<'a, S, W, E>(
    alloc: Global,
    setting: DebugSettings,
    images: &mut Images,
    reader: &mut S,
    writer: &mut Device<W>,
    errors: &mut E,
    is_terminal: bool,
) -> Result<u8, DebugRefusal<'a>>
where
    S: SavingSource,
    W: Write,
    E: Sink,
    ensures { IfOk result (IsStatusOfScript setting images.old (S.remaining reader.old)) }
{
    let typing = DebugTyping::new(alloc, setting)?;
    Ok(talk(typing, images, reader, writer, errors, is_terminal)?)
}

/// What a session is made with.
pub fn setting_of(wanted: &WantedSession, form: ReportForm, meter: RunMeter) -> DebugSettings
    ensures config { result.config ≡ wanted.now.settings.config }
    ensures budget { result.budget ≡ wanted.now.settings.budget }
    ensures form { result.form ≡ form }
{
    DebugSettings {
        config: wanted.settings.config,
        budget: wanted.settings.budget,
        form,
        meter,
        keeps_past: true,
    }
}

/// The images of the files.
pub fn images_of<'a, R>(rt: &R, wanted: &'a WantedSession) -> Result<Images, DebugRefusal<'a>>
where
    R: AllocGlobal + fs::Files,
{
    let mut images = Images::new();
    match take_files(rt, wanted, &mut images) {
        Ok(()) => Ok(images),
        Err(refusal) => Err(refusal),
    }
}

fn take_files<'a, R>(
    rt: &R,
    wanted: &'a WantedSession,
    images: &mut Images,
) -> Result<(), DebugRefusal<'a>>
where
    R: AllocGlobal + fs::Files,
{
    match add_files(rt, &wanted.settings.files, images) {
        Ok(()) => Ok(()),
        Err(refusal) => Err(file_refusal(&refusal)),
    }
}

// Files are refused for what is wrong with one of them, or for want of memory.
fn file_refusal<'a>(refusal: &SettingsRefusal<'a>) -> DebugRefusal<'a> {
    match refusal {
        SettingsRefusal::File(path, error) => DebugRefusal::File(path, *error),
        _ => DebugRefusal::Memory,
    }
}
