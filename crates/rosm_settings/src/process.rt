//! The program's process: its words, its standard streams and its exit status.
ghost use Rattle.std.specs.Prelude.{◌≡◌, ◌++◌, true, Err, IfErr, IfOk, Ok, OnErr, OnOk, codes, map, string_bytes};
ghost use Rattle.std.specs.Process.{exit_status};
ghost use Rattle.profile.specs.Output.{Writes};
ghost use Rattle.rosm_settings.specs.command_line.Settings.{settings_for};
ghost use Rattle.command_shell.specs.declared.error.RunError.TheVariants.{ScriptTooLong};
ghost use Rattle.rosm_settings.specs.Answering.{StopsWithScript, ShowsOfFile, ShowsTooMuch};
ghost use Rattle.rosm_settings.specs.Endings.{IsSettingsRefusalOf, ShowsEnding, ShowsLine, refusal_status, status_of, words_refused};
ghost use Rattle.rosm_settings.specs.Texts.{refusal_text};

use crate::answering::run_to_stream;
use crate::command_line::{Settings, SettingsError, line_reason, settings, sizes_reason};
use crate::refusal::SettingsRefusal;
use crate::watched::Watched;
use crate::words::texts_of;
use profile::stop::stop_status;
use profile::{Device, Sink, Stop, WriteFault, push_parts};
use std::alloc::Global;
use std::env::Env;
use std::io::ErrorKind;
use std::process::ExitCode;
use std::{env, fs, io};

// What is said where the script is empty.
const EMPTY_SCRIPT: &str =
    "the script is standard input, which was empty; each FILE is an image for it";

/// What the words of this process ask for.
///
/// # Errors
///
/// `NotText` where a word is no text in UTF-8, `Line` where the words are no command line, `Sizes`
/// where no machine can have the sizes that they name, and `Memory` where memory ran out.
pub fn read_settings<R: Env + AllocGlobal>(rt: &R) -> Result<Settings, SettingsRefusal<'static>> {
    let alloc = rt.alloc();
    let args = match env::args(rt) {
        Ok(args) => args,
        Err(error) => return Err(words_refusal(error.kind())),
    };
    let words: Vec<String> = args.collect(alloc)?;
    settings_of(alloc, words.as_slice())
}

fn words_refusal(kind: ErrorKind) -> SettingsRefusal<'static>
    ensures { result ≡ words_refused kind }
{
    match kind {
        ErrorKind::OutOfMemory => SettingsRefusal::Memory,
        _ => SettingsRefusal::NotText,
    }
}

// What these words ask for, or what is wrong with them.
fn settings_of(alloc: Global, words: &[String]) -> Result<Settings, SettingsRefusal<'static>>
    ensures ok { IfOk result (λ s. settings_for (map string_bytes words.now) ≡ Ok s) }
    ensures refused { IfErr result (IsSettingsRefusalOf (settings_for (map string_bytes words.now))) }
{
    let texts = texts_of(alloc, words)?;
    match settings(alloc, texts.as_slice()) {
        Ok(settings) => Ok(settings),
        Err(SettingsError::Memory) => Err(SettingsRefusal::Memory),
        Err(SettingsError::Line) => Err(SettingsRefusal::Line(line_reason(
            alloc,
            texts.as_slice(),
        )?)),
        Err(SettingsError::Sizes) => Err(SettingsRefusal::Sizes(sizes_reason(
            alloc,
            texts.as_slice(),
        )?)),
    }
}

/// Runs the script of the standard input, and writes its answers to the standard output in large
/// pieces. Where that is empty and files are named, one of which may have been meant for the script,
/// one line on standard error, `errors`, says what they are.
///
/// # Errors
///
/// As [`run_to_stream`].
pub fn run_on_standard_streams<'a, R, W>(
    rt: &R,
    settings: &'a Settings,
    errors: &mut W,
) -> Result<Option<Stop>, SettingsRefusal<'a>>
where
    R: AllocGlobal + fs::Files + Input + Print,
    W: Sink,
    ensures stop { IfOk result
        (StopsWithScript R.File.Read.remaining R.Reader.Read.remaining settings.entry.now) }
    ensures refused { IfErr result (λ e. refusal_status e ≡ 4) }
    ensures files { IfErr result (ShowsOfFile R.File.Read.remaining settings.entry.now.files) }
    ensures too_long { result ≡ Err (SettingsRefusal.Script ScriptTooLong) → ShowsTooMuch
        R.Reader.Read.remaining }
    ensures silent { OnErr result (errors.new ≡ errors.old) }
{
    let mut input = Watched::new(Device::new(rt.reader()));
    let (last, _) = run_to_stream(rt, settings, &mut input, io::writer(rt))?;
    if !input.has_given() && settings.files.len() > 0 {
        // A line that can't be written leaves nothing to show it by.
        let _ = print_line(errors, EMPTY_SCRIPT.as_bytes());
    }
    Ok(last)
}

/// The exit status, with one line on standard error, `errors`, where the program is refused.
pub fn exit_code<W: Sink>(
    alloc: Global,
    errors: &mut W,
    ending: Result<Option<Stop>, SettingsRefusal<'_>>,
) -> ExitCode
    ensures status { exit_status result ≡ status_of ending.entry }
    ensures line { ShowsEnding W.contents W.has_failed errors.old errors.new ending.entry }
{
    match ending {
        Ok(last) => ExitCode::from(stop_status(last)),
        Err(refusal) => {
            // A line that can't be written leaves nothing to show it by.
            let _ = print_refusal(alloc, errors, &refusal);
            ExitCode::from(refusal.status())
        }
    }
}

// The line of a refusal; without memory for its text, that of want of memory.
fn print_refusal<W: Sink>(
    alloc: Global,
    errors: &mut W,
    refusal: &SettingsRefusal<'_>,
) -> Result<(), WriteFault>
    ensures line { OnOk result
        (ShowsLine (refusal_text refusal.now) (W.contents errors.old) (W.contents errors.new)) }
    ensures flag { OnErr result (W.has_failed errors.new ≡ true) }
{
    match format!(in alloc; "{refusal}") {
        Ok(text) => print_line(errors, text.as_bytes()),
        Err(_) => print_line(errors, "out of memory".as_bytes()),
    }
}

fn print_line<W: Sink>(errors: &mut W, text: &[u8]) -> Result<(), WriteFault>
    ensures { Writes W.contents W.has_failed errors.old errors.new result
        (codes "rosm: " ++ (text.now ++ codes "\n")) }
{
    push_parts(errors, &[b"rosm: ".as_slice(), text, b"\n".as_slice()])
}
