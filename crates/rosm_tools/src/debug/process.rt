//! The standard streams of the process, and its exit status.

ghost use Rattle.std.specs.Prelude.{◌≡◌};
ghost use Rattle.std.specs.Process.{exit_status};
ghost use Rattle.rosm_tools.specs.debug.Endings.{ending_status};

use crate::debug::answering::{answer_in_form, images_of, lines_form, setting_of, write_both};
use crate::debug::refusal::DebugRefusal;
use crate::debug::scripts::{HostScripts, ending_by_reader};
use crate::debug::words::{WantedSession, read_words};
use debug_program::{IncludingScript, PromptedLines, SavingSource};
use debug_records::RunMeter;
use profile::images::Images;
use profile::{Device, Sink, Source};
use rosm_settings::image_files::FileError;
use std::env::Env;
use std::fs;
use std::fs::File;
use std::process::ExitCode;

/// Answers a debugging script as the words of this process ask for it, of which the first names the
/// subcommand. `is_terminal` says whether standard input is a terminal, `errors` is standard error, and the
/// meter is told how far RUN and STEP are.
pub fn run<R, E>(rt: &R, errors: &mut E, is_terminal: bool, meter: RunMeter) -> ExitCode
where
    R: AllocGlobal + Env + fs::Files + Input + Print + Eprint,
    E: Sink,
{
    match read_words(rt) {
        Ok(wanted) => {
            let ending = debug_on_standard_streams(rt, &wanted, errors, is_terminal, meter);
            exit_code(rt, ending)
        }
        Err(refusal) => exit_code(rt, Err(refusal)),
    }
}

// Answers the lines of the script that is asked for, or of standard input, which may be a terminal, or
// both, on standard output, or writes their transcript, and gives the exit status that they end with.
// The first file that gives no image, or the script's file that can't be read, is reported before any
// line is answered.
fn debug_on_standard_streams<'a, R, E>(
    rt: &R,
    wanted: &'a WantedSession,
    errors: &mut E,
    is_terminal: bool,
    meter: RunMeter,
) -> Result<u8, DebugRefusal<'a>>
where
    R: AllocGlobal + Eprint + fs::Files + Input + Print,
    E: Sink,
{
    let mut images = images_of(rt, wanted)?;
    answer_wanted(rt, wanted, &mut images, errors, is_terminal, meter)
}

// With the files' images there.
fn answer_wanted<'a, R, E>(
    rt: &R,
    wanted: &'a WantedSession,
    images: &mut Images,
    errors: &mut E,
    is_terminal: bool,
    meter: RunMeter,
) -> Result<u8, DebugRefusal<'a>>
where
    R: AllocGlobal + Eprint + fs::Files + Input + Print,
    E: Sink,
{
    match &wanted.script {
        None => {
            let input = PromptedLines::new(Device::new(rt.reader()), is_terminal);
            answer(rt, wanted, images, "", input, errors, is_terminal, meter)
        }
        Some(path) => match File::open(rt, path.as_str()) {
            Ok(file) => {
                let file = Device::new(file);
                answer_file(
                    rt,
                    wanted,
                    images,
                    path.as_str(),
                    file,
                    errors,
                    is_terminal,
                    meter,
                )
            }
            Err(error) => Err(DebugRefusal::File(path.as_str(), FileError::from(error))),
        },
    }
}

// Answers the script of a file, and where that is asked for standard input behind it.
fn answer_file<'a, R, E>(
    rt: &R,
    wanted: &'a WantedSession,
    images: &mut Images,
    path: &str,
    file: Device<R::File>,
    errors: &mut E,
    is_terminal: bool,
    meter: RunMeter,
) -> Result<u8, DebugRefusal<'a>>
where
    R: AllocGlobal + Eprint + fs::Files + Input + Print,
    E: Sink,
{
    if wanted.goes_on {
        go_on(rt, wanted, images, path, file, errors, is_terminal, meter)
    } else {
        let meter = RunMeter::silent();
        answer(rt, wanted, images, path, file, errors, false, meter)
    }
}

// Answers the script that a reader gives, of which this is the path, with the lines of the files that it
// includes, on a fresh machine, on standard output.
fn answer<'a, R, S, E>(
    rt: &R,
    wanted: &'a WantedSession,
    images: &mut Images,
    script: &str,
    input: S,
    errors: &mut E,
    is_terminal: bool,
    meter: RunMeter,
) -> Result<u8, DebugRefusal<'a>>
where
    R: AllocGlobal + Eprint + fs::Files + Print,
    S: Source + Drop,
    E: Sink,
{
    let files = HostScripts { rt };
    let mut reader = IncludingScript::new(rt.alloc(), &files, script, input, is_terminal);
    let ending = answer_in_form(rt, wanted, images, &mut reader, errors, is_terminal, meter);
    ending_by_reader(ending, reader.take_refusal())
}

// Answers the lines of a script's file, and then those of standard input, on standard output.
fn go_on<'a, R, E>(
    rt: &R,
    wanted: &'a WantedSession,
    images: &mut Images,
    path: &str,
    file: Device<R::File>,
    errors: &mut E,
    is_terminal: bool,
    meter: RunMeter,
) -> Result<u8, DebugRefusal<'a>>
where
    R: AllocGlobal + Eprint + fs::Files + Input + Print,
    E: Sink,
{
    let files = HostScripts { rt };
    let mut script = IncludingScript::new(rt.alloc(), &files, path, file, false);
    let ending = type_on(rt, wanted, images, &mut script, errors, is_terminal, meter);
    ending_by_reader(ending, script.take_refusal())
}

// Answers the lines of a script, and then those of standard input, on standard output.
fn type_on<'a, R, F, E>(
    rt: &R,
    wanted: &'a WantedSession,
    images: &mut Images,
    script: &mut F,
    errors: &mut E,
    is_terminal: bool,
    meter: RunMeter,
) -> Result<u8, DebugRefusal<'a>>
where
    R: AllocGlobal + Eprint + fs::Files + Input + Print,
    F: SavingSource,
    E: Sink,
{
    let files = HostScripts { rt };
    let typed = PromptedLines::new(Device::new(rt.reader()), is_terminal);
    let mut input = IncludingScript::new(rt.alloc(), &files, "", typed, is_terminal);
    let setting = setting_of(wanted, lines_form(wanted.form), meter);
    let ending = write_both(rt, setting, images, script, &mut input, errors, is_terminal);
    ending_by_reader(ending, input.take_refusal())
}

// The exit status, with one line on standard error where the program is refused.
fn exit_code<R: Eprint>(rt: &R, ending: Result<u8, DebugRefusal<'_>>) -> ExitCode
    ensures { exit_status result ≡ ending_status ending.entry }
{
    match ending {
        Ok(status) => ExitCode::from(status),
        Err(refusal) => {
            let _ = eprintln!(rt; "rosm_debug: {refusal}");
            ExitCode::from(refusal.status())
        }
    }
}
