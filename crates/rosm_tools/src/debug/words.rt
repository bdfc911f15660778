//! The words behind the subcommand's own: those that it alone takes, and those that `rosm` takes too.

ghost use Rattle.std.specs.Prelude.{◌≡◌};
ghost use Rattle.rosm_tools.specs.debug.Options.{form_of_all, may_go_on};

use crate::debug::options::{PartedDebugWords, WantedForm, part_words};
use crate::debug::refusal::DebugRefusal;
use debug_records::ReportForm;
use rosm_settings::command_line::{Settings, SettingsError, line_reason, settings, sizes_reason};
use rosm_settings::words::{from_subcommand, texts_of};
use std::alloc::{AllocError, Global};
use std::env;
use std::env::Env;
use std::io::ErrorKind;

// What is wrong with more forms than one.
const FORM_REASON: &str = "--tap, --transcript or --json once at most";

// What is wrong with -i where there is no script, or where all of it is written at once.
const GOING_ON_REASON: &str = "-i goes with a script, and not with --transcript or --json";

/// What the words ask for.
#[derive(Drop)]
pub struct WantedSession {
    /// What is written.
    pub form: WantedForm,
    /// The file of the script, if it isn't standard input.
    pub script: Option<String>,
    /// Whether standard input is answered behind the script's file.
    pub goes_on: bool,
    /// The machine, what each line may take, and the files.
    pub settings: Settings,
}

/// What the words of this process ask for, from that of the subcommand on.
///
/// # Errors
///
/// `NotText`, `Line`, `Sizes` and `Memory`, as for the program `rosm`; a second form or script, a
/// script without a path, or `-i` where nothing can go on, is `Line` too.
pub fn read_words<R: Env + AllocGlobal>(rt: &R) -> Result<WantedSession, DebugRefusal<'static>> {
    let alloc = rt.alloc();
    let args = match env::args(rt) {
        Ok(args) => args,
        Err(error) => return Err(words_refusal(error.kind())),
    };
    let words: Vec<String> = args.collect(alloc)?;
    wanted_of(alloc, from_subcommand(words.as_slice()))
}

fn words_refusal(kind: ErrorKind) -> DebugRefusal<'static> {
    match kind {
        ErrorKind::OutOfMemory => DebugRefusal::Memory,
        _ => DebugRefusal::NotText,
    }
}

fn refused_line(alloc: Global, reason: &str) -> DebugRefusal<'static> {
    match String::from_str(alloc, reason) {
        Ok(reason) => DebugRefusal::Line(reason),
        Err(_) => DebugRefusal::Memory,
    }
}

fn wanted_of(alloc: Global, words: &[String]) -> Result<WantedSession, DebugRefusal<'static>> {
    let texts = texts_of(alloc, words)?;
    let parted = part_words(alloc, texts.as_slice())?;
    wanted_by(alloc, &parted)
}

// What the words ask for, by what they are.
fn wanted_by(
    alloc: Global,
    parted: &PartedDebugWords<'_>,
) -> Result<WantedSession, DebugRefusal<'static>> {
    let Some(form) = form_of(parted.forms.as_slice()) else {
        return Err(refused_line(alloc, FORM_REASON));
    };
    let script = script_of(alloc, parted)?;
    if parted.goes_on && !may_go_on(form, script.is_some()) {
        return Err(refused_line(alloc, GOING_ON_REASON));
    }
    let settings = settings_of(alloc, parted.others.as_slice())?;
    Ok(WantedSession {
        form,
        script,
        goes_on: parted.goes_on,
        settings,
    })
}

// The path of the script, if there is one.
fn script_of(
    alloc: Global,
    parted: &PartedDebugWords<'_>,
) -> Result<Option<String>, DebugRefusal<'static>> {
    if parted.lacks_path {
        return Err(refused_line(alloc, "--script takes the path of a file"));
    }
    match parted.paths.as_slice() {
        [] => Ok(None),
        [path] => Ok(Some(String::from_str(alloc, path)?)),
        _ => Err(refused_line(alloc, "one script at most")),
    }
}

// What is written; `None` where more than one form is asked for.
fn form_of(forms: &[WantedForm]) -> Option<WantedForm>
    ensures { result ≡ form_of_all forms.now }
{
    match forms {
        [] => Some(WantedForm::Lines(ReportForm::Answers)),
        [form] => Some(*form),
        _ => None,
    }
}

// Whether standard input may be answered behind a script: there is one, and answers are written line by
// line.
fn may_go_on(form: WantedForm, has_script: bool) -> bool
    ensures { result ≡ may_go_on form has_script }
{
    match form {
        WantedForm::Lines(_) => has_script,
        WantedForm::Transcript | WantedForm::Records => false,
    }
}

fn settings_of(alloc: Global, words: &[&str]) -> Result<Settings, DebugRefusal<'static>> {
    match settings(alloc, words) {
        Ok(settings) => Ok(settings),
        Err(SettingsError::Memory) => Err(DebugRefusal::Memory),
        Err(SettingsError::Line) => Err(DebugRefusal::Line(line_reason(alloc, words)?)),
        Err(SettingsError::Sizes) => Err(DebugRefusal::Sizes(sizes_reason(alloc, words)?)),
    }
}
