//! The words behind the subcommand's own: those that it alone takes, and those that `rosm` takes too.

ghost use Rattle.std.specs.Prelude.{◌≡◌, map, string_bytes, option_map, IfErr, IfOk, Ok, Option, None, Result};
ghost use Rattle.rosm_settings.specs.command_line.Settings.{settings_for};
ghost use Rattle.rosm_settings.specs.gdb.Options.{any_sets_budget, machine_words, most_wanted, one_start_path, sets_budget, stays_wanted, unless_path_lacks};
ghost use Rattle.rosm_settings.specs.gdb.Endings.{AsksForGdb, IsGdbRefusalOf, IsMachineRefusal, IsRefusalOfWords, gdb_words_refused};

use crate::command_line::{Settings, SettingsError, line_reason, settings, sizes_reason};
use crate::gdb::options::{GdbWord, PartedGdbWords, part_words};
use crate::gdb::refusal::GdbRefusal;
use crate::words::{from_subcommand, texts_of};
use std::alloc::{AllocError, Global};
use std::env;
use std::env::Env;
use std::io::ErrorKind;

// What is said where help is asked for.
const HELP: &str = "GDB starts it, by target remote | rosm_gdb FILE; each FILE is an image";

/// What the words ask for.
#[derive(Drop)]
pub struct WantedGdb {
    /// The file of the lines that a machine begins with, if there is one.
    pub script: Option<String>,
    /// The machine, what each line may take, and the files.
    pub settings: Settings,
    /// How many steps a run may take.
    pub most: u64,
    /// Whether a run stays before the program's end.
    pub stays: bool,
}

/// What the words of this process ask for, from that of the subcommand on.
///
/// # Errors
///
/// `NotText`, `Line`, `Sizes` and `Memory`, as for the program `rosm`; a second script, or a script
/// without a path, is `Line` too.
pub fn read_words<R: Env + AllocGlobal>(rt: &R) -> Result<WantedGdb, GdbRefusal<'static>> {
    let alloc = rt.alloc();
    let args = match env::args(rt) {
        Ok(args) => args,
        Err(error) => return Err(words_refusal(error.kind())),
    };
    let words: Vec<String> = args.collect(alloc)?;
    wanted_of(alloc, from_subcommand(words.as_slice()))
}

fn words_refusal(kind: ErrorKind) -> GdbRefusal<'static>
    ensures { result ≡ gdb_words_refused kind }
{
    match kind {
        ErrorKind::OutOfMemory => GdbRefusal::Memory,
        _ => GdbRefusal::NotText,
    }
}

// A line that can't be, for this reason, whatever else is asked for.
fn refused_line(alloc: Global, reason: &str) -> GdbRefusal<'static>
    ensures { (answer : Result Settings SettingsError) → IsRefusalOfWords None answer result }
{
    match String::from_str(alloc, reason) {
        Ok(reason) => GdbRefusal::Line(reason),
        Err(_) => GdbRefusal::Memory,
    }
}

fn wanted_of(alloc: Global, words: &[String]) -> Result<WantedGdb, GdbRefusal<'static>>
    ensures asks { IfOk result (AsksForGdb (map string_bytes words.now)) }
    ensures most { IfOk result (λ wanted. wanted.most
        ≡ most_wanted (machine_words (map string_bytes words.now)) wanted.settings.budget) }
    ensures stays { IfOk result (λ wanted. wanted.stays ≡ stays_wanted (map string_bytes words.now)) }
    ensures refused { IfErr result (IsGdbRefusalOf (map string_bytes words.now)) }
{
    let texts = texts_of(alloc, words)?;
    let parted = part_words(alloc, texts.as_slice())?;
    let Some(path) = path_of(&parted) else {
        return Err(refused_line(alloc, "--script takes the path of a file, once"));
    };
    wanted_with(alloc, path, &parted)
}

// What words ask for, by the path of their script and their parts.
fn wanted_with(
    alloc: Global,
    path: Option<&str>,
    parted: &PartedGdbWords<'_>,
) -> Result<WantedGdb, GdbRefusal<'static>>
    ensures script { IfOk result (λ wanted.
        option_map string_bytes wanted.script ≡ option_map (λ w. w.now) path.entry) }
    ensures settings { IfOk result (λ wanted.
        settings_for (map (λ w. w.now) parted.now.others.items) ≡ Ok wanted.settings) }
    ensures most { IfOk result (λ wanted. wanted.most
        ≡ most_wanted (map (λ w. w.now) parted.now.others.items) wanted.settings.budget) }
    ensures stays { IfOk result (λ wanted. wanted.stays ≡ parted.now.stays) }
    ensures refused { IfErr result
        (IsMachineRefusal (settings_for (map (λ w. w.now) parted.now.others.items))) }
{
    let script = match path {
        Some(path) => Some(String::from_str(alloc, path)?),
        None => None,
    };
    let settings = settings_of(alloc, parted.others.as_slice())?;
    let most = most_of(parted.others.as_slice(), settings.budget);
    Ok(WantedGdb {
        script,
        settings,
        most,
        stays: parted.stays,
    })
}

// How many steps a run may take: as many as can be counted, unless the words set a budget.
fn most_of(words: &[&str], budget: u64) -> u64
    ensures { result ≡ most_wanted (map (λ w. w.now) words.now) budget }
{
    if any_sets_budget(words) {
        budget
    } else {
        u64::MAX
    }
}

// Whether one of the words before `--` sets the budget.
#[tactic(auto, using(crate::proofs::GdbLemmas::OptionLemmas::budget_steps))]
fn any_sets_budget(words: &[&str]) -> bool
    ensures { result ≡ any_sets_budget (map (λ w. w.now) words.now) }
{
    for word in words {
        let word = word.as_bytes();
        if word == b"--".as_slice() {
            return false;
        }
        if sets_budget(word) {
            return true;
        }
    }
    false
}

fn sets_budget(word: &[u8]) -> bool
    ensures { result ≡ sets_budget word.now }
{
    &word[..word.len().min(8)] == b"--budget".as_slice()
}

// The path of the script, if there is one; `None` where the words can't be.
fn path_of<'a>(parted: &PartedGdbWords<'a>) -> Option<Option<&'a str>>
    ensures { option_map (option_map (λ w. w.now)) result
        ≡ unless_path_lacks parted.now.next (one_start_path (map (λ w. w.now) parted.now.paths.items)) }
{
    match (parted.next, parted.paths.as_slice()) {
        (GdbWord::Path, _) => None,
        (_, []) => Some(None),
        (_, [path]) => Some(Some(*path)),
        _ => None,
    }
}

fn settings_of(alloc: Global, words: &[&str]) -> Result<Settings, GdbRefusal<'static>>
    ensures ok { IfOk result (λ s. settings_for (map (λ w. w.now) words.now) ≡ Ok s) }
    ensures refused { IfErr result (IsMachineRefusal (settings_for (map (λ w. w.now) words.now))) }
{
    match settings(alloc, words) {
        Ok(settings) => Ok(settings),
        Err(SettingsError::Memory) => Err(GdbRefusal::Memory),
        Err(SettingsError::Line) => Err(GdbRefusal::Line(reason_of(alloc, words)?)),
        Err(SettingsError::Sizes) => Err(GdbRefusal::Sizes(sizes_reason(alloc, words)?)),
    }
}

// What is wrong with a line that can't be; of one that asks for help, what the program is.
fn reason_of(alloc: Global, words: &[&str]) -> Result<String, AllocError> {
    if asks_for_help(words) {
        String::from_str(alloc, HELP)
    } else {
        line_reason(alloc, words)
    }
}

// Whether one of the words before `--` asks for help.
fn asks_for_help(words: &[&str]) -> bool {
    for word in words {
        let word = word.as_bytes();
        if word == b"--".as_slice() {
            return false;
        }
        if word == b"--help".as_slice() || word == b"-h".as_slice() {
            return true;
        }
    }
    false
}
