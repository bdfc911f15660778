//! The words of a command line, read by `clap` into settings.

ghost use Rattle.std.specs.Prelude.{◌≡◌, ◌≢◌, IfOk, IfErr, OnOk, Err, map, true, false, List, codes};
ghost use Rattle.clap.specs.Words.{app_of, found_of, kind_of, rows_of, with_rule};
ghost use Rattle.rosm_settings.specs.command_line.Settings.{file_rule, files_in, is_line, option_number, option_rule, refusal_of, rosm, rows_for, settings_for, settings_in as settings_from};

use crate::command_line::files::Files;
use crate::command_line::options::{Settings, SettingsError};
use clap::error::{Error, ErrorKind};
use clap::{Arg, ArgAction, ArgMatches, Command};
use profile::Config;
use std::alloc::{AllocError, Global};

/// What the words of a command line ask for; the first is the program's name.
///
/// Each option has a number in decimal digits, its default where the words don't have it, and
/// stands at most once; all other words are files. Memory may run out at any point.
///
/// # Errors
///
/// `Line` where the words are no command line, ask for help, or have a number that isn't one or is
/// too large; then `Sizes`, as [`Config::new`] refuses them; `Memory` where memory ran out.
#[tactic(auto, unfolding(crate::specs::command_line::Settings::settings_for))]
pub fn settings(alloc: Global, words: &[&str]) -> Result<Settings, SettingsError>
    ensures { result ≢ Err SettingsError.Memory → result ≡ settings_for (map (λ w. w.now) words.now) }
{
    match matches_for(alloc, words) {
        Ok(matches) => settings_in(alloc, &matches),
        Err(error) => Err(refusal(error.kind())),
    }
}

#[tactic(auto, unfolding(crate::specs::command_line::Settings::settings_in))]
fn settings_in(alloc: Global, matches: &ArgMatches<'_>) -> Result<Settings, SettingsError>
    ensures { result ≢ Err SettingsError.Memory → result ≡ settings_from (rows_of (found_of matches.now)) }
{
    let (Some(pages), Some(app), Some(rma), Some(budget)) = (
        size(matches, "pages"),
        size(matches, "app"),
        size(matches, "rma"),
        steps(matches, "budget"),
    ) else {
        return Err(SettingsError::Line);
    };
    let Some(config) = Config::new(pages, app, rma) else {
        return Err(SettingsError::Sizes);
    };
    match file_words(alloc, matches) {
        Ok(files) => Ok(Settings {
            config,
            budget,
            files,
        }),
        Err(_) => Err(SettingsError::Memory),
    }
}

// The number of an option, or `None` where its text is no number.
pub(crate) fn size(matches: &ArgMatches<'_>, name: &str) -> Option<u32>
    ensures { result ≡ option_number 32 (rows_of (found_of matches.now)) name.now }
{
    matches.get_str(name)?.parse::<u32>().ok()
}

fn steps(matches: &ArgMatches<'_>, name: &str) -> Option<u64>
    ensures { result ≡ option_number 64 (rows_of (found_of matches.now)) name.now }
{
    matches.get_str(name)?.parse::<u64>().ok()
}

#[tactic(auto, using(crate::proofs::CommandLineLemmas::SettingsLemmas::file_steps), unfolding(crate::specs::command_line::Settings::files_in))]
fn file_words(alloc: Global, matches: &ArgMatches<'_>) -> Result<Files, AllocError>
    ensures { IfOk result (λ f. f ≡ files_in (rows_of (found_of matches.now))) }
{
    match matches.get_raw("file") {
        Some(words) => Files::copied(alloc, words),
        None => Ok(Files::none(alloc)),
    }
}

// What clap makes of the words.
pub(crate) fn matches_for<'a>(alloc: Global, words: &'a [&'a str]) -> Result<ArgMatches<'a>, Error>
    ensures line { OnOk result (is_line (map (λ w. w.now) words.entry.now) ≡ true) }
    ensures rows { IfOk result (λ m. rows_of (found_of m) ≡ rows_for (map (λ w. w.now) words.entry.now)) }
    ensures refused { IfErr result (λ e. refusal_of (kind_of e) ≢ SettingsError.Memory
        → (refusal_of (kind_of e) ≡ SettingsError.Line)
        × (is_line (map (λ w. w.now) words.entry.now) ≡ false)) }
{
    command(alloc)?.try_get_matches_from(words)
}

fn refusal(kind: ErrorKind) -> SettingsError
    ensures { result ≡ refusal_of kind }
{
    match kind {
        ErrorKind::OutOfMemory => SettingsError::Memory,
        _ => SettingsError::Line,
    }
}

// `--name N`, with a default.
fn with_option<'a>(
    command: Command<'a>,
    alloc: Global,
    name: &'a str,
    default: &'a str,
) -> Result<Command<'a>, AllocError>
    ensures { IfOk result (λ c. app_of c
        ≡ with_rule (app_of command.entry) (option_rule name.entry.now default.entry.now)) }
{
    let option = Arg::new(alloc, name)
        .long(name)
        .value_name("N")
        .default_value(default);
    command.arg(option)
}

// Each word that belongs to no option.
fn with_files<'a>(command: Command<'a>, alloc: Global) -> Result<Command<'a>, AllocError>
    ensures { IfOk result (λ c. app_of c ≡ with_rule (app_of command.entry) file_rule) }
{
    command.arg(Arg::new(alloc, "file").action(ArgAction::Append))
}

fn command<'a>(alloc: Global) -> Result<Command<'a>, AllocError>
    ensures { IfOk result (λ c. app_of c ≡ rosm) }
{
    let named = Command::new(alloc, "rosm");
    let pages = with_option(named, alloc, "pages", "256")?;
    let app = with_option(pages, alloc, "app", "64")?;
    let rma = with_option(app, alloc, "rma", "16")?;
    let budget = with_option(rma, alloc, "budget", "1000000")?;
    with_files(budget, alloc)
}
