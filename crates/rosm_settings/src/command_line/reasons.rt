//! What is wrong with words that are no command line, for the person who typed them.

ghost use Rattle.std.specs.Prelude.{◌≡◌, true, map, IfOk, IsErr, string_bytes};
ghost use Rattle.clap.specs.Words.{found_of, kind_of, rows_of};
ghost use Rattle.rosm_settings.specs.command_line.Settings.{is_line, is_memory, rows_for};
ghost use Rattle.rosm_settings.specs.command_line.Reasons.{ShowsBadNumber, ShowsNumber, few_pages_text, sizes_text, option_text_of, wrong_option};

use crate::command_line::reading::{matches_for, size};
use clap::ArgMatches;
use clap::error::{Error, ErrorKind};
use profile::memory_map::{MOST_PAGES, SYSTEM_PAGES};
use std::alloc::{AllocError, Global};

/// The largest number that an option other than the budget takes.
const MOST_SIZE: u64 = u32::MAX as u64;

// What a request for help is answered with, before the form of the line.
const HELP: &str = "the script is standard input, and each FILE is an image for it";

/// What is wrong with words that are no command line, in one line: clap's reason, or the option
/// whose text is no number.
///
/// # Errors
///
/// Memory ran out.
pub fn line_reason(alloc: Global, words: &[&str]) -> Result<String, AllocError>
    ensures { is_line (map (λ w. w.now) words.now) ≡ true → IfOk result (λ reason.
        ShowsNumber (rows_for (map (λ w. w.now) words.now)) (string_bytes reason)) }
{
    match matches_for(alloc, words) {
        Ok(matches) => number_reason(alloc, &matches),
        Err(error) => words_reason(alloc, &error),
    }
}

// The first line of clap's text, which names the word at fault.
fn words_reason(alloc: Global, error: &Error) -> Result<String, AllocError>
    ensures { is_memory (kind_of error.now) ≡ true → IsErr result }
{
    match error.kind() {
        ErrorKind::OutOfMemory => return Err(AllocError),
        ErrorKind::DisplayHelp => return String::from_str(alloc, HELP),
        _ => {}
    }
    let text = format!(in alloc; "{error}")?;
    let line = text.as_str().lines().next().unwrap_or("");
    String::from_str(alloc, line.strip_prefix("error: ").unwrap_or(line))
}

/// Which size can't be, and by what rule, in one line: the first of those that [`Config::new`] asks
/// for. Sizes that the words don't name have their defaults.
///
/// [`Config::new`]: profile::Config::new
///
/// # Errors
///
/// Memory ran out.
pub fn sizes_reason(alloc: Global, words: &[&str]) -> Result<String, AllocError>
    ensures { is_line (map (λ w. w.now) words.now) ≡ true → IfOk result (λ reason.
        string_bytes reason ≡ sizes_text (rows_for (map (λ w. w.now) words.now))) }
{
    match matches_for(alloc, words) {
        Ok(matches) => bad_size(alloc, &matches),
        Err(error) => words_reason(alloc, &error),
    }
}

fn bad_size(alloc: Global, matches: &ArgMatches<'_>) -> Result<String, AllocError>
    ensures { IfOk result (λ reason. string_bytes reason ≡ sizes_text (rows_of (found_of matches.now))) }
{
    let pages = size(matches, "pages").unwrap_or(0);
    let app = size(matches, "app").unwrap_or(0);
    let rma = size(matches, "rma").unwrap_or(0);
    if app == 0 {
        String::from_str(alloc, "--app is at least 1, not 0")
    } else if rma == 0 {
        String::from_str(alloc, "--rma is at least 1, not 0")
    } else if pages > MOST_PAGES {
        format!(in alloc; "--pages is at most {MOST_PAGES}, not {pages}")
    } else {
        few_pages(alloc, pages, app, rma)
    }
}

fn few_pages(alloc: Global, pages: u32, app: u32, rma: u32) -> Result<String, AllocError>
    ensures { IfOk result (λ reason. string_bytes reason ≡ few_pages_text pages app rma) }
{
    let least = u64::from(app) + u64::from(rma) + u64::from(SYSTEM_PAGES);
    format!(in alloc;
        "--pages is at least app + rma + {SYSTEM_PAGES}, {least} by --app {app} and --rma {rma}, not {pages}"
    )
}

fn number_reason(alloc: Global, matches: &ArgMatches<'_>) -> Result<String, AllocError>
    ensures { IfOk result (λ reason. ShowsNumber (rows_of (found_of matches.now)) (string_bytes reason)) }
{
    let (name, most) = wrong_option(matches);
    bad_number(alloc, matches, name, most)
}

// The first option that has no number, and the largest that it takes.
fn wrong_option(matches: &ArgMatches<'_>) -> (&'static str, u64)
    ensures name { result.0.now ≡ (wrong_option (rows_of (found_of matches.now))).name }
    ensures most { result.1 ≡ (wrong_option (rows_of (found_of matches.now))).most }
{
    if size(matches, "pages").is_none() {
        ("pages", MOST_SIZE)
    } else if size(matches, "app").is_none() {
        ("app", MOST_SIZE)
    } else if size(matches, "rma").is_none() {
        ("rma", MOST_SIZE)
    } else {
        ("budget", u64::MAX)
    }
}

fn bad_number(
    alloc: Global,
    matches: &ArgMatches<'_>,
    name: &str,
    most: u64,
) -> Result<String, AllocError>
    ensures { IfOk result (λ reason.
        ShowsBadNumber (rows_of (found_of matches.now)) name.now most (string_bytes reason)) }
{
    let text = text_of(matches, name);
    format!(in alloc; "--{name} takes a number N of at most {most}, not {text:?}")
}

// The text of an option.
fn text_of<'a>(matches: &ArgMatches<'a>, name: &str) -> &'a str
    ensures { result.now ≡ option_text_of (rows_of (found_of matches.now)) name.now }
{
    matches.get_str(name).unwrap_or("")
}
