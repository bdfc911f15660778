//! The words that are the program's own: those that ask for a form, the name of a script, `--script` with
//! the path that follows it, and `-i`.

ghost use Rattle.std.specs.Prelude.{◌≡◌, [], false, map, IfOk};
ghost use Rattle.rosm_tools.specs.debug.Options.{form_named, is_dashes, is_script_name, kind_at, kind_of_other, kind_of_word, words_shown, DebugWords};

use debug_records::ReportForm;
use std::alloc::{AllocError, Global};

/// What is written.
#[derive(Clone, Copy, PartialEq, Eq)]
pub enum WantedForm {
    /// The answers, in that form, each as soon as its line is read.
    Lines(ReportForm),
    /// The transcript of a script.
    Transcript,
    /// The records of a script.
    Records,
}

/// What a word is.
#[derive(Clone, Copy, PartialEq, Eq)]
pub enum WordKind {
    /// `--tap`, `--transcript` or `--json`.
    Form(WantedForm),
    /// `--script`, which a path follows.
    Script,
    /// The path of a script: the word behind `--script`, or one that ends with `.script`.
    Path,
    /// `-i`.
    GoingOn,
    /// A word of `rosm`.
    Other,
}

/// The words of a command line by what they are, each list in order.
#[derive(Drop)]
pub struct PartedDebugWords<'a> {
    /// The forms that are asked for.
    pub forms: Vec<WantedForm>,
    /// The paths of scripts.
    pub paths: Vec<&'a str>,
    /// Words of `rosm`.
    pub others: Vec<&'a str>,
    /// Whether a path is missing after the last word.
    pub lacks_path: bool,
    /// Whether standard input is answered behind the script.
    pub goes_on: bool,
}

/// Separates the program's own words from all others; after a word `--` all are `rosm`'s.
///
/// # Errors
///
/// Memory ran out.
pub fn part_words<'a>(
    alloc: Global,
    words: &[&'a str],
) -> Result<PartedDebugWords<'a>, AllocError> {
    let mut parted = PartedDebugWords {
        forms: Vec::new(alloc),
        paths: Vec::new(alloc),
        others: Vec::new(alloc),
        lacks_path: false,
        goes_on: false,
    };
    match parted.take_words(words) {
        Ok(()) => Ok(parted),
        Err(error) => Err(error),
    }
}

impl<'a> PartedDebugWords<'a> {
    // Takes words, one after another.
    fn take_words(&mut self, words: &[&'a str]) -> Result<(), AllocError> {
        let mut are_files = false;
        for word in words {
            let kind = kind_at(are_files, self.lacks_path, word);
            are_files = are_files || (kind == WordKind::Other && is_dashes(word));
            self.take_word(kind, *word)?;
        }
        Ok(())
    }

    // Takes a word by what it is.
    fn take_word(&mut self, kind: WordKind, word: &'a str) -> Result<(), AllocError> {
        self.lacks_path = kind == WordKind::Script;
        match kind {
            WordKind::Form(form) => self.forms.push(form)?,
            WordKind::Script => {}
            WordKind::GoingOn => self.goes_on = true,
            WordKind::Path => self.paths.push(word)?,
            WordKind::Other => self.others.push(word)?,
        }
        Ok(())
    }
}

// What a word is, by whether `--` came before it, and whether the word before it was `--script`.
fn kind_at(are_files: bool, after_script: bool, word: &str) -> WordKind
    ensures { result ≡ kind_at are_files after_script word.now }
{
    if after_script {
        WordKind::Path
    } else if are_files {
        WordKind::Other
    } else {
        kind_of_word(word)
    }
}

fn kind_of_word(word: &str) -> WordKind
    ensures { result ≡ kind_of_word word.now }
{
    match form_named(word) {
        Some(form) => WordKind::Form(form),
        None => kind_of_other(word),
    }
}

fn kind_of_other(word: &str) -> WordKind
    ensures { result ≡ kind_of_other word.now }
{
    if word.as_bytes() == b"--script".as_slice() {
        WordKind::Script
    } else if word.as_bytes() == b"-i".as_slice() {
        WordKind::GoingOn
    } else if is_script_name(word) {
        WordKind::Path
    } else {
        WordKind::Other
    }
}

// Whether a word names a script by its end, and is no option.
fn is_script_name(word: &str) -> bool
    ensures { result ≡ is_script_name word.now }
{
    let word = word.as_bytes();
    word.ends_with(b".script") && !word.starts_with(b"-")
}

// The form that a word asks for, if it is one that does.
fn form_named(word: &str) -> Option<WantedForm>
    ensures { result ≡ form_named word.now }
{
    let word = word.as_bytes();
    if word == b"--tap".as_slice() {
        Some(WantedForm::Lines(ReportForm::Tap))
    } else if word == b"--transcript".as_slice() {
        Some(WantedForm::Transcript)
    } else if word == b"--json".as_slice() {
        Some(WantedForm::Records)
    } else {
        None
    }
}

fn is_dashes(word: &str) -> bool
    ensures { result ≡ is_dashes word.now }
{
    word.as_bytes() == b"--".as_slice()
}
