//! The words that are the subcommand's own: `--script`, with the path that follows it, and `--stay`.

ghost use Rattle.std.specs.Prelude.{◌≡◌, ◌++◌, [], IfOk, OnOk, map};
ghost use Rattle.rosm_settings.specs.gdb.Options.{and_machine_word, asks_to_stay, gdb_word_after, is_machine_word, is_start_path, last_gdb_word, machine_words_from, start_paths_from, stays_from};
ghost use Rattle.rosm_settings.specs.declared.gdb.options.GdbWord.TheVariants.{Option as expects_option};

use std::alloc::{AllocError, Global};

/// What a word of a command line is taken for.
#[derive(Clone, Copy)]
pub enum GdbWord {
    /// An option, or a file.
    Option,
    /// The path of a script, after a word `--script`.
    Path,
    /// A file, after a word `--`.
    File,
}

/// The words of a command line in two lists, each in order.
#[derive(Drop)]
pub struct PartedGdbWords<'a> {
    /// The paths of scripts.
    pub paths: Vec<&'a str>,
    /// The words of `rosm`.
    pub others: Vec<&'a str>,
    /// Whether the program's end is to be stayed at.
    pub stays: bool,
    /// What a word after the last one would be taken for.
    pub next: GdbWord,
}

/// Separates `--script FILE` and `--stay` from all other words; after a word `--` all are others.
///
/// # Errors
///
/// Memory ran out.
#[tactic(auto, using(crate::proofs::GdbLemmas::OptionLemmas::option_steps))]
pub(crate) fn part_words<'a>(
    alloc: Global,
    words: &[&'a str],
) -> Result<PartedGdbWords<'a>, AllocError>
    ensures paths { IfOk result (λ p. map (λ w. w.now) p.paths.items
        ≡ start_paths_from expects_option (map (λ w. w.now) words.entry.now)) }
    ensures others { IfOk result (λ p. map (λ w. w.now) p.others.items
        ≡ machine_words_from expects_option (map (λ w. w.now) words.entry.now)) }
    ensures stays { IfOk result (λ p. p.stays
        ≡ stays_from expects_option (map (λ w. w.now) words.entry.now)) }
    ensures next { IfOk result (λ p. p.next
        ≡ last_gdb_word expects_option (map (λ w. w.now) words.entry.now)) }
{
    let mut paths = Vec::new(alloc);
    let mut others = Vec::new(alloc);
    let mut stays = false;
    let mut next = GdbWord::Option;
    for word in words {
        push_if(&mut paths, is_start_path(next), *word)?;
        push_if(&mut others, is_machine_word(next, word.as_bytes()), *word)?;
        stays = stays || asks_to_stay(next, word.as_bytes());
        next = gdb_word_after(next, word.as_bytes());
    }
    Ok(PartedGdbWords {
        paths,
        others,
        stays,
        next,
    })
}

// Puts a word behind those of a list, where it is to stand there.
fn push_if<'a>(
    words: &mut Vec<&'a str>,
    stands_there: bool,
    word: &'a str,
) -> Result<(), AllocError>
    ensures { OnOk result (map (λ w. w.now) words.new.items
        ≡ map (λ w. w.now) words.old.items ++ and_machine_word stands_there word.entry.now []) }
{
    if stands_there {
        words.push(word)?;
    }
    Ok(())
}

// Whether a word is the path of a script.
fn is_start_path(taken: GdbWord) -> bool
    ensures { result ≡ is_start_path taken }
{
    match taken {
        GdbWord::Path => true,
        GdbWord::Option | GdbWord::File => false,
    }
}

// Whether a word is one of `rosm`'s.
fn is_machine_word(taken: GdbWord, word: &[u8]) -> bool
    ensures { result ≡ is_machine_word taken word.now }
{
    match taken {
        GdbWord::Option => word != b"--script".as_slice() && word != b"--stay".as_slice(),
        GdbWord::Path => false,
        GdbWord::File => true,
    }
}

// Whether a word asks that the program's end be stayed at.
fn asks_to_stay(taken: GdbWord, word: &[u8]) -> bool
    ensures { result ≡ asks_to_stay taken word.now }
{
    match taken {
        GdbWord::Option => word == b"--stay".as_slice(),
        GdbWord::Path | GdbWord::File => false,
    }
}

// What the word after one is taken for.
fn gdb_word_after(taken: GdbWord, word: &[u8]) -> GdbWord
    ensures { result ≡ gdb_word_after taken word.now }
{
    match taken {
        GdbWord::Option => {
            if word == b"--script".as_slice() {
                GdbWord::Path
            } else if word == b"--".as_slice() {
                GdbWord::File
            } else {
                GdbWord::Option
            }
        }
        GdbWord::Path => GdbWord::Option,
        GdbWord::File => GdbWord::File,
    }
}
