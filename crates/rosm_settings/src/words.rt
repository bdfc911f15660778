//! The words of the process behind the one that names a subcommand.

ghost use Rattle.std.specs.Prelude.{◌≡◌, drop, map, string_bytes, IfOk};

use std::alloc::{AllocError, Global};

/// The words from that of the subcommand on, which stands where the name of a program does.
pub fn from_subcommand(words: &[String]) -> &[String]
    ensures { result.now ≡ drop 1 words.now }
{
    match words {
        [] => words,
        [_program, rest @ ..] => rest,
    }
}

/// The texts of words.
///
/// # Errors
///
/// Memory ran out.
pub fn texts_of<'a>(alloc: Global, words: &'a [String]) -> Result<Vec<&'a str>, AllocError>
    ensures { IfOk result (λ texts. map (λ t. t.now) texts.items ≡ map string_bytes words.entry.now) }
{
    let mut texts = Vec::new(alloc);
    for word in words {
        texts.push(word.as_str())?;
    }
    Ok(texts)
}
