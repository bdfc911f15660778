//! Bytes that a line names: a word by its value, a text between quotes, or bytes one by one.

ghost use Rattle.std.specs.Prelude.{◌≡◌, ◌<◌, is_some, length, IfOk};
ghost use Rattle.command_shell_lines.specs.Requests.{words};
ghost use Rattle.command_shell_lines.specs.debug_words.NamedBytes.{bytes_of_text, bytes_of_words, bytes_written, fill_bytes, named_bytes, or_no_bytes};
ghost use Rattle.command_shell_lines.specs.debug_words.Spelling.{spelt_bytes};

use crate::debug_words::spelling::{is_well_spelt, spelt_bytes};
use crate::debug_words::texts::{between_quotes, byte_value, text_behind};
use crate::debug_words::values::value_shown;
use assembler_text::cut;
use std::alloc::{AllocError, Global};

/// Whether a text names bytes, one at least: `5`, a word's; `"text"`; or `BYTES 1 2 &FF`.
#[tactic(auto, unfolding(crate::specs::debug_words::NamedBytes::named_bytes))]
pub fn names_bytes(text: &[u8]) -> bool
    ensures { result ≡ is_some (named_bytes text.now) }
{
    if let Some(raw) = between_quotes(text) {
        is_text(raw)
    } else if let Some(list) = text_behind(b"BYTES ", text) {
        are_bytes(list)
    } else {
        value_shown(text).is_some()
    }
}

// Whether a text between quotes has a byte and is well spelt.
fn is_text(raw: &[u8]) -> bool
    ensures { result ≡ is_some (bytes_of_text raw.now) }
{
    match raw {
        [] => false,
        _ => is_well_spelt(raw),
    }
}

// Whether all words are numbers below 256.
fn are_bytes(list: &[u8]) -> bool
    ensures { result ≡ is_some (bytes_of_words (words list.now)) }
{
    let mut rest = Some(list);
    while let Some(left) = rest {
        let (word, others) = cut(left, b' ');
        if byte_value(word).is_none() {
            return false;
        }
        rest = others;
    }
    true
}

/// The bytes that a line writes by a text that names bytes: these, or so many, by these again and
/// again. None where the text names none.
///
/// # Errors
///
/// Memory ran out.
pub fn bytes_written(alloc: Global, count: Option<u32>, text: &[u8]) -> Result<Vec<u8>, AllocError>
    ensures { IfOk result (λ bytes. bytes.items
        ≡ bytes_written count (or_no_bytes (named_bytes text.now))) }
{
    let named = bytes_named(alloc, text)?;
    match count {
        None => Ok(named),
        Some(_) if named.is_empty() => Ok(named),
        Some(count) => fill_bytes(alloc, named.as_slice(), count),
    }
}

/// The bytes that a text names, none where it names none.
///
/// # Errors
///
/// Memory ran out.
#[tactic(auto, unfolding(crate::specs::debug_words::NamedBytes::named_bytes))]
pub fn bytes_named(alloc: Global, text: &[u8]) -> Result<Vec<u8>, AllocError>
    ensures { IfOk result (λ bytes. bytes.items ≡ or_no_bytes (named_bytes text.now)) }
{
    if let Some(raw) = between_quotes(text) {
        spelt_bytes(alloc, raw)
    } else if let Some(list) = text_behind(b"BYTES ", text) {
        bytes_of_words(alloc, list)
    } else {
        match value_shown(text) {
            Some(value) => Vec::from_slice(alloc, &value.to_le_bytes()),
            None => Ok(Vec::new(alloc)),
        }
    }
}

// The bytes of words that are numbers below 256, none where another word is among them.
fn bytes_of_words(alloc: Global, list: &[u8]) -> Result<Vec<u8>, AllocError>
    ensures { IfOk result (λ bytes. bytes.items ≡ or_no_bytes (bytes_of_words (words list.now))) }
{
    let mut bytes = Vec::new(alloc);
    let mut rest = Some(list);
    while let Some(left) = rest {
        let (word, others) = cut(left, b' ');
        match byte_value(word) {
            Some(value) => bytes.push(value as u8)?,
            None => return Ok(Vec::new(alloc)),
        }
        rest = others;
    }
    Ok(bytes)
}

// So many bytes: those of a pattern, again and again.
fn fill_bytes(alloc: Global, pattern: &[u8], count: u32) -> Result<Vec<u8>, AllocError>
    requires { 0 < length pattern.now }
    ensures { IfOk result (λ bytes. bytes.items ≡ fill_bytes pattern.now count) }
{
    let mut bytes = Vec::new(alloc);
    for _byte in 0..count {
        let byte = pattern[bytes.len() % pattern.len()];
        bytes.push(byte)?;
    }
    Ok(bytes)
}
