//! What a line INCLUDE or SAVE names, and where such a file is.

ghost use Rattle.std.specs.Prelude.{◌≡◌, ◌++◌, IfOk, option_map, string_bytes};
ghost use Rattle.std.specs.Str.Lines.{strip_carriage_return};
ghost use Rattle.debug_lines.specs.WholeDebugRequests.{is_debug_block_open_after};
ghost use Rattle.debug_program.specs.Including.{note_text, path_beside, saved_line, words_of_line};

use crate::typing::joined;
use command_shell_lines::debug_words::text_behind;
use command_shell_lines::is_block_end;
use debug_lines::{opens_block, tidied};
use std::alloc::{AllocError, Global};
use std::path::Path;

/// What lies behind a word, where a line begins with it, and a blank, that stands in no block. The opening is
/// the word with its blank.
///
/// # Errors
///
/// Memory ran out.
pub(crate) fn words_of_line(
    alloc: Global,
    word: &[u8],
    opening: &[u8],
    is_in_block: bool,
    line: &[u8],
) -> Result<Option<Vec<u8>>, AllocError>
    ensures { IfOk result (λ words. option_map (λ text. text.items) words
        ≡ words_of_line word.now opening.now is_in_block line.now) }
{
    if is_in_block {
        return Ok(None);
    }
    let tidy = tidied(alloc, line)?;
    if tidy.eq_ignore_ascii_case(word) {
        return Ok(Some(Vec::new(alloc)));
    }
    match text_behind(opening, &tidy) {
        Some(text) => Ok(Some(Vec::from_slice(alloc, text)?)),
        None => Ok(None),
    }
}

/// A line with its end as it is given, by what it asks to be saved: one SAVE as a remark.
///
/// # Errors
///
/// Memory ran out.
pub(crate) fn saved_line(
    alloc: Global,
    save: &Option<Vec<u8>>,
    line: &[u8],
    end: &[u8],
) -> Result<Vec<u8>, AllocError>
    ensures { IfOk result (λ whole. whole.items
        ≡ saved_line (option_map (λ words. words.items) save.now) (line.now ++ end.now)) }
{
    let line = joined(alloc, line, end)?;
    match save {
        Some(_) => joined(alloc, b"; ", line.as_slice()),
        None => Ok(line),
    }
}

/// Whether a block is open behind a line, by whether one is open before it.
///
/// # Errors
///
/// Memory ran out.
pub(crate) fn is_block_open_after(
    alloc: Global,
    is_in_block: bool,
    line: &[u8],
) -> Result<bool, AllocError>
    ensures { IfOk result (λ is_open. is_open ≡ is_debug_block_open_after is_in_block line.now) }
{
    if is_in_block {
        Ok(!is_block_end(line))
    } else {
        opens_block(alloc, line)
    }
}

/// A line without the carriage return at its end.
pub(crate) fn without_return(line: &[u8]) -> &[u8]
    ensures { result.now ≡ strip_carriage_return line.now }
{
    match line {
        [front @ .., b'\r'] => front,
        _ => line,
    }
}

/// The path of a file that a script names: from the folder of the script.
///
/// # Errors
///
/// Memory ran out.
pub fn path_beside(alloc: Global, script: &str, path: &str) -> Result<String, AllocError>
    ensures { IfOk result (λ beside. string_bytes beside ≡ path_beside script.now path.now) }
{
    let folder = match Path::new(script).parent() {
        Some(folder) => folder,
        None => Path::new(""),
    };
    Ok(folder.join(alloc, path)?.into_string())
}

/// The line that stands in place of a line INCLUDE: which lines are those of its file, by how many came
/// before it and up to the last of them.
///
/// # Errors
///
/// Memory ran out.
pub(crate) fn note_text(
    alloc: Global,
    path: &str,
    first: usize,
    last: usize,
) -> Result<Vec<u8>, AllocError>
    ensures { IfOk result (λ note. note.items ≡ note_text path.now first last) }
{
    if last < first {
        return Ok(format!(in alloc; "; INCLUDE {path}: no lines\n")?.into_bytes());
    }
    Ok(format!(in alloc; "; INCLUDE {path}: lines {first} to {last} here\n")?.into_bytes())
}
